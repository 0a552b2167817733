//! A device that is configured as a UAS disk is asked until it is ready, and how large it is (SPC-4, SBC-3; xHCI 1.2, 4.12).
//!
//! | Question | Leads to |
//! |---|---|
//! | INQUIRY | `Why` it is refused: `NotADisk` |
//! | TEST UNIT READY until GOOD | a disk is started once, and asked again each 200 ms; `NoMedium`, `NeverReady` |
//! | READ CAPACITY(10) | `BadCapacity`, `BlockLength` |
//! | (16), pages 00h and B0h | each may be refused; asked of SPC-3 and later, and (16) of 2^32 blocks and more; `BadCapacity`, `BlockLength` |
//!
//! A UNIT ATTENTION is asked again, ten times in a row of the table. What may pass of INQUIRY and READ CAPACITY(10), too, is asked again each 200 ms.
//!
//! [`DiskReady`] owns a [`DiskUp`], tells its accesses until it is configured, and then its own. INQUIRY and TEST UNIT READY have 30,000 ms, then the
//! disk isn't used (`NeverReady`). Its size has as many, then the device is tried again, as it is where a TD fails or the status unit is another
//! one's.
//!
//! A question is a command on tag 1. Its data's TD and its status's stand each alone in a third of their stream's rings, its unit's on the command
//! pipe's ring ([`Put`]); each ends by its event ([`Ends`]). Data that didn't come, behind a status that isn't GOOD or 1,000 ms behind one that is,
//! are taken off: Stop Endpoint, Set TR Dequeue Pointer to the next third.
//!
//! What is promised, for any answers, times and calls: what is told is the access of the table's row (`next_access`), and the next state is that of
//! the row too (`next_state`, `answered`, in specs/Calls, Steps, Table). No access is outside the registers or the memory that was lent (`inside`).
//! What the disk can be asked is `ready_disk`. No call takes memory. That a disk gets ready is tried, in front of the controller of `xhci_machine`
//! (tests/crates/driver).
//!
//! It stands on `disk_up`, `bring_up`, `disk_requests`, `usb_descriptors`, `uas_profile`, `host_layout`, `host_trbs` and `byteorder`.
#![tactic(auto)]

ghost use Rattle.std.specs.Prelude.{◌≡◌, ◌↔◌, true, false};
ghost use Rattle.bring_up.specs.Accesses.{IsInside};
ghost use Rattle.bring_up.specs.Calls.{fits, layout_of};
ghost use Rattle.disk_ready.specs.Calls.{answered, asked_access, begun_ready, disk_access, disk_advanced, disk_told, disk_woken, interrupted, is_asked, next_access, next_layout, next_state, own_access, own_answered, ready_disk};

mod ends;
mod freeing;
mod laws;
mod puts;
mod questions;
mod serving;
mod shapes;
mod steps;
mod stores;

use bring_up::{Access, AnswerFault, Options, Stage, fits, is_gone, word_in};
use disk_up::DiskUp;
pub use ends::{Ends, Td};
pub use laws::{bells_are_rung, thirds_are_put};
pub use puts::{PipeRing, Put, Sent, Spots, Target, Way};
pub use questions::{Heard, Learned, Next, Question};
pub use shapes::ReadyDisk;
use shapes::disk_of;
pub use steps::{Awaited, Freeing, ReadyStep, Readying, Removal, Told, Verdict};
pub use stores::place_in;

/// A controller that is brought up, and the disk behind it.
#[derive(Clone, Copy)]
pub struct DiskReady {
    pub device: DiskUp,
    /// What is known of the disk of a device that is configured.
    pub ready: Readying,
    /// An access of the disk's was told that is to be answered.
    pub is_asked: bool,
}

impl DiskReady {
    /// A driver for a controller of which nothing is known. None where the options can't be asked.
    pub fn new(options: Options) -> Option<DiskReady>
        ensures { result ≡ begun_ready options }
    {
        match DiskUp::new(options) {
            None => None,
            Some(device) => Some(DiskReady {
                device,
                ready: Readying::begun(),
                is_asked: false,
            }),
        }
    }

    /// What the caller does next, at a time in ms. A read or a load is told again until it is answered.
    pub fn next(&mut self, now: u64) -> Access
        ensures told { result ≡ next_access self.old now }
        ensures state { self.new ≡ next_state self.old now }
        ensures inside { IsInside self.old.device.driver.options.bar_bytes (next_layout self.old now) result }
        ensures options { self.new.device.driver.options ≡ self.old.device.driver.options }
    {
        let is_configured = self.device.is_configured();
        let access = self.device.next(now);
        if is_configured {
            self.go_on()
        } else {
            self.ready = Readying::begun();
            self.is_asked = false;
            access
        }
    }

    /// Tells an access of the disk's.
    fn go_on(&mut self) -> Access
        ensures told { result ≡ disk_access (disk_woken self.old) }
        ensures state { self.new ≡ disk_told (disk_woken self.old) }
        ensures inside { IsInside self.old.device.driver.options.bar_bytes (layout_of (disk_woken self.old).device.driver.stage) result }
        ensures options { self.new.device.driver.options ≡ self.old.device.driver.options }
    {
        self.wake();
        self.tell()
    }

    /// Goes on behind a rest that is over.
    fn wake(&mut self)
        ensures is { self.new ≡ disk_woken self.old }
        ensures options { self.new.device.driver.options ≡ self.old.device.driver.options }
    {
        match self.access() {
            Access::Rest(until) if until <= self.device.driver.time => self.advance(&[]),
            _ => {}
        }
    }

    /// Tells an access, and takes it for done where it isn't answered.
    fn tell(&mut self) -> Access
        ensures told { result ≡ disk_access self.old }
        ensures state { self.new ≡ disk_told self.old }
        ensures inside { IsInside self.old.device.driver.options.bar_bytes (layout_of self.old.device.driver.stage) result }
        ensures options { self.new.device.driver.options ≡ self.old.device.driver.options }
    {
        let access = self.access();
        self.is_asked = access.is_read();
        if access.is_written() {
            self.advance(&[]);
        }
        access
    }

    /// The access of the disk's step, where that is of the registers or of the memory that was lent.
    fn access(&self) -> Access
        ensures is { result ≡ disk_access self.now }
        ensures inside { IsInside self.now.device.driver.options.bar_bytes (layout_of self.now.device.driver.stage) result }
    {
        self.own_access().kept(
            self.device.driver.options.bar_bytes,
            self.device.driver.layout(),
        )
    }

    fn own_access(&self) -> Access
        ensures { result ≡ own_access self.now }
    {
        match &self.device.driver.stage {
            Stage::Taken(taken) => self
                .ready
                .found_access(taken, &self.device.finding.known.disk),
            _ => Access::Rest(u64::MAX),
        }
    }

    /// Goes on behind the step's access, with what was read.
    fn advance(&mut self, bytes: &[u8])
        ensures is { self.new ≡ disk_advanced self.old bytes.now }
        ensures options { self.new.device.driver.options ≡ self.old.device.driver.options }
    {
        let now = self.device.driver.time;
        let found = self.device.finding.known.disk;
        match &mut self.device.driver.stage {
            Stage::Taken(taken) => self
                .ready
                .found_advance(taken, &found, now, word_in(bytes), bytes),
            _ => {}
        }
    }

    /// Tells what was read. `NotAsked` where nothing was told that is answered, `Length` for other than its bytes; neither changes anything.
    pub fn answer(&mut self, bytes: &[u8]) -> Result<(), AnswerFault>
        ensures state { self.new ≡ answered self.old bytes.now }
        ensures not_asked { (result ≡ Err AnswerFault.NotAsked) ↔ (is_asked self.old ≡ false) }
        ensures length { (result ≡ Err AnswerFault.Length) ↔ ((is_asked self.old ≡ true) × (fits (asked_access self.old) bytes.now ≡ false)) }
    {
        if self.device.is_configured() {
            self.own_answer(bytes)
        } else {
            self.device.answer(bytes)
        }
    }

    fn own_answer(&mut self, bytes: &[u8]) -> Result<(), AnswerFault>
        ensures state { self.new ≡ own_answered self.old bytes.now }
        ensures not_asked { (result ≡ Err AnswerFault.NotAsked) ↔ (self.old.is_asked ≡ false) }
        ensures length { (result ≡ Err AnswerFault.Length) ↔ ((self.old.is_asked ≡ true) × (fits (disk_access self.old) bytes.now ≡ false)) }
    {
        if !self.is_asked {
            return Err(AnswerFault::NotAsked);
        }
        let access = self.access();
        if !fits(&access, bytes) {
            return Err(AnswerFault::Length);
        }
        self.is_asked = false;
        if is_gone(&access, bytes) {
            self.device.driver.stage = Stage::Gone;
        } else {
            self.advance(bytes);
        }
        Ok(())
    }

    /// An interrupt came: events are looked for at once.
    pub fn interrupted(&mut self)
        ensures { self.new ≡ interrupted self.old }
    {
        self.device.interrupted();
        self.ready.interrupt();
    }

    /// The disk, once it is ready.
    pub fn disk(&self) -> Option<ReadyDisk>
        ensures { result ≡ ready_disk self.now }
    {
        if self.device.is_configured() && matches!(self.ready.step, ReadyStep::Ready) {
            disk_of(&self.device.finding.known, &self.ready.learned)
        } else {
            None
        }
    }
}
