//! A device that has its address is asked what it is, and configured with its pipes (USB 3.2, 9.4 and 9.6; xHCI 1.2, 4.6.6).
//!
//! | Request | Leads to |
//! |---|---|
//! | the device descriptor | `Why` it is refused: `BadDevice`, `Hub` |
//! | the BOS, its first 5 bytes, then all | a device may refuse it: endpoint 0 is cleared, by Reset Endpoint and Set TR Dequeue Pointer |
//! | configuration 0, its first 9 bytes, then all | `LongConfiguration`, `BadDescriptor`, `NoUas`, `BadPipes`, `NoCompanion`, `BrokenUas`, `NoStreams` |
//! | SET_CONFIGURATION; SET_INTERFACE where the setting isn't 0 | the pipes: rings, stream arrays and contexts, then Configure Endpoint; `NotConfigured` |
//!
//! An event of the device's port has that read: a device that was pulled is forgotten, one whose link is lost is tried again.
//!
//! [`DiskUp`] owns a [`BringUp`], tells its accesses until it has a device with an address, and then its own. Each request has 5,000 ms; one that
//! fails, or has no end in time, has the whole device tried again from its port's reset on, twice. A transfer stands alone in its third of
//! endpoint 0's ring: the next third is zeroed, TRBs and Link are stored, the first with Cycle 0, and then that one's last word.
//!
//! What is promised, for any answers, times and calls: what is told is the access of the table's row (`next_access`), and the next state is that
//! of the row too (`next_state`, `answered`, in specs/Disks, Findings, Endings). No access is outside the registers or the memory that was lent
//! (`inside`). No call takes memory. That a disk is configured is tried, in front of the controller of `xhci_machine` (tests/crates/driver).
//!
//! It stands on `bring_up`, `usb_descriptors`, `uas_profile`, `host_layout`, `host_trbs` and `byteorder`.
#![tactic(auto)]

ghost use Rattle.std.specs.Prelude.{◌≡◌, ◌↔◌, true, false};
ghost use Rattle.bring_up.specs.Accesses.{IsInside};
ghost use Rattle.bring_up.specs.Calls.{fits, is_addressed, layout_of};
ghost use Rattle.disk_up.specs.Disks.{answered, asked_access, begun_disk, disk_access, disk_advanced, disk_interrupted, disk_told, disk_woken, is_asked, is_configured, next_access, next_layout, next_state, own_access, own_answered};

mod bridges;
mod control;
mod ending;
mod finding;
mod laws;
mod pipes;
mod requests;

use bring_up::{Access, AnswerFault, BringUp, Options, Stage, fits, is_gone, word_in};
pub use control::{Seen, Sending, is_at, next_third};
pub use finding::{Clearing, Ending, FindStep, Finding};
pub use laws::{contexts_are_added, pipes_are_stored, streams_are_stored, waits_end};
pub use pipes::{Piping, stream_mended};
pub use requests::{Found, Known, Request};

/// A controller that is brought up, and the disk behind it.
#[derive(Clone, Copy)]
pub struct DiskUp {
    pub driver: BringUp,
    /// What is known of the device that has its address.
    pub finding: Finding,
    /// An access of the device's was told that is to be answered.
    pub is_asked: bool,
}

impl DiskUp {
    /// A driver for a controller of which nothing is known. None where the options can't be asked.
    pub fn new(options: Options) -> Option<DiskUp>
        ensures { result ≡ begun_disk options }
    {
        match BringUp::new(options) {
            None => None,
            Some(driver) => Some(DiskUp {
                driver,
                finding: Finding::begun(),
                is_asked: false,
            }),
        }
    }

    /// What the caller does next, at a time in ms. A read or a load is told again until it is answered.
    pub fn next(&mut self, now: u64) -> Access
        ensures told { result ≡ next_access self.old now }
        ensures state { self.new ≡ next_state self.old now }
        ensures inside { IsInside self.old.driver.options.bar_bytes (next_layout self.old now) result }
        ensures options { self.new.driver.options ≡ self.old.driver.options }
    {
        let access = self.driver.next(now);
        if self.driver.is_addressed() {
            self.go_on()
        } else {
            self.finding = Finding::begun();
            self.is_asked = false;
            access
        }
    }

    /// Tells an access of the device's.
    fn go_on(&mut self) -> Access
        ensures told { result ≡ disk_access (disk_woken self.old) }
        ensures state { self.new ≡ disk_told (disk_woken self.old) }
        ensures inside { IsInside self.old.driver.options.bar_bytes (layout_of (disk_woken self.old).driver.stage) result }
        ensures options { self.new.driver.options ≡ self.old.driver.options }
    {
        self.wake();
        self.tell()
    }

    /// Goes on behind a rest that is over.
    fn wake(&mut self)
        ensures is { self.new ≡ disk_woken self.old }
        ensures options { self.new.driver.options ≡ self.old.driver.options }
    {
        match self.access() {
            Access::Rest(until) if until <= self.driver.time => self.advance(&[]),
            _ => {}
        }
    }

    /// Tells an access, and takes it for done where it isn't answered.
    fn tell(&mut self) -> Access
        ensures told { result ≡ disk_access self.old }
        ensures state { self.new ≡ disk_told self.old }
        ensures inside { IsInside self.old.driver.options.bar_bytes (layout_of self.old.driver.stage) result }
        ensures options { self.new.driver.options ≡ self.old.driver.options }
    {
        let access = self.access();
        self.is_asked = access.is_read();
        if access.is_written() {
            self.advance(&[]);
        }
        access
    }

    /// The access of the device's step, where that is of the registers or of the memory that was lent.
    fn access(&self) -> Access
        ensures is { result ≡ disk_access self.now }
        ensures inside { IsInside self.now.driver.options.bar_bytes (layout_of self.now.driver.stage) result }
    {
        self.own_access()
            .kept(self.driver.options.bar_bytes, self.driver.layout())
    }

    fn own_access(&self) -> Access
        ensures { result ≡ own_access self.now }
    {
        match &self.driver.stage {
            Stage::Taken(taken) => self.finding.access(taken),
            _ => Access::Rest(u64::MAX),
        }
    }

    /// Goes on behind the step's access, with what was read.
    fn advance(&mut self, bytes: &[u8])
        ensures is { self.new ≡ disk_advanced self.old bytes.now }
        ensures options { self.new.driver.options ≡ self.old.driver.options }
    {
        let tags = self.driver.options.tags;
        let now = self.driver.time;
        match &mut self.driver.stage {
            Stage::Taken(taken) => self
                .finding
                .advance(taken, tags, now, word_in(bytes), bytes),
            _ => {}
        }
    }

    /// Tells what was read. `NotAsked` where nothing was told that is answered, `Length` for other than its bytes; neither changes anything.
    pub fn answer(&mut self, bytes: &[u8]) -> Result<(), AnswerFault>
        ensures state { self.new ≡ answered self.old bytes.now }
        ensures not_asked { (result ≡ Err AnswerFault.NotAsked) ↔ (is_asked self.old ≡ false) }
        ensures length { (result ≡ Err AnswerFault.Length) ↔ ((is_asked self.old ≡ true) × (fits (asked_access self.old) bytes.now ≡ false)) }
    {
        if self.driver.is_addressed() {
            self.own_answer(bytes)
        } else {
            self.driver.answer(bytes)
        }
    }

    fn own_answer(&mut self, bytes: &[u8]) -> Result<(), AnswerFault>
        ensures state { self.new ≡ own_answered self.old bytes.now }
        ensures not_asked { (result ≡ Err AnswerFault.NotAsked) ↔ (self.old.is_asked ≡ false) }
        ensures length { (result ≡ Err AnswerFault.Length) ↔ ((self.old.is_asked ≡ true) × (fits (disk_access self.old) bytes.now ≡ false)) }
    {
        if !self.is_asked {
            return Err(AnswerFault::NotAsked);
        }
        let access = self.access();
        if !fits(&access, bytes) {
            return Err(AnswerFault::Length);
        }
        self.is_asked = false;
        if is_gone(&access, bytes) {
            self.driver.stage = Stage::Gone;
        } else {
            self.advance(bytes);
        }
        Ok(())
    }

    /// An interrupt came: events are looked for at once.
    pub fn interrupted(&mut self)
        ensures { self.new ≡ disk_interrupted self.old }
    {
        self.driver.interrupted();
        self.finding.interrupt();
    }

    /// Whether the device is configured.
    pub fn is_configured(&self) -> bool
        ensures { result ≡ is_configured self.now }
    {
        self.driver.is_addressed() && matches!(self.finding.step, FindStep::Configured)
    }
}
