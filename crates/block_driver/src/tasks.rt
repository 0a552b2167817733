//! A task of the driver's own, on the disk's last tag, on which no command is: ABORT TASK (INCITS 471, Task Management unit), or SYNCHRONIZE CACHE.
#![tactic(auto, using(crate::proofs::Kept::kept_same))]

ghost use Rattle.std.specs.Prelude.{◌≡◌, ◌++◌, replicate};
ghost use Rattle.byteorder.specs.Endian.{little_bytes};
ghost use Rattle.disk_requests.specs.Units.{task_text};
ghost use Rattle.block_driver.specs.Steps.{World};
ghost use Rattle.block_driver.specs.Table.{RepliesStand, first_of, marks};
ghost use Rattle.block_driver.specs.Tasks.{abort_unit, is_carried_out, is_done, is_done_on, own_access, own_access_at, own_last, own_length, own_next, own_sent, own_stored, own_trb, own_unit, sync_unit};
ghost use Rattle.block_driver.specs.Turns.{abort_told, idle_or_late, last_tag, late_by, own_begun, own_late, own_over, own_told};
ghost use Rattle.block_driver.specs.declared.kinds.Kind.{Kind};

use crate::kinds::Kind;
use crate::steps::{Blocks, Work};
use crate::table::Loss;
use bring_up::{Access, Controller, Service, Stored, Taken, later, store_in};
use byteorder::{ByteOrder, LittleEndian};
use disk_ready::{PipeRing, Put, ReadyDisk, Sent, Spots, Target, Way};
use disk_requests::{
    Request, StatusKind, StatusUnit, command_unit, read_status, request_cdb, task_unit,
};
use host_layout::{Layout, TagArea};
use host_trbs::DataTrb;

/// What it is: ABORT TASK of the command on a tag, or SYNCHRONIZE CACHE.
#[derive(Clone, Copy, Debug, PartialEq, Eq)]
pub enum OwnKind {
    Abort(u8),
    Synchronize,
}

/// A task on a tag, which the disk has up to a time to answer.
#[derive(Clone, Copy)]
pub struct OwnTask {
    pub tag: u8,
    pub kind: OwnKind,
    pub spots: Spots,
    pub limit: u64,
}

/// The task management function, and bytes of its unit.
const ABORT_TASK: u8 = 1;

const TASK_BYTES: u32 = 16;

/// Bytes of a Command unit.
const COMMAND_BYTES: u32 = 32;

/// The response codes of a function that was carried out.
const COMPLETE: u8 = 0;

const SUCCEEDED: u8 = 8;

/// ms of the disk to answer an abort, and to bring its blocks to the medium.
const TASK_LIMIT: u64 = 5_000;

const SYNC_LIMIT: u64 = 30_000;

/// The Task Management unit, in the 32 bytes of its place.
fn abort_unit(tag: u8, managed: u8) -> [u8; 32]
    ensures { result ≡ abort_unit tag managed }
{
    let mut unit = [0; 32];
    unit[..16].copy_from_slice(&task_unit(u16::from(tag), ABORT_TASK, u16::from(managed), 0));
    unit
}

fn sync_unit(tag: u8) -> [u8; 32]
    ensures { result ≡ sync_unit tag }
{
    command_unit(u16::from(tag), 0, &request_cdb(&Request::Sync, false))
}

impl OwnKind {
    fn unit(self, tag: u8) -> [u8; 32]
        ensures { result ≡ own_unit self tag }
    {
        match self {
            OwnKind::Abort(managed) => abort_unit(tag, managed),
            OwnKind::Synchronize => sync_unit(tag),
        }
    }

    fn bytes(self) -> u32
        ensures { result ≡ own_length self }
    {
        match self {
            OwnKind::Abort(_) => TASK_BYTES,
            OwnKind::Synchronize => COMMAND_BYTES,
        }
    }
}

fn own_trb(at: u64, length: u32) -> DataTrb
    ensures { result ≡ own_trb at length }
{
    DataTrb {
        at,
        length,
        packets_left: 0,
        is_last: true,
        is_in: false,
    }
}

/// The four bytes of a word, low byte first.
fn word_bytes(word: u32) -> [u8; 4]
    ensures { result ≡ little_bytes 4 word }
{
    let mut bytes = [0; 4];
    LittleEndian::write_u32(&mut bytes, word);
    bytes
}

/// The unit's TRB, not yet the controller's; then its last word.
fn own_stored(unit: Option<u64>, layout: &Layout, at: PipeRing, length: u32) -> Access
    ensures { result ≡ own_stored unit layout.now at length }
{
    match unit {
        Some(unit) => store_in(
            Some(at.address(layout)),
            Stored::Sixteen(own_trb(unit, length).words(!at.cycle).bytes()),
        ),
        None => Access::Rest(0),
    }
}

fn own_last(unit: Option<u64>, layout: &Layout, at: PipeRing, length: u32) -> Access
    ensures { result ≡ own_last unit layout.now at length }
{
    match unit {
        Some(unit) => store_in(
            Some(later(at.address(layout), 12)),
            Stored::Four(word_bytes(own_trb(unit, length).words(at.cycle).control)),
        ),
        None => Access::Rest(0),
    }
}

impl OwnTask {
    fn sent(&self) -> Sent
        ensures { result ≡ own_sent self.now }
    {
        Sent {
            tag: self.tag,
            way: Way::Nothing,
            unit: self.kind.unit(self.tag),
            list: None,
        }
    }

    fn access(&self, at: Put, c: &Controller, layout: &Layout, target: &Target) -> Access
        ensures { result ≡ own_access_at at self.now c.now layout.now target.now }
    {
        let unit = layout.of_tag(self.tag, TagArea::CommandUnit);
        match at {
            Put::PipeBody => own_stored(unit, layout, self.spots.pipe, self.kind.bytes()),
            Put::PipeLast => own_last(unit, layout, self.spots.pipe, self.kind.bytes()),
            at => at.access(c, layout, target, &self.sent(), self.spots, &[]),
        }
    }
}

/// An access of its put.
pub(crate) fn own_access(
    own: &Option<OwnTask>,
    at: Put,
    c: &Controller,
    layout: &Layout,
    target: &Target,
) -> Access
    ensures { result ≡ own_access own.now at c.now layout.now target.now }
{
    match own {
        Some(own) => own.access(at, c, layout, target),
        None => Access::Rest(0),
    }
}

fn own_next(own: &Option<OwnTask>, at: Put) -> Option<Put>
    ensures { result ≡ own_next own.now at }
{
    match own {
        Some(own) => at.after(&own.sent(), own.spots, &[]),
        None => None,
    }
}

/// Whether a unit says that a function on a tag was carried out.
fn is_carried_out(bytes: &[u8], tag: u8) -> bool
    ensures { result ≡ is_carried_out bytes.now tag }
{
    is_done_on(&read_status(bytes), tag)
}

fn is_done_on(unit: &Option<StatusUnit>, tag: u8) -> bool
    ensures { result ≡ is_done_on unit.now tag }
{
    match unit {
        Some(unit) => unit.tag == u16::from(tag) && is_done(&unit.kind),
        None => false,
    }
}

fn is_done(kind: &StatusKind) -> bool
    ensures { result ≡ is_done kind.now }
{
    match kind {
        StatusKind::Response { code } => *code == COMPLETE || *code == SUCCEEDED,
        _ => false,
    }
}

fn last_tag(disk: &Option<ReadyDisk>) -> u8
    ensures { result ≡ last_tag disk.now }
{
    match disk {
        Some(disk) => disk.tags,
        None => 0,
    }
}

impl Blocks {
    /// It is put, up to a time.
    fn own_begin(&mut self, kind: OwnKind, limit: u64)
        ensures is { self.new ≡ own_begun self.old kind limit }
        ensures once { marks self.new.tags ≡ marks self.old.tags }
        ensures replies { RepliesStand self.old.tags self.new.tags }
    {
        let tag = last_tag(&self.disk);
        let thirds = self.thirds[usize::from(tag)];
        self.own = Some(OwnTask {
            tag,
            kind,
            spots: thirds.spots(Way::Nothing, self.pipe),
            limit,
        });
        self.thirds[usize::from(tag)] = thirds.after(Way::Nothing);
        self.pipe = self.pipe.next();
        self.work = Work::Own(Put::CommandUnit);
    }

    pub(crate) fn own_over(&mut self, at: Put)
        ensures is { self.new ≡ own_over self.old at }
        ensures once { marks self.new.tags ≡ marks self.old.tags }
        ensures replies { RepliesStand self.old.tags self.new.tags }
    {
        self.work = match own_next(&self.own, at) {
            Some(at) => Work::Own(at),
            None => Work::Idle,
        };
    }

    /// No TD is to be taken off: the next command whose time is over is aborted; where the driver shuts down, the disk brings its blocks to the medium
    /// behind the last.
    pub(crate) fn idle_or_late(&mut self, taken: &mut Taken, now: u64)
        ensures is { record { blocks = self.new; taken = taken.new } ≡ idle_or_late (record { blocks = self.old; taken = taken.old }) now }
        ensures once { marks self.new.tags ≡ marks self.old.tags }
        ensures replies { RepliesStand self.old.tags self.new.tags }
    {
        match self.own {
            Some(own) if own.limit <= now => self.own_late(taken, own.kind),
            Some(_) => self.work = Work::Idle,
            None => self.late(now),
        }
    }

    /// A disk that doesn't answer an abort has its device tried again.
    fn own_late(&mut self, taken: &mut Taken, kind: OwnKind)
        ensures is { record { blocks = self.new; taken = taken.new } ≡ own_late kind (record { blocks = self.old; taken = taken.old }) }
        ensures once { marks self.new.tags ≡ marks self.old.tags }
        ensures replies { RepliesStand self.old.tags self.new.tags }
    {
        match kind {
            OwnKind::Abort(_) => self.fail(taken, Loss::Late),
            OwnKind::Synchronize => self.shut(taken),
        }
    }

    fn late(&mut self, now: u64)
        ensures is { self.new ≡ late_by (first_of (Kind.Late now) self.old.tags) self.old now }
        ensures once { marks self.new.tags ≡ marks self.old.tags }
        ensures replies { RepliesStand self.old.tags self.new.tags }
    {
        match self.tags.first(Kind::Late(now)) {
            Some(tag) if self.tags.is_put(tag) => {
                self.own_begin(OwnKind::Abort(tag), later(now, TASK_LIMIT));
            }
            Some(tag) => {
                self.doom(u16::from(tag));
                self.work = Work::Idle;
            }
            None if self.is_drained() => {
                self.own_begin(OwnKind::Synchronize, later(now, SYNC_LIMIT));
            }
            None => self.work = Work::Idle,
        }
    }

    /// The answer to it came.
    pub(crate) fn own_told(
        &mut self,
        taken: &mut Taken,
        own: OwnTask,
        service: Service,
        bytes: &[u8],
    )
        ensures is { record { blocks = self.new; taken = taken.new } ≡ own_told own.kind (is_carried_out bytes.now own.tag) (record { blocks = self.old; taken = taken.old }) service }
        ensures once { marks self.new.tags ≡ marks self.old.tags }
        ensures replies { RepliesStand self.old.tags self.new.tags }
    {
        match own.kind {
            OwnKind::Abort(managed) => {
                self.abort_told(taken, is_carried_out(bytes, own.tag), managed, service);
            }
            OwnKind::Synchronize => self.shut(taken),
        }
    }

    fn abort_told(&mut self, taken: &mut Taken, is_done: bool, managed: u8, service: Service)
        ensures is { record { blocks = self.new; taken = taken.new } ≡ abort_told is_done (record { blocks = self.old; taken = taken.old }) managed service }
        ensures once { marks self.new.tags ≡ marks self.old.tags }
        ensures replies { RepliesStand self.old.tags self.new.tags }
    {
        if is_done {
            self.tags.abort(managed);
            self.own = None;
            self.work = Work::Serve(service);
        } else {
            self.fail(taken, Loss::Late);
        }
    }
}
