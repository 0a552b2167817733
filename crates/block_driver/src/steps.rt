//! A disk with many commands out: the steps, what each tells, and what comes after it.
#![tactic(auto, using(crate::proofs::Kept::kept_same))]

ghost use Rattle.std.specs.Prelude.{◌≡◌};
ghost use Rattle.block_driver.specs.Steps.{World, begun_blocks, blocks_access, changes_cleared, found_access, idle_until, waiting};
ghost use Rattle.block_driver.specs.Turns.{blocks_advanced, commands_closed, found_advanced, given_back, idle_over, opened, put_begun, put_over};
ghost use Rattle.block_driver.specs.Table.{RepliesStand, marks};

use crate::closing::Closing;
use crate::freeing::{Removal, endpoint_of};
use crate::kinds::{Kind, StreamPipe};
use crate::rings::{Thirds, thirds_from};
use crate::table::Loss;
use crate::tags::Tags;
use crate::tasks::{OwnTask, own_access};
use bring_up::{Access, Putting, Service, Serving, Taken, load_in, read_at, write_at};
use disk_ready::{PipeRing, Put, ReadyDisk, Spots, Target};
use host_layout::TagArea;
use usb_descriptors::{Pipes, Streams, UasFunction};

/// What is done for the disk.
#[derive(Clone, Copy)]
pub enum Work {
    /// Nothing, until a command is submitted, an interrupt comes, or a command's time is over.
    Idle,
    /// A command's TDs are put.
    Put {
        tag: u8,
        at: Put,
    },
    /// Events are looked for.
    Serve(Service),
    /// So many bytes of a tag's status unit are loaded, between two events.
    Unit {
        tag: u8,
        count: u32,
        service: Service,
    },
    /// PORTSC of the disk's port is read, between two events; then its changes are cleared, in this value.
    Port(Service),
    Changes {
        value: u32,
        service: Service,
    },
    /// A command that takes TDs off is put.
    Free {
        removal: Removal,
        at: Putting,
    },
    /// The context of a pipe's endpoint is loaded.
    Context {
        pipe: StreamPipe,
    },
    /// The doorbells of a pipe's streams are rung again.
    Ring {
        pipe: StreamPipe,
        tag: u8,
    },
    /// The driver's own task is put.
    Own(Put),
}

/// A disk with many commands out.
#[derive(Drop)]
pub struct Blocks {
    pub tags: Tags,
    pub thirds: [Thirds; 256],
    pub pipe: PipeRing,
    /// The disk, while it is used, and its number.
    pub disk: Option<ReadyDisk>,
    pub number: u64,
    pub work: Work,
    /// A command that takes TDs off, and whose event is awaited.
    pub removal: Option<Removal>,
    /// The driver's own task.
    pub own: Option<OwnTask>,
    /// An interrupt came, and events weren't looked for since.
    pub is_interrupted: bool,
    /// Why the disk isn't used any more, until its commands' TDs are given back.
    pub loss: Option<Loss>,
    pub closing: Closing,
}

/// The bits of PORTSC that are written as they were read, and its change bits.
const NEUTRAL: u32 = 0x0e00_c3e0;

const CHANGES: u32 = 0x00fe_0000;

/// Bytes of a context that are loaded.
const CONTEXT_BYTES: u32 = 32;

impl Blocks {
    pub(crate) fn begun(tags: Tags) -> Blocks
        ensures { result ≡ begun_blocks tags }
    {
        Blocks {
            tags,
            thirds: [Thirds::begun(); 256],
            pipe: PipeRing::begun(),
            disk: None,
            number: 0,
            work: Work::Idle,
            removal: None,
            own: None,
            is_interrupted: false,
            loss: None,
            closing: Closing::Open,
        }
    }

    /// A disk got ready: its questions' TDs were on tag 1, whose rings go on behind them.
    pub(crate) fn open(&mut self, disk: ReadyDisk, spots: Spots)
        ensures is { self.new ≡ opened self.old disk spots }
        ensures once { marks self.new.tags ≡ marks self.old.tags }
        ensures replies { RepliesStand self.old.tags self.new.tags }
    {
        self.thirds = thirds_from(spots);
        self.pipe = spots.pipe;
        self.disk = Some(disk);
        self.number = self.number.saturating_add(1);
        self.work = Work::Idle;
        self.removal = None;
        self.own = None;
        self.is_interrupted = false;
    }

    /// The disk isn't used any more. Its commands are lost once their TDs are given back.
    pub(crate) fn close(&mut self, loss: Loss)
        ensures is { self.new ≡ commands_closed self.old loss }
        ensures once { marks self.new.tags ≡ marks self.old.tags }
        ensures replies { RepliesStand self.old.tags self.new.tags }
    {
        self.disk = None;
        self.work = Work::Idle;
        self.removal = None;
        self.own = None;
        self.is_interrupted = false;
        self.loss = Some(loss);
    }

    /// The TDs of a disk that isn't used any more are given back.
    pub(crate) fn give_back(&mut self)
        ensures is { self.new ≡ given_back self.old }
        ensures once { marks self.new.tags ≡ marks self.old.tags }
        ensures replies { RepliesStand self.old.tags self.new.tags }
    {
        if let Some(loss) = self.loss {
            self.tags.lose(loss);
            self.loss = None;
        }
    }

    /// The access of a device with these pipes; none of one whose pipes aren't known.
    pub(crate) fn found_access(
        &self,
        taken: &Taken,
        found: &Option<(UasFunction, Streams)>,
    ) -> Access
        ensures { result ≡ found_access found.now (record { blocks = self.now; taken = taken.now }) }
    {
        match found {
            Some((function, _)) => self.access(taken, &function.pipes),
            None => Access::Rest(u64::MAX),
        }
    }

    /// The access that its step tells.
    fn access(&self, taken: &Taken, pipes: &Pipes) -> Access
        ensures { result ≡ blocks_access (record { blocks = self.now; taken = taken.now }) pipes.now }
    {
        let c = &taken.controller;
        let layout = &taken.layout;
        let target = Target {
            slot: taken.device.slot,
            pipes: *pipes,
        };
        match self.work {
            Work::Idle => Access::Rest(self.idle_until()),
            Work::Put { tag, at } => self.tags.put_access(tag, at, c, layout, &target),
            Work::Serve(service) => service.access(c, layout, taken.events),
            Work::Unit { tag, count, .. } => load_in(
                layout.of_tag(tag, TagArea::StatusUnit),
                count,
            ),
            Work::Port(_) => read_at(c.port_register(taken.device.port.number)),
            Work::Changes { value, .. } => write_at(
                c.port_register(taken.device.port.number),
                changes_cleared(value),
            ),
            Work::Free { removal, at } => self.freeing_access(taken, pipes, removal, at),
            Work::Context { pipe } => load_in(
                layout.device_context(endpoint_of(pipes, pipe)),
                CONTEXT_BYTES,
            ),
            Work::Ring { pipe, tag } => write_at(
                c.doorbell(taken.device.slot),
                u32::from(endpoint_of(pipes, pipe)) + (u32::from(tag) << 16),
            ),
            Work::Own(at) => own_access(&self.own, at, c, layout, &target),
        }
    }

    /// When a rest is over: at once where there is something to put or to look for; else with the time of a command that takes TDs off, of the
    /// driver's own task, or of the first of all commands.
    fn idle_until(&self) -> u64
        ensures { result ≡ idle_until self.now }
    {
        if self.is_interrupted || self.waiting().is_some() || self.is_closable() {
            return 0;
        }
        match (self.removal, self.own) {
            (Some(removal), _) => removal.limit,
            (None, Some(own)) => own.limit,
            (None, None) => self.tags.least_limit(),
        }
    }

    /// The lowest tag that waits; while TDs are taken off, or the driver's own task is out, none is put.
    fn waiting(&self) -> Option<u8>
        ensures { result ≡ waiting self.now }
    {
        if self.removal.is_some() || self.own.is_some() {
            None
        } else {
            self.tags.first(Kind::Waiting)
        }
    }

    pub(crate) fn found_advance(
        &mut self,
        taken: &mut Taken,
        found: &Option<(UasFunction, Streams)>,
        now: u64,
        value: u32,
        bytes: &[u8],
    )
        ensures is { record { blocks = self.new; taken = taken.new } ≡ found_advanced found.now (record { blocks = self.old; taken = taken.old }) now value bytes.now }
        ensures once { marks self.new.tags ≡ marks self.old.tags }
        ensures replies { RepliesStand self.old.tags self.new.tags }
    {
        if found.is_some() {
            self.advance(taken, now, value, bytes);
        }
    }

    /// Goes on behind its step's access, with what was read.
    fn advance(&mut self, taken: &mut Taken, now: u64, value: u32, bytes: &[u8])
        ensures is { record { blocks = self.new; taken = taken.new } ≡ blocks_advanced (record { blocks = self.old; taken = taken.old }) now value bytes.now }
        ensures once { marks self.new.tags ≡ marks self.old.tags }
        ensures replies { RepliesStand self.old.tags self.new.tags }
    {
        match self.work {
            Work::Idle => self.idle_over(),
            Work::Put { tag, at } => self.put_over(tag, at),
            Work::Serve(service) => self.serve(taken, service, now, value, bytes),
            Work::Unit { tag, service, .. } => self.unit_taken(taken, tag, service, now, bytes),
            Work::Port(service) => self.work = Work::Changes { value, service },
            Work::Changes { value, service } => self.port_told(taken, service, value),
            Work::Free { removal, at } => self.free_put(removal, at, now),
            Work::Context { pipe } => self.context_taken(taken, pipe, now, bytes),
            Work::Ring { pipe, tag } => self.ring_after(pipe, tag),
            Work::Own(at) => self.own_over(at),
        }
    }

    /// Commands that wait are put, the lowest tag first; then events are looked for.
    fn idle_over(&mut self)
        ensures is { self.new ≡ idle_over self.old }
        ensures once { marks self.new.tags ≡ marks self.old.tags }
        ensures replies { RepliesStand self.old.tags self.new.tags }
    {
        match self.waiting() {
            Some(tag) => self.put_begin(tag),
            None => {
                self.is_interrupted = false;
                self.work = Work::Serve(Service {
                    limit: u64::MAX,
                    seen: 0,
                    at: Serving::Status,
                });
            }
        }
    }

    /// A command's TDs get their places.
    fn put_begin(&mut self, tag: u8)
        ensures is { self.new ≡ put_begun self.old tag }
        ensures once { marks self.new.tags ≡ marks self.old.tags }
        ensures replies { RepliesStand self.old.tags self.new.tags }
    {
        let way = self.tags.way(tag);
        let thirds = self.thirds[usize::from(tag)];
        self.tags.put(tag, thirds.spots(way, self.pipe));
        self.thirds[usize::from(tag)] = thirds.after(way);
        self.pipe = self.pipe.next();
        self.work = Work::Put {
            tag,
            at: Put::CommandUnit,
        };
    }

    fn put_over(&mut self, tag: u8, at: Put)
        ensures is { self.new ≡ put_over self.old tag at }
        ensures once { marks self.new.tags ≡ marks self.old.tags }
        ensures replies { RepliesStand self.old.tags self.new.tags }
    {
        self.work = match self.tags.put_next(tag, at) {
            Some(at) => Work::Put { tag, at },
            None => Work::Idle,
        };
    }
}

/// PORTSC as it is written to clear its changes: Port Enabled written 1 would disable the port.
fn changes_cleared(value: u32) -> u32
    ensures { result ≡ changes_cleared value }
{
    (value & NEUTRAL) | (value & CHANGES)
}
