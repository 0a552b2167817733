//! A CBW on Bulk-Out, and what it begins.
ghost use Rattle.std.specs.Prelude.{◌≡◌, ◌+◌, ◌-◌, ◌<◌, ◌≤◌, ◌++◌, ◌==◌, ◌&&◌, length as list_length, true, false, Some, None};
ghost use Rattle.bulk_only.specs.Command.{cbw_in};
ghost use Rattle.guest_pipes.specs.Step.{World, has_place, has_home};
ghost use Rattle.guest_out.specs.Immediate.{bytes_out, tallied};
ghost use Rattle.guest_bulk.specs.Commands.{BulkWorld, begun_by, begun_if, cbw_drawn, cbw_gathered, cbw_lost, cbw_ran, cbw_taken, command_of, gives_bytes};
ghost use Rattle.guest_bulk.specs.Commands.{is_for, is_request_sense, kept_begun, received_if, sense_for, sense_of, takes_bytes, task_begun, unit_of, with_moved};

use crate::bulk::{Bulk, BulkCommand, BulkStage, Halting, KeptSense};
use arrayvec::ArrayVec;
use bulk_only::{Cbw, CbwFault, Done, cleared_lun, read_cbw};
use guest_memory::rings::{EventRing, Front};
use guest_memory::{GuestMemory, Outside};
use guest_out::draw;
use guest_pipes::{Consumer, Progress};
use guest_tags::{Buffer, UasDevice};
use uas_iu::{Iu, lun_bytes, write};
use uas_profile::STATUS_BYTES;

/// The tag of the only task.
pub(crate) const BULK_TAG: u16 = 1;

const _: () = prove!(BULK_TAG == 1);

/// How many bytes of a TD are gathered at most.
pub(crate) const MOST_GATHERED: usize = 1024;

const _: () = prove!(MOST_GATHERED == 1024);

/// The bytes of a Sense information unit before its sense data.
pub(crate) const SENSE_PLACE: usize = 16;

/// REQUEST SENSE without DESC.
fn is_request_sense(cdb: &[u8; 16]) -> bool
    ensures { result ≡ is_request_sense cdb.now }
{
    cdb[0] == 0x03 && cdb[1] % 2 == 0
}

impl KeptSense {
    /// Whether it answers the command of a CBW.
    fn is_for(&self, cbw: &Cbw) -> bool
        ensures { result ≡ is_for self.now cbw.now }
    {
        self.lun == cbw.lun && is_request_sense(&cbw.cdb)
    }

    /// The sense data.
    fn sense(&self) -> &[u8]
        ensures sense { result.now ≡ sense_of self.now }
        ensures most { list_length result.now ≤ 112 }
    {
        match self.text.get(SENSE_PLACE..) {
            Some(sense) => sense,
            None => &[],
        }
    }

    /// As many of them as a CBW allocates room for.
    fn sense_for(&self, cbw: &Cbw) -> &[u8]
        ensures sense { result.now ≡ sense_for self.now cbw.now }
        ensures most { list_length result.now ≤ 112 }
    {
        let sense = self.sense();
        &sense[..sense.len().min(usize::from(cbw.cdb[4]))]
    }
}

impl BulkCommand {
    /// That of a CBW, of whose data no byte has moved.
    fn of(cbw: &Cbw, done: Done, is_kept: bool) -> BulkCommand
        ensures { result ≡ command_of cbw.now done is_kept }
    {
        BulkCommand {
            tag: cbw.tag,
            length: cbw.length,
            is_in: cbw.is_in,
            lun: cbw.lun,
            left: cbw.length,
            done,
            is_kept,
        }
    }

    /// Whether bytes of it are still to go to the device.
    pub(crate) fn takes_bytes(self) -> bool
        ensures { result ≡ takes_bytes self }
    {
        !self.is_in && self.left != 0
    }

    /// Whether bytes of it are still to go to the host.
    pub(crate) fn gives_bytes(self) -> bool
        ensures { result ≡ gives_bytes self }
    {
        self.is_in && self.left != 0
    }

    /// So many bytes more moved.
    pub(crate) fn with_moved(self, count: u32) -> BulkCommand
        ensures { result ≡ with_moved self count }
    {
        BulkCommand {
            left: self.left.saturating_sub(count),
            ..self
        }
    }
}

/// The information unit of the command of a CBW.
fn unit_of(cbw: &Cbw) -> ArrayVec<u8, STATUS_BYTES>
    ensures { result.items ≡ unit_of cbw.now }
{
    let mut text = ArrayVec::new();
    let unit = Iu::Command {
        tag: BULK_TAG,
        lun: lun_bytes(cbw.lun),
        cdb: cleared_lun(cbw.cdb, cbw.lun),
    };
    write(&unit, &mut text);
    text
}

/// So many bytes were moved of a TRB of a CBW.
fn tally(progress: Progress, count: u32) -> Progress
    ensures { result ≡ tallied progress count }
{
    Progress {
        moved: progress.moved,
        ending: progress.ending,
        edtla: ((u64::from(progress.edtla) + u64::from(count)) % 16_777_216) as u32,
        begun: true,
        fed: progress.fed,
    }
}

impl Bulk {
    /// Gives sense data that were kept.
    #[tactic(auto, unfolding(crate::specs::Commands::kept_begun))]
    fn begin_kept<D: UasDevice>(&mut self, device: &mut D, kept: &KeptSense, cbw: &Cbw)
        ensures step { (ring : World) → record { ring = ring; bulk = self.new; device = D.state device.new }
            ≡ kept_begun D.kind (record { ring = ring; bulk = self.old; device = D.state device.old }) kept.now cbw.now }
    {
        let sense = kept.sense_for(cbw);
        let done = Done::In {
            given: sense.len() as u64,
        };
        self.chunk.hold(sense);
        self.drop_taken();
        self.kept = None;
        self.stage = BulkStage::Moves {
            command: BulkCommand::of(cbw, done, true),
        };
    }

    /// The device receives the command of a CBW.
    #[tactic(auto, unfolding(crate::specs::Commands::task_begun))]
    fn begin_task<D: UasDevice>(&mut self, device: &mut D, cbw: &Cbw)
        ensures step { (ring : World) → record { ring = ring; bulk = self.new; device = D.state device.new }
            ≡ task_begun D.kind (record { ring = ring; bulk = self.old; device = D.state device.old }) cbw.now }
    {
        let _ = device.receive(&unit_of(cbw));
        self.chunk.clear();
        self.drop_taken();
        self.kept = None;
        self.stage = BulkStage::Moves {
            command: BulkCommand::of(cbw, Done::Nothing, false),
        };
    }

    /// Gives sense data that were kept, where they answer the command of a CBW, and else begins that.
    fn begin_if<D: UasDevice>(&mut self, device: &mut D, fits: bool, kept: &KeptSense, cbw: &Cbw)
        ensures step { (ring : World) → record { ring = ring; bulk = self.new; device = D.state device.new }
            ≡ begun_if D.kind fits (record { ring = ring; bulk = self.old; device = D.state device.old }) kept.now cbw.now }
    {
        if fits {
            self.begin_kept(device, kept, cbw);
        } else {
            self.begin_task(device, cbw);
        }
    }

    /// Begins the command of a CBW, where these sense data were kept.
    fn begin_by<D: UasDevice>(&mut self, device: &mut D, kept: Option<KeptSense>, cbw: &Cbw)
        ensures step { (ring : World) → record { ring = ring; bulk = self.new; device = D.state device.new }
            ≡ begun_by D.kind kept (record { ring = ring; bulk = self.old; device = D.state device.old }) cbw.now }
    {
        match kept {
            Some(kept) => {
                let fits = kept.is_for(cbw);
                self.begin_if(device, fits, &kept, cbw);
            }
            None => self.begin_task(device, cbw),
        }
    }

    /// Begins the command of a CBW, which forgets sense data that are kept.
    fn begin<D: UasDevice>(&mut self, device: &mut D, cbw: &Cbw)
        ensures step { (ring : World) → record { ring = ring; bulk = self.new; device = D.state device.new }
            ≡ begun_by D.kind self.old.kept (record { ring = ring; bulk = record self.old { kept = None }; device = D.state device.old }) cbw.now }
    {
        let kept = self.kept.take();
        self.begin_by(device, kept, cbw);
    }

    /// Begins the command of a CBW, or halts both endpoints where it is none.
    fn take_cbw<D: UasDevice>(&mut self, device: &mut D, read: Result<Cbw, CbwFault>) -> Halting
        ensures step { (ring : World) → (record { ring = ring; bulk = self.new; device = D.state device.new }, result)
            ≡ cbw_taken D.kind read (record { ring = ring; bulk = self.old; device = D.state device.old }) }
    {
        match read {
            Ok(cbw) => {
                self.begin(device, &cbw);
                Halting::Nothing
            }
            Err(_) => {
                self.turn(BulkStage::Faulty);
                Halting::Both
            }
        }
    }

    /// Takes what was gathered as a CBW.
    fn receive<D: UasDevice>(&mut self, device: &mut D) -> Halting
        ensures step { (ring : World) → (record { ring = ring; bulk = self.new; device = D.state device.new }, result)
            ≡ cbw_taken D.kind (cbw_in self.old.taken) (record { ring = ring; bulk = self.old; device = D.state device.old }) }
    {
        let read = read_cbw(self.taken.bytes());
        self.take_cbw(device, read)
    }

    /// Takes what was gathered as a CBW, where its TD ends.
    pub(crate) fn receive_if<D: UasDevice>(&mut self, device: &mut D, last: bool) -> Halting
        ensures step { (ring : World) → (record { ring = ring; bulk = self.new; device = D.state device.new }, result)
            ≡ received_if D.kind last (record { ring = ring; bulk = self.old; device = D.state device.old }) }
    {
        if last {
            self.receive(device)
        } else {
            Halting::Nothing
        }
    }

    /// Ends the TD at a TRB whose buffer isn't there.
    #[tactic(auto, unfolding(crate::specs::Commands::cbw_lost))]
    fn lose_cbw<M: GuestMemory, D: UasDevice>(
        &mut self,
        memory: &mut M,
        events: &mut EventRing,
        consumer: &mut Consumer,
        device: &mut D,
        front: Front,
        buffer: Buffer,
    )
        requires room { has_place (M.contents memory.old) events.old ≡ true }
        requires home { has_home (M.contents memory.old) front.home ≡ true }
        ensures step { record { ring = record { memory = M.contents memory.new; events = events.new; consumer = consumer.new }; bulk = self.new; device = D.state device.new }
            ≡ cbw_lost D.kind (record { ring = record { memory = M.contents memory.old; events = events.old; consumer = consumer.old }; bulk = self.old; device = D.state device.old }) front buffer }
        ensures same_loan { M.loan memory.new ≡ M.loan memory.old }
    {
        consumer.fail(memory, events, front, buffer.length, buffer.flags);
        self.drop_taken();
    }

    /// Gathers so many bytes of a Normal TRB, and takes it.
    #[tactic(auto, unfolding(crate::specs::Commands::cbw_gathered))]
    fn gather_cbw<M: GuestMemory, D: UasDevice>(
        &mut self,
        memory: &mut M,
        events: &mut EventRing,
        consumer: &mut Consumer,
        device: &mut D,
        count: usize,
        front: Front,
        buffer: Buffer,
    ) -> Halting
        requires room { has_place (M.contents memory.old) events.old ≡ true }
        requires home { has_home (M.contents memory.old) front.home ≡ true }
        requires fits { list_length self.old.taken + count ≤ 4096 }
        requires within { count ≤ buffer.length }
        ensures step { (record { ring = record { memory = M.contents memory.new; events = events.new; consumer = consumer.new }; bulk = self.new; device = D.state device.new }, result)
            ≡ cbw_drawn D.kind (bytes_out (M.contents memory.old) buffer 0 count) (record { ring = record { memory = M.contents memory.old; events = events.old; consumer = consumer.old }; bulk = self.old; device = D.state device.old }) front buffer }
        ensures same_loan { M.loan memory.new ≡ M.loan memory.old }
    {
        match draw(memory, &mut self.taken, buffer, 0, count) {
            Ok(()) => {
                self.gathers = true;
                consumer.progress = tally(consumer.progress, buffer.length);
                consumer.fill(memory, events, front, buffer.flags);
                self.receive_if(device, !buffer.flags.chain)
            }
            Err(Outside) => {
                self.lose_cbw(memory, events, consumer, device, front, buffer);
                Halting::Nothing
            }
        }
    }

    /// Takes a Normal TRB of a CBW.
    #[tactic(auto, unfolding(crate::specs::Commands::cbw_ran))]
    pub(crate) fn run_cbw<M: GuestMemory, D: UasDevice>(
        &mut self,
        memory: &mut M,
        events: &mut EventRing,
        consumer: &mut Consumer,
        device: &mut D,
        front: Front,
        buffer: Buffer,
    ) -> Halting
        requires room { has_place (M.contents memory.old) events.old ≡ true }
        requires home { has_home (M.contents memory.old) front.home ≡ true }
        ensures step { (record { ring = record { memory = M.contents memory.new; events = events.new; consumer = consumer.new }; bulk = self.new; device = D.state device.new }, result)
            ≡ cbw_ran D.kind (record { ring = record { memory = M.contents memory.old; events = events.old; consumer = consumer.old }; bulk = self.old; device = D.state device.old }) front buffer }
        ensures same_loan { M.loan memory.new ≡ M.loan memory.old }
    {
        let count = (buffer.length as usize).min(MOST_GATHERED.saturating_sub(self.taken.held()));
        self.gather_cbw(memory, events, consumer, device, count, front, buffer)
    }
}
