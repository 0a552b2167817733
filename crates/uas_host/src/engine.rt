// Events of the controller's command ring: the steps of a retirement (xHCI 4.6.9 and 4.6.10).
ghost use Rattle.std.specs.Prelude.{◌≡◌, ◌+◌, ◌-◌, ◌++◌, [], ◌∷◌, ◌<◌, ◌≤◌, IsSome, IfSome, Some, length, true};
ghost use Rattle.uas_profile.specs.declared.TheConstants.{STREAMS, ENGINE_RING_PLACES};
ghost use Rattle.arrayvec.specs.ArrayVec.{array_vec_len};
ghost use Rattle.cycle_ring.specs.Items.{known_consumed_at};
ghost use Rattle.uas_host.specs.Events.{engine_doors, handled_engine, handled_stage, is_engine_done, stage_doors, Sides};
ghost use Rattle.uas_host.specs.Retirement.{engine_freed, moved_lines, retired_host, stopped_lines, with_retirement};
ghost use Rattle.uas_host.specs.State.{IsRetirement};

use crate::doors::resume;
use crate::retirements::{empty, move_to_enqueue, push_engine};
use crate::seen::Sight;
use crate::{Handled, Host, Retirement, RetirementStage};
use arrayvec::ArrayVec;
use cycle_ring::laws::addresses_name_items;
use stream_array::{Lines, doorbell};
use uas_profile::{STREAM_ENTRIES, SUCCESS};

/// Whether the engine's command at an address is done.
fn is_done(lines: &Lines, pointer: u64, code: u8) -> bool
    ensures { result ≡ is_engine_done lines.now pointer code }
{
    lines.consumed_engine(pointer).is_some() && code == SUCCESS
}

/// Frees the engine's commands up to and with the one at an address.
fn free_engine(lines: &mut Lines, pointer: u64)
    requires { IsSome (known_consumed_at ENGINE_RING_PLACES lines.old.engine pointer) }
    ensures lines { lines.new ≡ engine_freed lines.old pointer }
    ensures room { length lines.new.engine.put + 1 ≤ ENGINE_RING_PLACES - 2 }
{
    addresses_name_items();
    let _ = lines.room_engine();
    lines.reclaim_engine(pointer);
}

impl Host {
    /// Stop Endpoint is done: Set TR Dequeue Pointer to the ring's enqueue place follows it.
    fn stopped(&mut self, lines: &mut Lines, pointer: u64, retirement: Retirement)
        requires retirement { IsRetirement self.old.tags (length self.old.clients) retirement }
        requires consumed { IsSome (known_consumed_at ENGINE_RING_PLACES lines.old.engine pointer) }
        ensures host { self.new ≡ with_retirement self.old (record retirement { stage = RetirementStage.Moving }) }
        ensures lines { lines.new ≡ stopped_lines self.old.tags lines.old pointer retirement }
    {
        let Retirement { pipe, place, .. } = retirement;
        let tag = self.tag_of(place.client, place.slot);
        let command = move_to_enqueue(lines, pipe, tag);
        free_engine(lines, pointer);
        push_engine(lines, command);
        self.retirement = Some(Retirement {
            pipe,
            place,
            stage: RetirementStage::Moving,
        });
    }

    /// Set TR Dequeue Pointer is done: the TD is retired, and the pipe is held no more.
    fn moved(&mut self, lines: &mut Lines, pointer: u64, retirement: Retirement)
        requires retirement { IsRetirement self.old.tags (length self.old.clients) retirement }
        requires consumed { IsSome (known_consumed_at ENGINE_RING_PLACES lines.old.engine pointer) }
        ensures host { self.new ≡ retired_host self.old retirement }
        ensures lines { lines.new ≡ moved_lines self.old.tags lines.old pointer retirement }
    {
        let Retirement { pipe, place, .. } = retirement;
        let tag = self.tag_of(place.client, place.slot);
        free_engine(lines, pointer);
        empty(lines, pipe, tag);
        let _ = self.see_at(place, Sight::TdRetired(pipe), &[]);
        self.retirement = None;
    }

    /// Takes in a completion of the controller's command ring, with this pointer and this code, whatever its slot, which is not
    /// read. As [`Host::on_event`] does.
    #[inline(never)]
    pub fn on_completion(
        &mut self,
        lines: &mut Lines,
        doors: &mut ArrayVec<u32, STREAM_ENTRIES>,
        pointer: u64,
        code: u8,
    ) -> Handled
        requires { array_vec_len doors.old + STREAMS ≤ STREAM_ENTRIES }
        ensures handled { let done = is_engine_done lines.old pointer code in
            handled_engine (record { host = self.old; lines = lines.old }) pointer done self.old.retirement ≡
            (record { host = self.new; lines = lines.new }, result) }
        ensures doors { doors.new.items ≡ doors.old.items ++ engine_doors self.old.tags lines.old pointer (is_engine_done lines.old pointer code) self.old.retirement }
    {
        if !is_done(lines, pointer, code) {
            return Handled::Stray;
        }
        let Some(retirement) = self.retirement else {
            return Handled::Stray;
        };
        match retirement.stage {
            RetirementStage::Stopping => {
                self.stopped(lines, pointer, retirement);
                doors.push(doorbell(0, 0));
            }
            RetirementStage::Moving => {
                self.moved(lines, pointer, retirement);
                resume(lines, doors, retirement.pipe);
            }
        }
        Handled::Engine
    }
}
