// Retirement of left-over TDs (xHCI 4.6.9 and 4.6.10).
ghost use Rattle.std.specs.Prelude.{◌≡◌, ◌+◌, ◌++◌, ◌<◌, ◌≤◌, [], ◌∷◌, MatchOption, IfSome, IsSome, None, Some, true, false, length};
ghost use Rattle.arrayvec.specs.ArrayVec.{array_vec_len};
ghost use Rattle.xhci_trb.specs.Text.{HasText};
ghost use Rattle.xhci_trb.specs.declared.Trb.{Trb};
ghost use Rattle.cycle_ring.specs.Ring.{IsCommand};
ghost use Rattle.uas_profile.specs.Pipes.{HasStreams};
ghost use Rattle.stream_array.specs.Map.{HasRing};
ghost use Rattle.uas_host.specs.Retirement.{emptied, move_trb, retirement_for, stop_trb, with_engine_command, with_retirement, HasEngineRoom};
ghost use Rattle.uas_host.specs.State.{IsRetirement};

use crate::{Host, Retirement, RetirementStage};
use arrayvec::ArrayVec;
use stream_array::laws::one_ring_is_changed;
use stream_array::{Lines, Pipe, doorbell};
use uas_profile::{SLOT, STREAM_ENTRIES};
use xhci_trb::Trb;

/// Puts a command on the controller's command ring. Asks room for it.
pub(crate) fn push_engine(lines: &mut Lines, command: Trb)
    requires command { IsCommand command }
    requires text { HasText command }
    requires room { HasEngineRoom lines.old }
    ensures { lines.new ≡ with_engine_command lines.old command }
{
    lines.push_td_engine(&[command]).unwrap();
}

/// Stop Endpoint of a pipe's endpoint.
fn stop(pipe: Pipe) -> Trb
    ensures trb { result ≡ stop_trb pipe }
    ensures command { IsCommand result }
    ensures text { HasText result }
{
    Trb::StopEndpoint {
        endpoint: pipe.target(),
        slot: SLOT,
    }
}

/// Set TR Dequeue Pointer to the enqueue place of a stream's ring.
pub(crate) fn move_to_enqueue(lines: &Lines, pipe: Pipe, tag: u16) -> Trb
    requires { HasRing pipe tag }
    ensures trb { result ≡ move_trb lines.now pipe tag }
    ensures command { IsCommand result }
    ensures text { HasText result }
{
    let (pointer, cycle) = lines.place(pipe, tag);
    Trb::SetDequeue {
        pointer,
        cycle,
        stream: tag,
        endpoint: pipe.target(),
        slot: SLOT,
    }
}

/// Frees all consumed TRBs of a ring, up to the first foreign bytes.
pub(crate) fn empty(lines: &mut Lines, pipe: Pipe, tag: u16)
    requires ring { HasRing pipe tag }
    requires streams { HasStreams pipe }
    ensures { lines.new ≡ emptied lines.old pipe tag }
{
    one_ring_is_changed();
    while let Some((pointer, _)) = lines.oldest(pipe, tag) {
        lines.reclaim(pipe, tag, pointer);
    }
}

impl Host {
    /// The retirement of a left-over TD that may begin.
    fn retirement_for(&self, pipe: Pipe, tag: u16) -> Option<Retirement>
        ensures retirement { result ≡ retirement_for self.now pipe tag }
        ensures known { IfSome result (IsRetirement self.now.tags (length self.now.clients)) }
    {
        if self.retirement.is_some() || !self.is_left_over(pipe, tag) {
            return None;
        }
        let place = self.place_of(tag)?;
        Some(Retirement {
            pipe,
            place,
            stage: RetirementStage::Stopping,
        })
    }

    /// Begins the retirement of a left-over TD: Stop Endpoint goes to the controller, and the pipe is held. True
    /// exactly where no retirement is under way and the tag's TD on that pipe is left over; false, and nothing
    /// changes, where not. Asks room for one doorbell, and where it begins room on the controller's command ring.
    pub fn retire(
        &mut self,
        lines: &mut Lines,
        doors: &mut ArrayVec<u32, STREAM_ENTRIES>,
        pipe: Pipe,
        tag: u16,
    ) -> bool
        requires room { IsSome (retirement_for self.old pipe tag) → HasEngineRoom lines.old }
        requires doors { array_vec_len doors.old + 1 ≤ STREAM_ENTRIES }
        ensures { MatchOption (retirement_for self.old pipe tag)
            ((result ≡ false) × (self.new ≡ self.old) × (lines.new ≡ lines.old) × (doors.new ≡ doors.old))
            (λ retirement. (result ≡ true)
            × (self.new ≡ with_retirement self.old retirement)
            × (lines.new ≡ with_engine_command lines.old (stop_trb pipe))
            × (doors.new.items ≡ doors.old.items ++ 0 ∷ [])) }
    {
        let Some(retirement) = self.retirement_for(pipe, tag) else {
            return false;
        };
        push_engine(lines, stop(pipe));
        doors.push(doorbell(0, 0));
        self.retirement = Some(retirement);
        true
    }
}
