// Events.
ghost use Rattle.std.specs.Prelude.{◌≡◌, ◌≢◌, ◌↔◌, ◌+◌, ◌-◌, ◌++◌, ◌≤◌, List, IfSome, ℕ, drop, length, option_map, take};
ghost use Rattle.uas_profile.specs.declared.TheConstants.{STREAMS};
ghost use Rattle.arrayvec.specs.ArrayVec.{array_vec_len};
ghost use Rattle.frame_store.specs.Buffers.{held_for};
ghost use Rattle.uas_host.specs.Events.{ended_at, event_doors, handled, handled_td, succeeded, told_on, IsEndedIn, Sides};
ghost use Rattle.uas_host.specs.Awaited.{IsOfEngine, IsOfNothing, IsOfTd};
ghost use Rattle.uas_host.specs.LeftBy.{LeavesOverByNote};
ghost use Rattle.uas_host.specs.Sights.{notice_by};

use crate::ended::{EventPlace, command_td_at, stream_td_at};
use crate::seen::Sight;
use crate::units::read_answer;
use crate::{EndedTd, Handled, Host};
use arrayvec::ArrayVec;
use event_ring::Event;
use frame_store::Frames;
use stream_array::{Lines, Pipe, find};
use uas_iu::SENSE_HEADER_BYTES;
use uas_profile::{SHORT_PACKET, STATUS_BYTES, STREAM_ENTRIES, SUCCESS};

/// What an event of a command or data TD tells.
#[inline(always)]
fn where_success(code: u8, sight: Sight) -> Option<Sight>
    ensures { (sense : List ℕ) → option_map (notice_by sense) result ≡ succeeded code (notice_by sense sight) }
{
    if code == SUCCESS { Some(sight) } else { None }
}

/// What was written of the status buffer of a tag.
#[inline(always)]
fn status_unit(frames: &Frames, residual: u32, tag: u16) -> &[u8]
    requires first_tag { 1 ≤ tag }
    requires last_tag { tag ≤ STREAMS }
    ensures unit { result.now ≡ take (STATUS_BYTES - residual) (held_for frames.now tag).status }
    ensures most { length result.now ≤ STATUS_BYTES }
{
    let written = STATUS_BYTES.saturating_sub(residual as usize);
    &frames.status(tag)[..written]
}

/// The sense of a Sense unit: what comes after its first 16 bytes.
#[inline(always)]
fn sense_of(unit: &[u8]) -> &[u8]
    ensures { result.now ≡ drop 16 unit.now }
{
    unit.get(SENSE_HEADER_BYTES..).unwrap_or(&[])
}

/// What an event of a TD tells, whose status unit is `unit`.
#[inline(always)]
fn sight_in(unit: &[u8], code: u8, td: EndedTd) -> Option<Sight>
    ensures { option_map (notice_by (drop 16 unit.now)) result ≡ told_on td.pipe unit.now code td.tag }
{
    match td.pipe {
        Pipe::Command => where_success(code, Sight::CommandSeen),
        Pipe::Status if code == SHORT_PACKET => read_answer(td.tag, unit),
        Pipe::Status => None,
        Pipe::DataIn => where_success(code, Sight::DataInSeen),
        Pipe::DataOut => where_success(code, Sight::DataOutSeen),
    }
}

impl Host {
    /// Takes in a transfer event whose pointer is there, with this residual and this code; `td` is the TD that it is of.
    #[inline(always)]
    fn on_td(
        &mut self,
        lines: &mut Lines,
        frames: &Frames,
        td: Option<EndedTd>,
        at: EventPlace,
        residual: u32,
        code: u8,
    ) -> Handled
        requires { IfSome td (IsEndedIn lines.old at.pointer at.place) }
        ensures { handled_td (record { host = self.old; lines = lines.old }) frames.now at.pointer residual code td ≡
            (record { host = self.new; lines = lines.new }, result) }
    {
        let Some(td) = td else {
            return Handled::Stray;
        };
        let unit = status_unit(frames, residual, td.tag);
        let Some(sight) = sight_in(unit, code, td) else {
            return Handled::Stray;
        };
        if !self.see(td.tag, sight, sense_of(unit)) {
            return Handled::Stray;
        }
        self.free(lines, at, td);
        Handled::Matched(td.tag)
    }

    /// Takes in a transfer event, by the pipe whose ring its pointer is of.
    #[inline(always)]
    fn on_pipe(
        &mut self,
        lines: &mut Lines,
        frames: &Frames,
        pointer: u64,
        residual: u32,
        code: u8,
    ) -> Handled
        ensures { handled_td (record { host = self.old; lines = lines.old }) frames.now pointer residual code (ended_at lines.old pointer) ≡
            (record { host = self.new; lines = lines.new }, result) }
    {
        let Some((pipe, stream, place)) = find(pointer) else {
            return Handled::Stray;
        };
        let at = EventPlace { pointer, place };
        // What is inlined in an arm knows its pipe and asks for it no more.
        match pipe {
            Pipe::Command => {
                let td = command_td_at(lines, at);
                self.on_td(lines, frames, td, at, residual, code)
            }
            Pipe::Status => {
                let td = stream_td_at(lines, Pipe::Status, stream, at);
                self.on_td(lines, frames, td, at, residual, code)
            }
            Pipe::DataIn => {
                let td = stream_td_at(lines, Pipe::DataIn, stream, at);
                self.on_td(lines, frames, td, at, residual, code)
            }
            Pipe::DataOut => {
                let td = stream_td_at(lines, Pipe::DataOut, stream, at);
                self.on_td(lines, frames, td, at, residual, code)
            }
        }
    }

    /// Takes in a transfer event with this pointer, this residual and this code, whatever its endpoint and its slot, which are
    /// not read. As [`Host::on_event`] does, but it rings nothing, as no transfer event does: it is `Matched` or `Stray`.
    #[inline(always)]
    pub fn on_transfer(
        &mut self,
        lines: &mut Lines,
        frames: &Frames,
        pointer: u64,
        residual: u32,
        code: u8,
    ) -> Handled
        // What `handled` says of a transfer event, whose endpoint and slot it leaves out.
        ensures handled { handled_td (record { host = self.old; lines = lines.old }) frames.now pointer residual code (ended_at lines.old pointer) ≡
            (record { host = self.new; lines = lines.new }, result) }
        ensures matched { (endpoint slot tag : ℕ) → (result ≡ Handled.Matched tag)
            ↔ IsOfTd (record { host = self.old; lines = lines.old }) frames.now (Event.Transfer pointer residual code endpoint slot) tag }
        ensures no_engine { result ≢ Handled.Engine }
        ensures stray { (endpoint slot : ℕ) → (result ≡ Handled.Stray)
            ↔ IsOfNothing (record { host = self.old; lines = lines.old }) frames.now (Event.Transfer pointer residual code endpoint slot) }
        ensures unchanged { result ≡ Handled.Stray → (self.new ≡ self.old) × (lines.new ≡ lines.old) }
        ensures left_over { (endpoint slot : ℕ) →
            LeavesOverByNote (record { host = self.old; lines = lines.old }) frames.now (Event.Transfer pointer residual code endpoint slot) self.new }
    {
        self.on_pipe(lines, frames, pointer, residual, code)
    }

    /// Takes in an event, by its kind.
    #[inline(always)]
    fn handle(
        &mut self,
        lines: &mut Lines,
        frames: &Frames,
        doors: &mut ArrayVec<u32, STREAM_ENTRIES>,
        event: Event,
    ) -> Handled
        requires { array_vec_len doors.old + STREAMS ≤ STREAM_ENTRIES }
        ensures handled { handled (record { host = self.old; lines = lines.old }) frames.now event ≡ (record { host = self.new; lines = lines.new }, result) }
        ensures doors { doors.new.items ≡ doors.old.items ++ event_doors (record { host = self.old; lines = lines.old }) event }
    {
        match event {
            Event::Transfer {
                pointer,
                residual,
                code,
                ..
            } => self.on_transfer(lines, frames, pointer, residual, code),
            Event::Command { pointer, code, .. } => self.on_completion(lines, doors, pointer, code),
        }
    }

    /// Takes in an event, any event. It is `Matched` where it is a transfer event whose pointer is that of the
    /// last TRB of a consumed TD that still waits, with code Success (Short Packet for a status), and for a status
    /// where the bytes of the status buffer less the residual are a Sense unit of that tag, for a task
    /// management a Response unit. Its TD is seen then, its TRBs are free again, and a command that is ready now
    /// is the last of the ready ones; the response COMPLETE leaves over the TDs of each noted command whose
    /// status wasn't seen. It is `Engine` where a retirement is under way and it is a completion of code Success whose
    /// pointer is that of the consumed command under way: the retirement goes on, or the TD is retired, its TRBs
    /// are free again, and each stream of the pipe with a pending TRB is rung. Any other event is `Stray`, and
    /// nothing changes. Asks room for a doorbell of each stream.
    pub fn on_event(
        &mut self,
        lines: &mut Lines,
        frames: &Frames,
        doors: &mut ArrayVec<u32, STREAM_ENTRIES>,
        event: Event,
    ) -> Handled
        requires { array_vec_len doors.old + STREAMS ≤ STREAM_ENTRIES }
        ensures handled { handled (record { host = self.old; lines = lines.old }) frames.now event ≡ (record { host = self.new; lines = lines.new }, result) }
        ensures doors { doors.new.items ≡ doors.old.items ++ event_doors (record { host = self.old; lines = lines.old }) event }
        // It is matched exactly where it is of a TD of that tag that the host waits for, and Engine exactly where it is of the engine
        // command under way (specs/Awaited).
        ensures matched { (tag : ℕ) → (result ≡ Handled.Matched tag) ↔ IsOfTd (record { host = self.old; lines = lines.old }) frames.now event tag }
        ensures engine { (result ≡ Handled.Engine) ↔ IsOfEngine (record { host = self.old; lines = lines.old }) event }
        // It is stray exactly where it is of neither, and changes nothing then.
        ensures stray { (result ≡ Handled.Stray) ↔ IsOfNothing (record { host = self.old; lines = lines.old }) frames.now event }
        ensures unchanged { result ≡ Handled.Stray → (self.new ≡ self.old) × (lines.new ≡ lines.old) × (doors.new.items ≡ doors.old.items) }
        // A TD is left over by it only where it is the CHECK CONDITION of its own command, or the COMPLETE of an abort or a reset that
        // noted its ticket (specs/LeftBy).
        ensures left_over { LeavesOverByNote (record { host = self.old; lines = lines.old }) frames.now event self.new }
    {
        self.handle(lines, frames, doors, event)
    }
}
