// Doorbells: those of a submission, and those of the streams of a pipe that is held no more.
ghost use Rattle.std.specs.Prelude.{◌≡◌, ◌+◌, ◌++◌, ◌≤◌};
ghost use Rattle.arrayvec.specs.ArrayVec.{array_vec_len};
ghost use Rattle.uas_profile.specs.Pipes.{HasStreams};
ghost use Rattle.uas_profile.specs.declared.TheConstants.{STREAMS};
ghost use Rattle.uas_profile.specs.Doors.{answer_doors, data_doors, door_unless, submission_doors};
ghost use Rattle.uas_host.specs.Retirement.{is_held, resumed_doors};

use crate::Host;
use arrayvec::ArrayVec;
use scsi_cmd::Direction;
use stream_array::{Lines, Pipe, doorbell};
use uas_profile::STREAM_ENTRIES;

impl Host {
    /// Whether a retirement of this pipe is under way, so that no doorbell of it is rung.
    pub fn is_held(&self, pipe: Pipe) -> bool
        ensures { result ≡ is_held self.now pipe }
    {
        match self.retirement {
            Some(retirement) => retirement.pipe.number() == pipe.number(),
            None => false,
        }
    }

    /// Rings a stream of a pipe, unless the pipe is held.
    fn ring_stream(&self, doors: &mut ArrayVec<u32, STREAM_ENTRIES>, pipe: Pipe, tag: u16)
        requires { array_vec_len doors.old + 1 ≤ STREAM_ENTRIES }
        ensures doors { doors.new.items ≡ doors.old.items ++ door_unless (is_held self.now pipe) pipe tag }
        ensures len { array_vec_len doors.new ≤ array_vec_len doors.old + 1 }
    {
        if !self.is_held(pipe) {
            doors.push(doorbell(pipe.target(), tag));
        }
    }

    /// Rings the data stream of a submission that moves data this way.
    fn ring_data(&self, doors: &mut ArrayVec<u32, STREAM_ENTRIES>, direction: Direction, tag: u16)
        requires { array_vec_len doors.old + 1 ≤ STREAM_ENTRIES }
        ensures doors { doors.new.items ≡ doors.old.items ++ data_doors (is_held self.now) direction tag }
        ensures len { array_vec_len doors.new ≤ array_vec_len doors.old + 1 }
    {
        match direction {
            Direction::Nothing => {}
            Direction::ToHost => self.ring_stream(doors, Pipe::DataIn, tag),
            Direction::ToDevice => self.ring_stream(doors, Pipe::DataOut, tag),
        }
    }

    /// Rings the status stream of a tag and the command pipe.
    pub(crate) fn ring_answer(&self, doors: &mut ArrayVec<u32, STREAM_ENTRIES>, tag: u16)
        requires { array_vec_len doors.old + 2 ≤ STREAM_ENTRIES }
        ensures { doors.new.items ≡ doors.old.items ++ answer_doors (is_held self.now) tag }
    {
        self.ring_stream(doors, Pipe::Status, tag);
        doors.push(doorbell(Pipe::Command.target(), 0));
    }

    /// Rings the doorbells of a submission that moves data this way: data, status, command.
    pub(crate) fn ring(
        &self,
        doors: &mut ArrayVec<u32, STREAM_ENTRIES>,
        direction: Direction,
        tag: u16,
    )
        requires { array_vec_len doors.old + 3 ≤ STREAM_ENTRIES }
        ensures { doors.new.items ≡ doors.old.items ++ submission_doors (is_held self.now) direction tag }
    {
        self.ring_data(doors, direction, tag);
        self.ring_answer(doors, tag);
    }
}

/// Rings every stream of a pipe that has a pending TRB, by rising stream.
pub(crate) fn resume(lines: &mut Lines, doors: &mut ArrayVec<u32, STREAM_ENTRIES>, pipe: Pipe)
    requires streams { HasStreams pipe }
    requires doors { array_vec_len doors.old + STREAMS ≤ STREAM_ENTRIES }
    ensures lines { lines.new ≡ lines.old }
    ensures doors { doors.new.items ≡ doors.old.items ++ resumed_doors lines.old pipe }
{
    let mut from = 1;
    while let Some(stream) = lines.next_pending(pipe, from) {
        doors.push(doorbell(pipe.target(), stream));
        from = stream + 1;
    }
}
