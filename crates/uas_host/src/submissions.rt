// Submission of commands.
ghost use Rattle.std.specs.Prelude.{◌≡◌, ◌+◌, ◌++◌, ◌<◌, ◌≤◌, ◌^◌, MatchOption, None, Ok, Err};
ghost use Rattle.arrayvec.specs.ArrayVec.{array_vec_len};
ghost use Rattle.scsi_cmd.specs.Op.{direction_of};
ghost use Rattle.uas_profile.specs.Doors.{submission_doors};
ghost use Rattle.uas_host.specs.Retirement.{is_held};
ghost use Rattle.uas_host.specs.Submit.{HasRoomFor, host_fault, lent, submitted};
ghost use Rattle.uas_host.specs.Tds.{pushed};

use crate::Host;
use crate::hosts::Accepted;
use crate::tds::push_tds;
use crate::units::lend_command;
use arrayvec::ArrayVec;
use frame_store::Frames;
use scsi_cmd::{Command, SubmitFault};
use stream_array::Lines;
use uas_profile::STREAM_ENTRIES;

impl Host {
    /// Submits a client's command under one of its command tags. The first fault hands the command back, and
    /// nothing changes: `NotYours` where the tag is no command tag of the client, `InUse` where a command is
    /// under it, `BadLength` where the buffer hasn't the bytes that the operation moves, `TooLong` above 128
    /// blocks, `OutOfTurn` where the ticket is below the least one. The doorbell of a held pipe is left out. Asks a
    /// ticket below `2^60`, room for three doorbells, and where there is no fault room on the three rings and no
    /// vector lent under the tag.
    pub fn submit(
        &mut self,
        lines: &mut Lines,
        frames: &mut Frames,
        doors: &mut ArrayVec<u32, STREAM_ENTRIES>,
        client: usize,
        tag: u16,
        ticket: u64,
        command: Command,
    ) -> Result<(), (SubmitFault, Command)>
        requires ticket { ticket < 2 ^ 60 }
        requires room { host_fault self.old client tag ticket command ≡ None → HasRoomFor lines.old frames.old tag command.op }
        requires doors { array_vec_len doors.old + 3 ≤ STREAM_ENTRIES }
        ensures { MatchOption (host_fault self.old client tag ticket command)
            ((result ≡ Ok (record {}))
            × (self.new ≡ submitted self.old client tag ticket command.op)
            × (lines.new ≡ pushed lines.old tag command.op)
            × (frames.new ≡ lent frames.old client tag command)
            × (doors.new.items ≡ doors.old.items ++ submission_doors (is_held self.old) (direction_of command.op) tag))
            (λ fault. (result ≡ Err (fault, command))
            × (self.new ≡ self.old) × (lines.new ≡ lines.old) × (frames.new ≡ frames.old) × (doors.new ≡ doors.old)) }
    {
        let Accepted {
            slot,
            direction,
            bytes,
        } = match self.accept(client, tag, ticket, &command) {
            Ok(accepted) => accepted,
            Err(fault) => return Err((fault, command)),
        };
        let Command { op, buffer } = command;
        lend_command(frames, client as u8, tag, &op, buffer);
        push_tds(lines, tag, direction, bytes);
        self.ring(doors, direction, tag);
        self.note(client, slot, ticket, op, bytes);
        Ok(())
    }
}
