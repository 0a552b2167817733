// Which TRBs are free again once an event was seen.
ghost use Rattle.std.specs.Prelude.{◌≡◌};
ghost use Rattle.uas_host.specs.Events.{awaits_command, commands_freed, freed_on, held_of, is_awaited, IsEndedIn};

use crate::ended::{EventPlace, command_tag_of};
use crate::{EndedTd, Host};
use stream_array::{Lines, Pipe};
use xhci_trb::Trb;

impl Host {
    /// Whether the host waits for the event of the command TD of this tag.
    fn waits_for_command(&self, tag: u16) -> bool
        ensures { result ≡ awaits_command self.now tag }
    {
        let Some(place) = self.place_of(tag) else {
            return false;
        };
        match &self.clients[place.client].entries[place.slot] {
            Some(entry) => entry.command_td.is_pending(),
            None => false,
        }
    }

    /// Whether the host waits for the event of this TRB of the command pipe.
    fn waits_for(&self, trb: &Trb) -> bool
        ensures { result ≡ is_awaited self.now trb.now }
    {
        match command_tag_of(trb) {
            Some(tag) => self.waits_for_command(tag),
            None => false,
        }
    }

    /// Frees the consumed TRBs of the command pipe before the first whose event the host waits for.
    fn free_commands(&self, lines: &mut Lines)
        ensures { lines.new ≡ commands_freed self.now lines.old }
    {
        while let Some((pointer, trb)) = lines.oldest(Pipe::Command, 0) {
            if self.waits_for(&trb) {
                break;
            }
            lines.reclaim(Pipe::Command, 0, pointer);
        }
    }

    /// Frees the TRBs of a TD whose event was seen: on a pipe with streams up to and with the event's.
    #[inline(always)]
    pub(crate) fn free(&self, lines: &mut Lines, at: EventPlace, td: EndedTd)
        requires { IsEndedIn lines.old at.pointer at.place td }
        ensures { lines.new ≡ freed_on td.pipe self.now lines.old td.tag at.pointer }
    {
        match td.pipe {
            Pipe::Command => self.free_commands(lines),
            Pipe::Status => lines.reclaim_in(Pipe::Status, td.tag, at.place),
            Pipe::DataIn => lines.reclaim_in(Pipe::DataIn, td.tag, at.place),
            Pipe::DataOut => lines.reclaim_in(Pipe::DataOut, td.tag, at.place),
        }
    }
}
