//! What a command on the slot makes of the endpoints.
ghost use Rattle.std.specs.Prelude.{◌≡◌};
ghost use Rattle.xhci_machine.specs.Ring.{array_of, changed, command_changed, control_changed, endpoint_id, pipe_changed};

use crate::Machine;
use crate::ring::pointer_home;
use guest_transfers::StreamPipe;
use xhci_slots::{Change, Changes};

/// An endpoint's ID (4.5.1).
pub(crate) fn endpoint_id(name: StreamPipe) -> u8
    ensures { result ≡ endpoint_id name }
{
    match name {
        StreamPipe::Status => 3,
        StreamPipe::DataOut => 4,
        StreamPipe::DataIn => 5,
    }
}

impl Machine {
    /// The endpoints as a command on the slot left them; their contexts have their states already.
    #[tactic(auto, unfolding(crate::specs::Ring::changed))]
    pub(crate) fn change(&mut self, changes: &Changes)
        ensures { self.new ≡ changed self.old changes.now }
    {
        self.change_control(changes.control);
        self.change_command(changes.command);
        self.change_pipe(StreamPipe::Status, changes.status);
        self.change_pipe(StreamPipe::DataOut, changes.data_out);
        self.change_pipe(StreamPipe::DataIn, changes.data_in);
        self.told = self.states();
    }

    #[tactic(auto, unfolding(crate::specs::Ring::control_changed))]
    fn change_control(&mut self, change: Change)
        ensures { self.new ≡ control_changed self.old change }
    {
        match change {
            Change::Kept => (),
            Change::Disabled => self.control.disable(),
            Change::Set { .. } => {
                let home = pointer_home(self.slot.context, 1);
                self.control.configure(home);
            }
        }
    }

    #[tactic(auto, unfolding(crate::specs::Ring::command_changed))]
    fn change_command(&mut self, change: Change)
        ensures { self.new ≡ command_changed self.old change }
    {
        match change {
            Change::Kept => (),
            Change::Disabled => self.transfers.disable_command(),
            Change::Set { .. } => {
                let home = pointer_home(self.slot.context, 2);
                self.transfers.configure_command(home);
            }
        }
    }

    /// Where the stream contexts of a pipe are; of one without streams where the dequeue pointer of its one ring is (6.2.3).
    fn array_of(&self, name: StreamPipe, pointer: u64, entries: u32) -> u64
        ensures { result ≡ array_of self.now name pointer entries }
    {
        if entries == 0 {
            pointer_home(self.slot.context, endpoint_id(name))
        } else {
            pointer
        }
    }

    #[tactic(auto, unfolding(crate::specs::Ring::pipe_changed))]
    fn change_pipe(&mut self, name: StreamPipe, change: Change)
        ensures { self.new ≡ pipe_changed self.old name change }
    {
        match change {
            Change::Kept => (),
            Change::Disabled => self.transfers.disable(name),
            Change::Set { pointer, entries } => {
                let array = self.array_of(name, pointer, entries);
                self.transfers
                    .configure(name, array, entries.min(256) as u16);
                self.forget_bulk(name);
            }
        }
    }
}
