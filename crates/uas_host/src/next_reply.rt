// How long the buffer is that the next reply brings.
ghost use Rattle.std.specs.Prelude.{◌≡◌, ◌<◌};
ghost use Rattle.scsi_cmd.specs.Held.{held_at};
ghost use Rattle.uas_profile.specs.declared.TheConstants.{MOST_TAGS};
ghost use Rattle.uas_host.specs.NextReply.{entry_len, next_len};
ghost use Rattle.uas_host.specs.State.{client_of};
ghost use Rattle.std.specs.Option.{option_map_or};

use crate::{Host, HostEntry};
use scsi_cmd::{Request, moves};

impl HostEntry {
    /// How many bytes its reply brings: a command's as many as its operation moves, a task management's none.
    fn brought_len(&self) -> usize
        ensures { result ≡ entry_len self.now }
    {
        match &self.request {
            Request::Execute(op) => moves(op).1,
            Request::Manage { .. } => 0,
        }
    }
}

/// How many bytes the reply of what is held brings.
fn held_len(held: &Option<HostEntry>) -> usize
    ensures { result ≡ option_map_or entry_len held.now 0 }
{
    match held {
        Some(entry) => entry.brought_len(),
        None => 0,
    }
}

impl Host {
    /// How many bytes the next reply of a client brings, the length of the vector that its command lent. 0 where no reply is
    /// ready, and where a task management's is next.
    pub fn next_len(&self, client: usize) -> usize
        ensures { result ≡ next_len self.now client }
    {
        match self.first_ready(client) {
            Some(slot) => held_len(&self.clients[client].entries[slot]),
            None => 0,
        }
    }
}
