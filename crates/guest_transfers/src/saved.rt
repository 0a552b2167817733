//! The pipes and tags as plain values, and as made of such.
ghost use Rattle.std.specs.Prelude.{◌≡◌, ◌≤◌, length, vec_len};

use crate::calls::Transfers;
use crate::slot::Slot;
use guest_pipes::{Consumer, Pipe};
use guest_tags::Gather;

/// What pipes and tags are made of.
#[derive(Debug, Drop)]
pub struct TransfersParts {
    pub command: Consumer,
    pub home: u64,
    pub gathered: Gather,
    pub status: Pipe,
    pub data_out: Pipe,
    pub data_in: Pipe,
    pub tags: Vec<Slot>,
}

impl Transfers {
    /// The address of the command pipe's dequeue pointer.
    pub fn home(&self) -> u64
        ensures { result ≡ self.now.home }
    {
        self.home
    }

    /// What the command pipe gathered.
    pub fn gathered(&self) -> &[u8]
        ensures gathered { result.now ≡ self.now.gathered }
        ensures most { length self.now.gathered ≤ 4096 }
    {
        let gathered = &self.gathered;
        let _ = gathered.held();
        gathered.bytes()
    }

    /// What is kept of each tag.
    pub fn tags(&self) -> &[Slot]
        ensures tags { result.now ≡ self.now.tags }
        ensures len { length self.now.tags ≡ 241 }
    {
        &self.tags
    }

    /// Pipes and tags made of these.
    pub fn restored(parts: TransfersParts) -> Transfers
        requires { vec_len parts.tags ≡ 241 }
        ensures { result ≡ record {
          command = parts.command;
          home = parts.home;
          gathered = parts.gathered;
          status = parts.status;
          data_out = parts.data_out;
          data_in = parts.data_in;
          tags = parts.tags.items;
        } }
    {
        Transfers {
            command: parts.command,
            home: parts.home,
            gathered: parts.gathered,
            status: parts.status,
            data_out: parts.data_out,
            data_in: parts.data_in,
            tags: parts.tags,
        }
    }
}
