//! Tags and tickets of one client.
//!
//! In INCITS 471 (UAS) a command or a task management request carries a tag, which no other request that is outstanding may
//! have, and which is the stream identifier of its data and its status. Here each client has a number of tags of its own, 2 to
//! 16: with `PER` of them, client c has `PER * c + 1` to `PER * c + PER - 1` for commands and `PER * c + PER` for task management.
//! Clients share no count and no tag, so a client is refused by what it has out itself and never by what another has out.
//!
//! A [`ClientRange`] is given that number when it is made. A [`TagRange`] is a `ClientRange` whose number is a part of its type.
//!
//! ```text
//! PER = 16   client 0              client 1                     client 14
//!            1 2 3 .. 15 | 16      17 18 .. 31 | 32      ..     225 226 .. 239 | 240
//!            commands    | task    commands    | task           commands       | task
//! ```
//!
//! A request also gets a ticket, a whole number below `2^60`. One counter from 0 upwards serves both kinds of request, so that a
//! ticket names one request of the client for good, while its tag is used again. A refusal uses up no ticket.
//!
//! What is promised: each call is the function of that name in `specs/Tags.antt`, on a value that holds the client, the next
//! ticket, for each command tag whether it is out, and whether the task management tag is. A command gets the least free tag. The
//! refusals hold exactly where they are named. No call takes memory, and none searches: the command tags that are out are the
//! bits of one word. The crate stands on std and `thiserror` alone.
#![tactic(auto)]

ghost use Rattle.std.specs.Prelude.{◌≡◌, ◌≢◌, ℕ, ◌+◌, ◌-◌, ◌*◌, ◌<◌, ◌≤◌, ◌^◌, ◌↔◌, IsTrue, Result, Ok, Err, IfOk, IfErr, OnOk, OnErr};
ghost use Rattle.std.specs.Prelude.{true, count_by};
ghost use Rattle.tag_range.specs.Tags.{tickets};
ghost use Rattle.tag_range.specs.declared.Refused.{Refused};
ghost use Rattle.tag_range.specs.declared.Refused.TheVariants.{NoTag, TaskBusy, Worn};
ghost use Rattle.uas_profile.specs.declared.TheConstants.{MAX_CLIENTS};

mod client_range;

pub use client_range::ClientRange;
use std::marker::Model;
use thiserror::Error;

/// A tag: the name of an outstanding request, and the identifier of its streams.
pub type Tag = u16;

/// A ticket: the number of a request among all those of its client.
pub type Ticket = u64;

/// How many tickets a client has, from 0 on.
pub const TICKETS: Ticket = 1 << 60;

const _: () = prove!(TICKETS == 1_152_921_504_606_846_976);

/// Why no tag was issued. Each call answers the first that holds, in this order.
#[derive(Clone, Copy, Debug, Drop, Error, PartialEq, Eq)]
pub enum Refused {
    #[error("every command tag of the client is out")]
    NoTag = 1,
    #[error("the client's task management tag is out")]
    TaskBusy,
    #[error("the client's last ticket was given out")]
    Worn,
}

/// The tags and the tickets of one client that has `PER` tags, the last of them for task management: a [`ClientRange`] of that number.
#[derive(Debug, Drop)]
pub struct TagRange<const PER: usize> {
    range: ClientRange,
}

impl<const PER: usize> Model for TagRange<PER> {
    ghost use Rattle.std.specs.Prelude.{◌≡◌};
    ghost use Rattle.tag_range.specs.Tags.{ClientTags};

    ghost Value = { ClientTags };

    ghost view = { λ r. r.range.held };

    ghost invariant = { λ r. r.range.tags ≡ PER };
}

impl<const PER: usize> TagRange<PER> {
    ghost use Rattle.tag_range.specs.Tags.{ClientTags, opening, issue, issue_task, free, is_issued, outstanding, commands_out, tickets, task_tag, IsLeastFree};

    /// The range of a client below 31 (`MAX_CLIENTS`), with no tag out. `PER`, from 2 to 16, counts its tags.
    pub fn new(client: u8) -> Self
        requires least_tags { 2 ≤ PER }
        requires most_tags { PER ≤ 16 }
        requires client_known { client < MAX_CLIENTS }
        ensures { result ≡ opening PER client }
    {
        TagRange {
            range: ClientRange::new(PER, client),
        }
    }

    /// Gives the least free command tag and the next ticket, or refuses: `NoTag` where no command tag is free, else `Worn`.
    pub fn issue(&mut self) -> Result<(Tag, Ticket), Refused>
        ensures step { (self.new, result) ≡ issue PER self.old }
        ensures no_tag { (result ≡ Err NoTag) ↔ (commands_out self.old ≡ PER - 1) }
        ensures worn { (result ≡ Err Worn) ↔ ((commands_out self.old ≢ PER - 1) × (self.old.next ≡ tickets)) }
        ensures least_tag { IfOk result (λ given. IsLeastFree PER self.old given.0) }
        ensures ticket { IfOk result (λ given. (given.1 ≡ self.old.next) × (given.1 < tickets)) }
        ensures rising { OnOk result (self.new.next ≡ self.old.next + 1) }
        ensures refused { OnErr result (self.new ≡ self.old) }
    {
        self.range.issue()
    }

    /// Gives the task management tag and the next ticket, or refuses: `TaskBusy` where that tag is out, else `Worn`.
    pub fn issue_task(&mut self) -> Result<(Tag, Ticket), Refused>
        ensures step { (self.new, result) ≡ issue_task PER self.old }
        ensures busy { (result ≡ Err TaskBusy) ↔ IsTrue self.old.task_out }
        ensures worn { (result ≡ Err Worn) ↔ ((self.old.task_out ≢ true) × (self.old.next ≡ tickets)) }
        ensures task_tag { IfOk result (λ given. given.0 ≡ task_tag PER self.old.client) }
        ensures ticket { IfOk result (λ given. (given.1 ≡ self.old.next) × (given.1 < tickets)) }
        ensures rising { OnOk result (self.new.next ≡ self.old.next + 1) }
        ensures refused { OnErr result (self.new ≡ self.old) }
    {
        self.range.issue_task()
    }

    /// Takes back an issued tag, of either kind.
    pub fn free(&mut self, tag: Tag)
        requires { IsTrue (is_issued PER self.old tag) }
        ensures { self.new ≡ free PER self.old tag }
    {
        self.range.free(tag)
    }

    /// Whether a tag is one of this client's that is out, so that `free` takes it back.
    pub fn is_issued(&self, tag: Tag) -> bool
        ensures { result ≡ is_issued PER self.now tag }
    {
        self.range.is_issued(tag)
    }

    /// How many tags are out, of commands and of task management together.
    pub fn outstanding(&self) -> usize
        ensures { result ≡ outstanding self.now }
    {
        self.range.outstanding()
    }
}
