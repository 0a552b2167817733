//! The tags and tickets of one client, of a number of tags that is chosen when the range is made.

ghost use Rattle.std.specs.Prelude.{◌≡◌, ◌≢◌, ℕ, ◌+◌, ◌-◌, ◌*◌, ◌<◌, ◌≤◌, ◌^◌, ◌↔◌, IsTrue, Result, Ok, Err, IfOk, IfErr, OnOk, OnErr};
ghost use Rattle.std.specs.Prelude.{IsNone, IfSome, Option, None, Some, true, not, count_by, position};
ghost use Rattle.tag_range.specs.Tags.{flags, tickets};
ghost use Rattle.tag_range.specs.declared.Refused.{Refused};
ghost use Rattle.tag_range.specs.declared.Refused.TheVariants.{NoTag, TaskBusy, Worn};
ghost use Rattle.uas_profile.specs.Tags.{AreTags};
ghost use Rattle.uas_profile.specs.declared.TheConstants.{MAX_CLIENTS};

use crate::{Refused, TICKETS, Tag, Ticket};
use std::marker::Model;

/// The tags and the tickets of one client that has 2 to 16 tags, the last of them for task management.
#[derive(Debug, Drop)]
pub struct ClientRange {
    tags: usize,
    client: u8,
    next: Ticket,
    // Bit k is 1 where the command tag of index k + 1 is out.
    out: u16,
    task_out: bool,
}

impl Model for ClientRange {
    ghost use Rattle.std.specs.Prelude.{◌<◌, ◌≤◌, ◌-◌, ◌^◌};
    ghost use Rattle.tag_range.specs.Tags.{CountedTags, flags, tickets};
    ghost use Rattle.uas_profile.specs.Tags.{AreTags};
    ghost use Rattle.uas_profile.specs.declared.TheConstants.{MAX_CLIENTS};

    ghost Value = { CountedTags };

    ghost view = { λ r. record {
      tags = r.tags;
      held = record { client = r.client; next = r.next; out = flags (r.tags - 1) r.out; task_out = r.task_out };
    } };

    ghost invariant = { λ r. AreTags r.tags × (r.client < MAX_CLIENTS) × (r.next ≤ tickets) × (r.out < 2 ^ (r.tags - 1)) };
}

impl ClientRange {
    ghost use Rattle.tag_range.specs.Tags.{CountedTags, opening_counted, issue_counted, issue_task_counted, free_counted, is_issued_counted};
    ghost use Rattle.tag_range.specs.Tags.{outstanding, commands_out, tickets, task_tag, IsLeastFree};

    /// The range of a client below 31 (`MAX_CLIENTS`) that has so many tags, 2 to 16, with none of them out.
    pub fn new(tags: usize, client: u8) -> Self
        requires number { AreTags tags }
        requires client_known { client < MAX_CLIENTS }
        ensures { result ≡ opening_counted tags client }
    {
        ClientRange {
            tags,
            client,
            next: 0,
            out: 0,
            task_out: false,
        }
    }

    /// How many tags the client has, which never changes.
    pub fn tags(&self) -> usize
        ensures tags { result ≡ self.now.tags }
        ensures number { AreTags result }
    {
        self.tags
    }

    /// Gives the least free command tag and the next ticket, or refuses: `NoTag` where no command tag is free, else `Worn`.
    pub fn issue(&mut self) -> Result<(Tag, Ticket), Refused>
        ensures step { (self.new, result) ≡ issue_counted self.old }
        ensures no_tag { (result ≡ Err NoTag) ↔ (commands_out self.old.held ≡ self.old.tags - 1) }
        ensures worn { (result ≡ Err Worn) ↔ ((commands_out self.old.held ≢ self.old.tags - 1) × (self.old.held.next ≡ tickets)) }
        ensures least_tag { IfOk result (λ given. IsLeastFree self.old.tags self.old.held given.0) }
        ensures ticket { IfOk result (λ given. (given.1 ≡ self.old.held.next) × (given.1 < tickets)) }
        ensures rising { OnOk result (self.new.held.next ≡ self.old.held.next + 1) }
        ensures refused { OnErr result (self.new ≡ self.old) }
    {
        let Some(entry) = least_clear(self.out, self.tags - 1) else {
            return Err(Refused::NoTag);
        };
        let ticket = next_ticket(&mut self.next)?;
        self.out |= 1 << entry;
        Ok((tag_at(self.tags, self.client, entry + 1), ticket))
    }

    /// Gives the task management tag and the next ticket, or refuses: `TaskBusy` where that tag is out, else `Worn`.
    pub fn issue_task(&mut self) -> Result<(Tag, Ticket), Refused>
        ensures step { (self.new, result) ≡ issue_task_counted self.old }
        ensures busy { (result ≡ Err TaskBusy) ↔ IsTrue self.old.held.task_out }
        ensures worn { (result ≡ Err Worn) ↔ ((self.old.held.task_out ≢ true) × (self.old.held.next ≡ tickets)) }
        ensures task_tag { IfOk result (λ given. given.0 ≡ task_tag self.old.tags self.old.held.client) }
        ensures ticket { IfOk result (λ given. (given.1 ≡ self.old.held.next) × (given.1 < tickets)) }
        ensures rising { OnOk result (self.new.held.next ≡ self.old.held.next + 1) }
        ensures refused { OnErr result (self.new ≡ self.old) }
    {
        if self.task_out {
            return Err(Refused::TaskBusy);
        }
        let ticket = next_ticket(&mut self.next)?;
        self.task_out = true;
        Ok((tag_at(self.tags, self.client, self.tags), ticket))
    }

    /// Takes back an issued tag, of either kind.
    pub fn free(&mut self, tag: Tag)
        requires { IsTrue (is_issued_counted self.old tag) }
        ensures { self.new ≡ free_counted self.old tag }
    {
        let index = tag - tag_at(self.tags, self.client, 0);
        if index as usize == self.tags {
            self.task_out = false;
        } else {
            self.out &= !(1 << (index - 1));
        }
    }

    /// Whether a tag is one of this client's that is out, so that `free` takes it back.
    pub fn is_issued(&self, tag: Tag) -> bool
        ensures { result ≡ is_issued_counted self.now tag }
    {
        let before = tag_at(self.tags, self.client, 0);
        if tag <= before {
            return false;
        }
        let index = (tag - before) as usize;
        if index == self.tags {
            self.task_out
        } else {
            index < self.tags && (self.out >> (index - 1)) & 1 == 1
        }
    }

    /// How many tags are out, of commands and of task management together.
    pub fn outstanding(&self) -> usize
        ensures { result ≡ outstanding self.now.held }
    {
        self.out.count_ones() as usize + usize::from(self.task_out)
    }
}

/// The client's tag of an index, 0 to as many as it has.
fn tag_at(per: usize, client: u8, index: usize) -> Tag
    requires most_tags { per ≤ 16 }
    requires client_known { client < MAX_CLIENTS }
    requires within { index ≤ per }
    ensures { result ≡ per * client + index }
{
    (per * client as usize + index) as Tag
}

/// The least of the `count` lowest bits that is 0.
fn least_clear(mask: u16, count: usize) -> Option<usize>
    requires few { count < 16 }
    requires within { mask < 2 ^ count }
    ensures value { result ≡ position not (flags count mask) }
    ensures none { IsNone result ↔ (count_by (λ is_set. is_set) (flags count mask) ≡ count) }
    ensures bound { IfSome result (λ place. place < count) }
{
    let place = mask.trailing_ones() as usize;
    if place < count { Some(place) } else { None }
}

/// The next ticket, or `Worn` once the last one was given out.
fn next_ticket(next: &mut Ticket) -> Result<Ticket, Refused>
    requires { next.old ≤ tickets }
    ensures given { IfOk result (λ ticket. (ticket ≡ next.old) × (next.old < tickets) × (next.new ≡ next.old + 1)) }
    ensures worn { IfErr result (λ why. (why ≡ Worn) × (next.old ≡ tickets) × (next.new ≡ next.old)) }
{
    if *next == TICKETS {
        return Err(Refused::Worn);
    }
    let ticket = *next;
    *next += 1;
    Ok(ticket)
}
