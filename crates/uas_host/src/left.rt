// Which TDs are left over, found by the marks of the clients that may have some.
ghost use Rattle.std.specs.Prelude.{◌≡◌, ℕ, ◌*◌, ◌<◌, ◌≤◌, List, true, false, IfSome, IfNone, if◌then◌else◌, length};
ghost use Rattle.uas_profile.specs.declared.TheConstants.{MAX_CLIENTS};
ghost use Rattle.marks.specs.Marks.{is_marked};
ghost use Rattle.scsi_cmd.specs.Held.{held_at};
ghost use Rattle.uas_host.specs.Left.{has_left_over, have_left_over, holds_left_over, is_held_left_over, moves_left_over};
ghost use Rattle.uas_host.specs.Retirement.{is_left_over_on};
ghost use Rattle.uas_host.specs.Sights.{notice_by};

use crate::seen::Sight;
use crate::{CLIENT_WORDS, Host, HostClient, HostEntry, Place};
use marks::Marks;
use scsi_cmd::CHECK_CONDITION;
use stream_array::Pipe;
use uas_iu::TASK_COMPLETE;
use uas_profile::MOST_TAGS;

impl Sight {
    /// Whether it can change which TDs are left over.
    pub(crate) fn moves_left_over(self) -> bool
        ensures { (sense : List ℕ) → result ≡ moves_left_over (notice_by sense self) }
    {
        match self {
            Sight::CommandSeen | Sight::DataInSeen | Sight::DataOutSeen => false,
            Sight::Answered { status } => status == CHECK_CONDITION,
            Sight::Responded { code } => code == TASK_COMPLETE,
            Sight::TdRetired(_) => true,
        }
    }
}

impl HostEntry {
    /// Whether one of its TDs is left over.
    fn has_left_over(&self) -> bool
        ensures { result ≡ has_left_over self.now }
    {
        match self.data_td {
            Some(td) => self.status_td.is_left_over() || td.is_left_over(),
            None => self.status_td.is_left_over(),
        }
    }
}

/// Whether of what is held a TD is left over.
fn holds_left_over(held: &Option<HostEntry>) -> bool
    ensures { result ≡ holds_left_over held.now }
{
    match held {
        Some(entry) => entry.has_left_over(),
        None => false,
    }
}

/// Whether of what is held the TD on a pipe is left over.
fn is_held_left_over(held: &Option<HostEntry>, pipe: Pipe) -> bool
    ensures { result ≡ is_held_left_over pipe held.now }
{
    match held {
        Some(entry) => entry.is_left_over(pipe),
        None => false,
    }
}

/// Whether a TD of one of the entries is left over.
#[inline(never)]
fn have_left_over(entries: &[Option<HostEntry>; MOST_TAGS]) -> bool
    ensures { result ≡ have_left_over entries.now }
{
    for slot in 0..MOST_TAGS {
        if holds_left_over(&entries[slot]) {
            return true;
        }
    }
    false
}

/// Marks a client exactly where a TD of it is left over; where that can't have changed, its mark stays.
#[inline(always)]
pub(crate) fn settle(
    marks: &mut Marks<CLIENT_WORDS>,
    client: usize,
    changed: bool,
    held: &HostClient,
)
    requires { client < MAX_CLIENTS }
    ensures here { is_marked marks.new client ≡ (if changed then have_left_over held.now.entries else is_marked marks.old client) }
    ensures others { (other : ℕ) → (other ≡ client → ⊥) → is_marked marks.new other ≡ is_marked marks.old other }
{
    if changed {
        marks.set(client, have_left_over(&held.entries));
    }
}

impl HostClient {
    /// The first slot from this one on, below so many, whose TD on a pipe is left over.
    fn left_over_from(&self, tags: usize, pipe: Pipe, from: usize) -> Option<usize>
        requires { tags ≤ MOST_TAGS }
        ensures slot { IfSome result (λ slot. (from ≤ slot) × (slot < tags) × (is_held_left_over pipe (held_at self.now.entries slot) ≡ true)
            × ((other : ℕ) → from ≤ other → other < slot → is_held_left_over pipe (held_at self.now.entries other) ≡ false)) }
        ensures none { IfNone result ((other : ℕ) → from ≤ other → other < tags → is_held_left_over pipe (held_at self.now.entries other) ≡ false) }
    {
        for slot in from..tags {
            if is_held_left_over(&self.entries[slot], pipe) {
                return Some(slot);
            }
        }
        None
    }
}

impl Host {
    /// The least tag above this one whose TD on a pipe is left over. Only clients that are marked are looked at, and none where no
    /// client is.
    #[inline(always)]
    pub fn next_left_over(&self, pipe: Pipe, tag: u16) -> Option<u16>
        ensures next { IfSome result (λ next. (tag < next) × (next ≤ length self.now.clients * self.now.tags)
            × (is_left_over_on self.now pipe next ≡ true)
            × ((other : ℕ) → tag < other → other < next → is_left_over_on self.now pipe other ≡ false)) }
        ensures none { IfNone result ((other : ℕ) → tag < other → is_left_over_on self.now pipe other ≡ false) }
    {
        if self.marks.is_empty() {
            return None;
        }
        self.left_over_behind(pipe, tag)
    }

    /// The same, of the clients that are marked.
    #[inline(never)]
    fn left_over_behind(&self, pipe: Pipe, tag: u16) -> Option<u16>
        ensures next { IfSome result (λ next. (tag < next) × (next ≤ length self.now.clients * self.now.tags)
            × (is_left_over_on self.now pipe next ≡ true)
            × ((other : ℕ) → tag < other → other < next → is_left_over_on self.now pipe other ≡ false)) }
        ensures none { IfNone result ((other : ℕ) → tag < other → is_left_over_on self.now pipe other ≡ false) }
    {
        let tags = self.tags();
        let mut next = self.place_of(tag.saturating_add(1))?;
        while let Some(client) = self.marks.next_from(next.client) {
            let first = if client == next.client { next.slot } else { 0 };
            if let Some(slot) = self.clients[client].left_over_from(tags, pipe, first) {
                return Some(self.tag_of(client, slot));
            }
            next = Place {
                client: client + 1,
                slot: 0,
            };
        }
        None
    }
}
