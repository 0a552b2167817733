// A host and its clients.
ghost use Rattle.std.specs.Prelude.{◌≡◌, ◌+◌, ◌*◌, ◌<◌, ◌≤◌, ◌^◌, IfOk, MatchResult, None, Some, length, replicate};
ghost use Rattle.uas_profile.specs.declared.TheConstants.{MAX_CLIENTS, STREAMS, USUAL_CLIENTS};
ghost use Rattle.uas_profile.specs.Tags.{AreTags, slot_of, task_slot};
ghost use Rattle.scsi_cmd.specs.Op.{direction_of, moved_bytes};
ghost use Rattle.scsi_cmd.specs.declared.Op.{Op};
ghost use Rattle.uas_host.specs.State.{IsHostClient, client_of, new_client, opening};
ghost use Rattle.uas_host.specs.Submit.{IsFree, data_td_for, fault_at, host_fault, new_entry, noted, submitted_client};

use crate::{Host, HostAnswer, HostClient, HostEntry, NoMemory, TdState};
use arrayvec::ArrayVec;
use marks::Marks;
use scsi_cmd::{Command, Direction, Op, Request, SubmitFault, moves};
use std::alloc::Global;
use uas_profile::{MOST_TAGS, TAGS, WINDOW_BYTES};

/// A submission that has no fault: its slot, which way it moves data and how many bytes.
#[derive(Clone, Copy)]
pub(crate) struct Accepted {
    pub slot: usize,
    pub direction: Direction,
    pub bytes: usize,
}

impl HostEntry {
    /// What the host has under a tag once an operation was submitted, by the state of its data TD.
    fn new(ticket: u64, op: Op, data_td: Option<TdState>) -> HostEntry
        requires { data_td ≡ data_td_for (moved_bytes op) }
        ensures { result ≡ new_entry ticket op }
    {
        HostEntry {
            ticket,
            request: Request::Execute(op),
            told: HostAnswer::Unanswered,
            command_td: TdState::Pending,
            status_td: TdState::Pending,
            data_td,
        }
    }
}

/// The state of a data TD for so many bytes, just pushed.
fn pending_where(bytes: usize) -> Option<TdState>
    ensures { result ≡ data_td_for bytes }
{
    if bytes == 0 {
        None
    } else {
        Some(TdState::Pending)
    }
}

fn none_held() -> [Option<HostEntry>; MOST_TAGS]
    ensures { result ≡ replicate MOST_TAGS None }
{
    std::array::from_fn(|_| None)
}

impl HostClient {
    fn new() -> HostClient
        ensures { result ≡ new_client }
    {
        HostClient {
            entries: none_held(),
            least_ticket: 0,
            ready: ArrayVec::new(),
        }
    }

    /// The first fault of a submission under a command slot, if there is one, by the bytes that its operation moves: it has too many
    /// blocks exactly where these are more than a window's.
    #[tactic(auto, using(crate::proofs::Faults::too_long))]
    #[inline(always)]
    fn fault(
        &self,
        slot: usize,
        ticket: u64,
        command: &Command,
        bytes: usize,
    ) -> Option<SubmitFault>
        requires slot { slot < MOST_TAGS }
        requires bytes { bytes ≡ moved_bytes command.now.op }
        ensures { result ≡ fault_at self.now ticket command.now (Some slot) }
    {
        if self.entries[slot].is_some() {
            Some(SubmitFault::InUse)
        } else if command.buffer.len() != bytes {
            Some(SubmitFault::BadLength)
        } else if WINDOW_BYTES < bytes {
            Some(SubmitFault::TooLong)
        } else if ticket < self.least_ticket {
            Some(SubmitFault::OutOfTurn(self.least_ticket))
        } else {
            None
        }
    }

    #[inline(always)]
    fn submit(&mut self, slot: usize, ticket: u64, op: Op, bytes: usize)
        requires slot { slot < MOST_TAGS }
        requires ticket { ticket < 2 ^ 60 }
        requires bytes { bytes ≡ moved_bytes op }
        ensures { self.new ≡ submitted_client self.old slot ticket op }
    {
        // Found out beforehand, so that the entry is made in one piece.
        let data_td = pending_where(bytes);
        self.entries[slot] = Some(HostEntry::new(ticket, op, data_td));
        self.least_ticket = ticket + 1;
    }
}

impl Host {
    /// A host of so many clients, 1 to 15 (`USUAL_CLIENTS`), with `TAGS` tags each, that have submitted nothing. Refused for want of
    /// memory alone.
    pub fn new(alloc: Global, clients: usize) -> Result<Host, NoMemory>
        requires some { 1 ≤ clients }
        requires most { clients ≤ USUAL_CLIENTS }
        ensures { IfOk result (λ host. host ≡ opening TAGS clients) }
    {
        Host::with_tags(alloc, clients, TAGS)
    }

    /// The same of 1 to 31 (`MAX_CLIENTS`) clients with another number of tags each, 2 to 16: each tag has its streams.
    pub fn with_tags(alloc: Global, clients: usize, tags: usize) -> Result<Host, NoMemory>
        requires number { AreTags tags }
        requires some { 1 ≤ clients }
        requires most { clients ≤ MAX_CLIENTS }
        requires streams { clients * tags ≤ STREAMS }
        ensures { IfOk result (λ host. host ≡ opening tags clients) }
    {
        let mut list = Vec::with_capacity(alloc, clients)?;
        for _ in 0..clients {
            list.push(HostClient::new())?;
        }
        Ok(Host {
            tags,
            clients: list,
            marks: Marks::new(),
            retirement: None,
        })
    }

    /// What is to be done for a submission that has no fault, or its first fault.
    #[inline(always)]
    pub(crate) fn accept(
        &self,
        client: usize,
        tag: u16,
        ticket: u64,
        command: &Command,
    ) -> Result<Accepted, SubmitFault>
        ensures { MatchResult result
            (λ accepted. (host_fault self.now client tag ticket command.now ≡ None)
            × (accepted.slot ≡ slot_of self.now.tags tag) × (accepted.slot < task_slot self.now.tags)
            × (client < length self.now.clients) × (client < MAX_CLIENTS) × (1 ≤ tag) × (tag ≤ STREAMS)
            × (accepted.direction ≡ direction_of command.now.op) × (accepted.bytes ≡ moved_bytes command.now.op))
            (λ fault. host_fault self.now client tag ticket command.now ≡ Some fault) }
    {
        let Some(slot) = self.command_slot(client, tag) else {
            return Err(SubmitFault::NotYours);
        };
        let (direction, bytes) = moves(&command.op);
        match self.clients[client].fault(slot, ticket, command, bytes) {
            None => Ok(Accepted {
                slot,
                direction,
                bytes,
            }),
            Some(fault) => Err(fault),
        }
    }

    /// Notes a submission that moves so many bytes under a command slot that is free.
    #[inline(always)]
    pub(crate) fn note(&mut self, client: usize, slot: usize, ticket: u64, op: Op, bytes: usize)
        requires client { client < length self.old.clients }
        requires slot { slot < task_slot self.old.tags }
        requires ticket { ticket < 2 ^ 60 }
        requires free { IsFree (client_of self.old client) slot }
        requires bytes { bytes ≡ moved_bytes op }
        ensures { self.new ≡ noted self.old client slot ticket op }
    {
        self.clients[client].submit(slot, ticket, op, bytes);
    }
}
