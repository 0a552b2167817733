// Replies.
ghost use Rattle.std.specs.Prelude.{◌≡◌, ◌<◌, ◌≤◌, ◌&&◌, ◌||◌, drop, length, option_and_then, slice_get, IfSome, IsSome, None, Some, true};
ghost use Rattle.uas_profile.specs.declared.TheConstants.{MOST_TAGS};
ghost use Rattle.scsi_cmd.specs.Request.{is_command};
ghost use Rattle.scsi_cmd.specs.Held.{held_at};
ghost use Rattle.uas_host.specs.Replies.{command_reply, has_command, replied, reply_of, task_reply, without, HasAnswer, HasBuffer, IsReadySlot};
ghost use Rattle.uas_profile.specs.TdStates.{is_retired, is_seen};
ghost use Rattle.uas_host.specs.State.{client_of, is_response, is_status, with_client};

use crate::{Host, HostAnswer, HostClient, HostEntry, TdState};
use frame_store::Frames;
use scsi_cmd::{Buffer, Reply, Request};

/// The reply of a command with its buffer. Asks that its status TD was seen and told its status, or is retired.
fn command_reply(
    tag: u16,
    ticket: u64,
    told: HostAnswer,
    status_td: TdState,
    buffer: Buffer,
) -> Reply
    requires { ((is_seen status_td && is_status told) || is_retired status_td) ≡ true }
    ensures { command_reply tag ticket told status_td buffer ≡ Some result }
{
    if status_td.is_retired() {
        return Reply::Aborted {
            tag,
            ticket,
            buffer,
        };
    }
    match told {
        HostAnswer::Status { status, sense } => Reply::Status {
            tag,
            ticket,
            status,
            sense,
            buffer,
        },
        HostAnswer::Unanswered | HostAnswer::Response { .. } => unreachable!(),
    }
}

/// The reply of a task management. Asks that its response was told.
fn task_reply(tag: u16, ticket: u64, told: HostAnswer) -> Reply
    requires { is_response told ≡ true }
    ensures { task_reply tag ticket told ≡ Some result }
{
    match told {
        HostAnswer::Response { code } => Reply::Task { tag, ticket, code },
        HostAnswer::Unanswered | HostAnswer::Status { .. } => unreachable!(),
    }
}

impl HostEntry {
    /// The reply under this tag, a command's with its buffer. Asks that it is answered.
    fn into_reply(self, tag: u16, lent: Option<Buffer>) -> Reply
        requires answer { HasAnswer (Some self) }
        requires lent { HasBuffer lent (Some self) }
        ensures { reply_of tag lent self ≡ Some result }
    {
        let HostEntry {
            ticket,
            request,
            told,
            status_td,
            ..
        } = self;
        match (request, lent) {
            (Request::Execute(_), Some(buffer)) => {
                command_reply(tag, ticket, told, status_td, buffer)
            }
            (Request::Manage { .. }, _) => task_reply(tag, ticket, told),
            (Request::Execute(_), None) => unreachable!(),
        }
    }
}

/// What is held goes, as the reply under this tag.
fn release_held(held: &mut Option<HostEntry>, tag: u16, lent: Option<Buffer>) -> Reply
    requires answer { HasAnswer held.old }
    requires lent { HasBuffer lent held.old }
    ensures gone { held.new ≡ None }
    ensures reply { option_and_then (reply_of tag lent) held.old ≡ Some result }
{
    match held.take() {
        Some(entry) => entry.into_reply(tag, lent),
        None => unreachable!(),
    }
}

/// Whether what is held is a command.
fn has_command(held: &Option<HostEntry>) -> bool
    ensures { result ≡ has_command held.now }
{
    match held {
        Some(entry) => entry.is_command(),
        None => false,
    }
}

impl HostClient {
    /// The slot that was ready first.
    fn first_ready(&self) -> Option<usize>
        ensures { result ≡ slice_get self.now.ready.items 0 }
    {
        self.ready.as_slice().first().copied()
    }

    /// The slot that was ready first is free again, and its entry is the reply.
    #[inline(always)]
    fn release(&mut self, slot: usize, tag: u16, lent: Option<Buffer>) -> Reply
        requires slot { slot < MOST_TAGS }
        requires first { slice_get self.old.ready.items 0 ≡ Some slot }
        requires answer { HasAnswer (held_at self.old.entries slot) }
        requires lent { HasBuffer lent (held_at self.old.entries slot) }
        ensures client { self.new ≡ without self.old slot (drop 1 self.old.ready.items) }
        ensures reply { option_and_then (reply_of tag lent) (held_at self.old.entries slot) ≡ Some result }
    {
        let _ = self.ready.remove(0);
        release_held(&mut self.entries[slot], tag, lent)
    }
}

impl Host {
    /// The slot of a client that was ready first; a client that isn't there has none.
    pub(crate) fn first_ready(&self, client: usize) -> Option<usize>
        ensures first { result ≡ slice_get (client_of self.now client).ready.items 0 }
        ensures known { IfSome result (IsReadySlot self.now client) }
    {
        if self.clients.len() <= client {
            return None;
        }
        self.clients[client].first_ready()
    }

    /// Whether a command is under a slot of a client.
    fn is_command_at(&self, client: usize, slot: usize) -> bool
        requires client { client < length self.now.clients }
        requires slot { slot < self.now.tags }
        ensures { result ≡ has_command (held_at (client_of self.now client).entries slot) }
    {
        has_command(&self.clients[client].entries[slot])
    }

    /// The slot of a client that was ready first is free again, and its entry is the reply.
    #[inline(always)]
    fn release(&mut self, client: usize, slot: usize, tag: u16, lent: Option<Buffer>) -> Reply
        requires ready { IsReadySlot self.old client slot }
        requires first { slice_get (client_of self.old client).ready.items 0 ≡ Some slot }
        requires lent { HasBuffer lent (held_at (client_of self.old client).entries slot) }
        ensures host { self.new ≡ with_client self.old client (without (client_of self.old client) slot (drop 1 (client_of self.old client).ready.items)) }
        ensures reply { option_and_then (reply_of tag lent) (held_at (client_of self.old client).entries slot) ≡ Some result }
    {
        self.clients[client].release(slot, tag, lent)
    }

    /// Gives the reply of a client that was ready first: a command's with its buffer, the very vector that was
    /// handed in, and a task management's with the code of its response. The tag is free then. None, and nothing
    /// changes, where no reply is ready, where a command's vector isn't lent, or where the client isn't there.
    pub fn take_reply(&mut self, frames: &mut Frames, client: usize) -> Option<Reply>
        ensures { replied self.old frames.old client ≡ record { host = self.new; frames = frames.new; reply = result } }
    {
        let Some(slot) = self.first_ready(client) else {
            return None;
        };
        let tag = self.tag_of(client, slot);
        if !self.is_command_at(client, slot) {
            return Some(self.release(client, slot, tag, None));
        }
        let Ok(bytes) = frames.take_back(tag) else {
            return None;
        };
        Some(self.release(client, slot, tag, Some(Buffer::from_vec(bytes))))
    }
}
