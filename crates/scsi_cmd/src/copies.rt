//! Copies and equality of what owns a buffer.
ghost use Rattle.std.specs.Prelude.{◌≡◌, ◌↔◌, IsTrue, IfOk, length, vec_len};
ghost use Rattle.scsi_cmd.specs.Copies.{brought_bytes};

use crate::{Buffer, Command, MAX_SENSE_BYTES, Reply};
use arrayvec::ArrayVec;
use std::alloc::{AllocError, Global};

impl Command {
    /// A copy of it, for which its buffer alone takes memory.
    pub fn try_clone(&self, alloc: Global) -> Result<Command, AllocError>
        ensures { IfOk result (λ copy. copy ≡ self.now) }
    {
        let buffer = self.buffer.try_clone(alloc)?;
        Ok(Command {
            op: self.op,
            buffer,
        })
    }

    /// Whether both are the same operation with the same bytes.
    pub fn same(&self, other: &Command) -> bool
        ensures { IsTrue result ↔ (self.now ≡ other.now) }
    {
        self.op == other.op && self.buffer.same(&other.buffer)
    }
}

impl Reply {
    /// How many bytes it brings, 0 for a task management's.
    pub fn len(&self) -> usize
        ensures { result ≡ length (brought_bytes self.now) }
    {
        match self {
            Reply::Status { buffer, .. } | Reply::Aborted { buffer, .. } => buffer.len(),
            Reply::Task { .. } => 0,
        }
    }

    /// A copy of it in `spare`, which has as many bytes as the reply brings; takes no memory.
    pub fn copy_into(&self, spare: Vec<u8>) -> Reply
        requires { vec_len spare ≡ length (brought_bytes self.now) }
        ensures { result ≡ self.now }
    {
        match self {
            Reply::Status {
                tag,
                ticket,
                status,
                sense,
                buffer,
            } => Reply::Status {
                tag: *tag,
                ticket: *ticket,
                status: *status,
                sense: copied_sense(sense),
                buffer: buffer.copy_into(spare),
            },
            Reply::Aborted {
                tag,
                ticket,
                buffer,
            } => Reply::Aborted {
                tag: *tag,
                ticket: *ticket,
                buffer: buffer.copy_into(spare),
            },
            Reply::Task { tag, ticket, code } => Reply::Task {
                tag: *tag,
                ticket: *ticket,
                code: *code,
            },
        }
    }

    /// A copy of it, for which its buffer alone takes memory.
    pub fn try_clone(&self, alloc: Global) -> Result<Reply, AllocError>
        ensures { IfOk result (λ copy. copy ≡ self.now) }
    {
        let spare = vec![in alloc; 0; self.len()]?;
        Ok(self.copy_into(spare))
    }

    /// Whether both are the same reply with the same bytes.
    pub fn same(&self, other: &Reply) -> bool
        ensures { IsTrue result ↔ (self.now ≡ other.now) }
    {
        match (self, other) {
            (
                Reply::Status {
                    tag,
                    ticket,
                    status,
                    sense,
                    buffer,
                },
                Reply::Status {
                    tag: other_tag,
                    ticket: other_ticket,
                    status: other_status,
                    sense: other_sense,
                    buffer: other_buffer,
                },
            ) => {
                *tag == *other_tag
                    && *ticket == *other_ticket
                    && *status == *other_status
                    && sense.as_slice() == other_sense.as_slice()
                    && buffer.same(other_buffer)
            }
            (
                Reply::Aborted {
                    tag,
                    ticket,
                    buffer,
                },
                Reply::Aborted {
                    tag: other_tag,
                    ticket: other_ticket,
                    buffer: other_buffer,
                },
            ) => { *tag == *other_tag && *ticket == *other_ticket && buffer.same(other_buffer) }
            (
                Reply::Task { tag, ticket, code },
                Reply::Task {
                    tag: other_tag,
                    ticket: other_ticket,
                    code: other_code,
                },
            ) => *tag == *other_tag && *ticket == *other_ticket && *code == *other_code,
            (Reply::Status { .. }, _) | (Reply::Aborted { .. }, _) | (Reply::Task { .. }, _) =>
                false,
        }
    }
}

impl Buffer {
    /// A copy of it in `spare`, which has as many bytes; takes no memory.
    pub fn copy_into(&self, mut spare: Vec<u8>) -> Buffer
        requires { vec_len spare ≡ length self.now }
        ensures { result ≡ self.now }
    {
        spare.copy_from_slice(self.as_slice());
        Buffer::from_vec(spare)
    }
}

fn copied_sense(sense: &ArrayVec<u8, MAX_SENSE_BYTES>) -> ArrayVec<u8, MAX_SENSE_BYTES>
    ensures { result ≡ sense.now }
{
    let mut copy = ArrayVec::new();
    copy.try_extend_from_slice(sense).unwrap();
    copy
}
