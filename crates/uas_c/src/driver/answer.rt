//! What an answer of the driver's tells beside its data.
ghost use Rattle.std.specs.Prelude.{◌≡◌};
ghost use Rattle.uas_c.specs.DriverCall.{answer_of, with_answer_bytes};

use crate::client::{ToldReply, show_buffer, told_status, told_without_sense};
use uas_driver::Answer;
use uas_iu::MAX_SENSE_BYTES;

/// What is told of an answer beside its data: a reply, whose kind is 4 where the command failed and whose status is then the completion
/// code.
#[derive(Clone, Copy)]
pub(crate) struct ToldAnswer {
    pub(crate) reply: ToldReply,
    /// Bytes of its data that were moved.
    pub(crate) moved: u32,
}

/// What an answer tells, its buffer at the front of `bytes`. `before` is the sense data that stays where it has none.
pub(crate) fn tell_answer(
    answer: &Answer,
    before: [u8; MAX_SENSE_BYTES],
    bytes: &mut [u8],
) -> ToldAnswer
    ensures told { result ≡ answer_of before answer.now }
    ensures bytes { bytes.new ≡ with_answer_bytes bytes.old answer.now }
{
    match answer {
        Answer::Status {
            tag,
            ticket,
            status,
            sense,
            buffer,
            moved,
        } => ToldAnswer {
            reply: told_status(*tag, *ticket, *status, sense, show_buffer(buffer, bytes)),
            moved: *moved,
        },
        Answer::Aborted {
            tag,
            ticket,
            buffer,
            moved,
        } => ToldAnswer {
            reply: told_without_sense(2, *tag, *ticket, 0, before, show_buffer(buffer, bytes)),
            moved: *moved,
        },
        Answer::Task { tag, ticket, code } => ToldAnswer {
            reply: told_without_sense(3, *tag, *ticket, *code, before, 0),
            moved: 0,
        },
        Answer::Failed {
            tag,
            ticket,
            code,
            buffer,
            moved,
        } => {
            let count = match buffer {
                Some(buffer) => show_buffer(buffer, bytes),
                None => 0,
            };
            ToldAnswer {
                reply: told_without_sense(4, *tag, *ticket, *code, before, count),
                moved: *moved,
            }
        }
    }
}
