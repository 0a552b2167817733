//! What a command came to.
ghost use Rattle.std.specs.Prelude.{◌≡◌};
ghost use Rattle.host_layout.specs.Cutting.{total_of};
ghost use Rattle.block_requests.specs.Outcomes.{data_end, moved_in, outcome_of, short_end, status_outcome, stopped_at, success_end};

use arrayvec::ArrayVec;
use disk_requests::StatusKind;
use host_layout::Piece;
use host_trbs::Completion;
use uas_iu::MAX_SENSE_BYTES;

/// How a command ended.
#[derive(Clone, Debug, PartialEq, Eq, Drop)]
pub enum Outcome {
    /// GOOD, and all bytes were moved.
    Good,
    /// GOOD, but fewer bytes were moved.
    Short,
    /// Another status, with its sense.
    Status(u8, ArrayVec<u8, MAX_SENSE_BYTES>),
    /// The response code of a unit that the disk didn't take.
    Response(u8),
}

/// What an event says of the TD of a command's data.
#[derive(Clone, Copy, Debug, PartialEq, Eq)]
pub enum DataEnd {
    /// It has ended, and so many bytes were moved.
    Moved(u32),
    Failed,
    /// It goes on.
    GoesOn,
}

/// What an event at the TRB of a piece says, of which so many bytes were not moved.
pub fn data_end(pieces: &[Piece], number: usize, residual: u32, completion: Completion) -> DataEnd
    ensures { result ≡ data_end pieces.now number residual completion }
{
    match completion {
        Completion::Success => success_end(pieces, number),
        Completion::ShortPacket => short_end(moved_in(pieces, number, residual)),
        Completion::Stall | Completion::Transaction | Completion::Failed => DataEnd::Failed,
        _ => DataEnd::GoesOn,
    }
}

/// At the last piece a success ends the TD, with all bytes.
fn success_end(pieces: &[Piece], number: usize) -> DataEnd
    ensures { result ≡ success_end pieces.now number }
{
    if pieces.is_empty() {
        return DataEnd::GoesOn;
    }
    let last = pieces.len() - 1;
    if number == last {
        DataEnd::Moved(pieces[last].end)
    } else {
        DataEnd::GoesOn
    }
}

fn short_end(moved: Option<u32>) -> DataEnd
    ensures { result ≡ short_end moved }
{
    match moved {
        Some(count) => DataEnd::Moved(count),
        None => DataEnd::GoesOn,
    }
}

/// The bytes of a TD that were moved, where an event of code 1, 13 or 26 names the TRB of a piece and so many of its bytes were not; None behind the
/// last piece.
pub fn moved_in(pieces: &[Piece], number: usize, residual: u32) -> Option<u32>
    ensures { result ≡ moved_in pieces.now number residual }
{
    match pieces.get(number) {
        Some(piece) => Some(piece.moved(residual)),
        None => None,
    }
}

/// The bytes of a TD that were moved when it was stopped, where an event with this length names the TRB of a piece: the length is what of the piece
/// was not (26), or the bytes of the TD so far (28). None of another completion.
pub fn stopped_at(
    pieces: &[Piece],
    number: usize,
    length: u32,
    completion: Completion,
) -> Option<u32>
    ensures { result ≡ stopped_at pieces.now number length completion }
{
    match completion {
        Completion::Stopped => moved_in(pieces, number, length),
        Completion::StoppedShortPacket => Some(length.min(total_of(pieces))),
        _ => None,
    }
}

/// The bytes of a TD.
pub(crate) fn total_of(pieces: &[Piece]) -> u32
    ensures { result ≡ total_of pieces.now }
{
    match pieces.last() {
        Some(piece) => piece.end,
        None => 0,
    }
}

/// What a status unit says of a command that moved so many bytes of those that were wanted; None of a unit that ends no command.
pub fn outcome_of(kind: StatusKind, moved: u32, wanted: u32) -> Option<Outcome>
    ensures { result ≡ outcome_of kind moved wanted }
{
    match kind {
        StatusKind::Sense { status, sense } => Some(status_outcome(status, sense, moved, wanted)),
        StatusKind::Response { code } => Some(Outcome::Response(code)),
        StatusKind::ReadReady | StatusKind::WriteReady => None,
    }
}

fn status_outcome(
    status: u8,
    sense: ArrayVec<u8, MAX_SENSE_BYTES>,
    moved: u32,
    wanted: u32,
) -> Outcome
    ensures { result ≡ status_outcome status sense moved wanted }
{
    if status != 0 {
        Outcome::Status(status, sense)
    } else if moved == wanted {
        Outcome::Good
    } else {
        Outcome::Short
    }
}
