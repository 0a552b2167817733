//! How a command begins, and its answer.
ghost use Rattle.std.specs.Prelude.{◌≡◌, length, IfOk};
ghost use Rattle.scsi_cmd.specs.Sense.{sense_bytes};
ghost use Rattle.scsi_cmd.specs.Work.{IsWorkOn, work_bytes};
ghost use Rattle.device_server.specs.Server.{begun, first_progress, progress_asked, sense_of, status_of, synchronized};

use crate::{Answer, Progress};
use arrayvec::ArrayVec;
use block_unit::Unit;
use scsi_cmd::{CHECK_CONDITION, GOOD, MAX_SENSE_BYTES, Sense, Work};

/// Begins a command that asks for this work and `reports` attentions, or doesn't (INQUIRY, SPC): an attention or a fault
/// ends it, and so does having no data to move; else its data starts to move. SYNCHRONIZE CACHE acts at once (SBC).
#[tactic(auto, using(crate::specs::Laws::counts))]
pub fn begin(unit: &mut Unit, reports: bool, asked: Result<Work, Sense>) -> Progress
    requires { IfOk asked (IsWorkOn unit.old.count) }
    ensures unit { unit.new ≡ (begun unit.old reports asked).0 }
    ensures progress { result ≡ (begun unit.old reports asked).1 }
    ensures count { unit.new.count ≡ unit.old.count }
{
    if reports && unit.attention() {
        unit.set_attention(false);
        return Progress::Ended(Answer::Check(Sense::RESET_OCCURRED));
    }
    if let Ok(Work::Synchronizes { lba, count }) = &asked {
        unit.sync(*lba, u32::from(*count));
    }
    progress_asked(&asked)
}

/// What a command is at that asks for this work, where no attention stands before it: moving its first chunk, or ended
/// by its fault or for want of data.
pub fn progress_asked(asked: &Result<Work, Sense>) -> Progress
    ensures { result ≡ progress_asked asked.now }
{
    match asked {
        Ok(work) if work.bytes() > 0 => Progress::Moving(0),
        Ok(_) => Progress::Ended(Answer::Good),
        Err(sense) => Progress::Ended(Answer::Check(*sense)),
    }
}

/// The status byte of an answer and its sense data, none with GOOD (SAM).
pub fn status_and_sense(answer: &Answer) -> (u8, ArrayVec<u8, MAX_SENSE_BYTES>)
    ensures status { result.0 ≡ status_of answer.now }
    ensures sense { result.1.items ≡ sense_of answer.now }
{
    match answer {
        Answer::Good => (GOOD, ArrayVec::new()),
        Answer::Check(sense) => (CHECK_CONDITION, sense_vec(sense)),
    }
}

fn sense_vec(sense: &Sense) -> ArrayVec<u8, MAX_SENSE_BYTES>
    ensures { result.items ≡ sense_bytes sense.now }
{
    let mut bytes = ArrayVec::new();
    bytes.try_extend_from_slice(&sense.bytes()).unwrap();
    bytes
}
