//! The information units that answer tasks.
ghost use Rattle.std.specs.Prelude.{◌≡◌, MatchOption, false, option_map, true};
ghost use Rattle.arrayvec.specs.ArrayVec.{array_vec_len};
ghost use Rattle.uas_iu.specs.Units.{IsTextOf};
ghost use Rattle.uas_target.specs.Tasks.{answer_unit};
ghost use Rattle.uas_tasks.specs.Answers.{told_unit};
ghost use Rattle.uas_tasks.specs.Machine.{answer_on};
ghost use Rattle.uas_tasks.specs.Slots.{failure_unit};

use crate::{Answer, DeviceAnswer, Failure, Task, Tasks};
use arrayvec::ArrayVec;
use device_server::status_and_sense;
use host_sense::SenseFormat;
use scsi_cmd::{CHECK_CONDITION, GOOD};
use uas_iu::{Iu, write, write_sense};
use uas_profile::STATUS_BYTES;

/// The status BUSY (SAM).
const BUSY: u8 = 0x08;

const _: () = prove!(BUSY == 0x08);

/// What a tag is answered.
#[derive(Clone, Copy)]
pub(crate) enum Told {
    Answer(DeviceAnswer),
    Failure(Failure),
}

impl Tasks {
    /// The information unit that answers the task of a tag, once it has ended: Sense with GOOD, CHECK CONDITION or BUSY, or Response. Of a
    /// function that ended a command there is none while a stale request of its logical unit is out.
    pub fn status_of(&self, tag: u16) -> Option<Iu>
        ensures { result ≡ answer_on self.now tag }
    {
        Some(unit_of(tag, &self.told_of(tag)?))
    }

    /// Writes the information unit that answers the task of a tag, once it has ended, into `text`, which is asked to be empty.
    /// False, and nothing is written, where it hasn't.
    pub fn write_status(&self, tag: u16, text: &mut ArrayVec<u8, STATUS_BYTES>) -> bool
        requires { array_vec_len text.old ≡ 0 }
        ensures { MatchOption (answer_on self.now tag) ((result ≡ false) × (text.new ≡ text.old))
            (λ unit. (result ≡ true) × IsTextOf text.new.items unit) }
    {
        match self.told_of(tag) {
            Some(Told::Answer(answer)) => {
                write_answer(tag, &answer, text);
                true
            }
            Some(Told::Failure(failure)) => {
                write_failure(tag, &failure, text);
                true
            }
            None => false,
        }
    }

    /// What a tag is answered, once its task has ended and waits for nothing more.
    fn told_of(&self, tag: u16) -> Option<Told>
        ensures { answer_on self.now tag ≡ option_map (told_unit tag) result }
    {
        let slot = self.slot(tag)?;
        if self.is_held(slot) {
            return None;
        }
        match slot.task() {
            Some(Task::Ended { answer, .. }) => Some(Told::Answer(*answer)),
            Some(Task::Failed { failure, .. }) => Some(Told::Failure(*failure)),
            Some(Task::Held { code, .. }) => Some(Told::Answer(DeviceAnswer::Response(*code))),
            _ => None,
        }
    }
}

fn unit_of(tag: u16, told: &Told) -> Iu
    ensures { result ≡ told_unit tag told.now }
{
    match told {
        Told::Answer(answer) => answer_unit(tag, answer),
        Told::Failure(failure) => failure_unit(tag, failure),
    }
}

fn answer_unit(tag: u16, answer: &DeviceAnswer) -> Iu
    ensures { result ≡ answer_unit tag answer.now }
{
    match answer {
        DeviceAnswer::Status(answer) => {
            let (status, sense) = status_and_sense(answer);
            Iu::Sense { tag, status, sense }
        }
        DeviceAnswer::Response(code) => Iu::Response { tag, code: *code },
    }
}

fn failure_unit(tag: u16, failure: &Failure) -> Iu
    ensures { result ≡ failure_unit tag failure.now }
{
    let mut sense = ArrayVec::new();
    match failure {
        Failure::Sensed(told) => {
            let bytes = told.bytes(SenseFormat::Fixed);
            sense.try_extend_from_slice(&bytes).unwrap();
            Iu::Sense {
                tag,
                status: CHECK_CONDITION,
                sense,
            }
        }
        Failure::Busy => Iu::Sense {
            tag,
            status: BUSY,
            sense,
        },
    }
}

/// Writes the information unit that tells an answer into `text`, which is asked to be empty.
fn write_answer(tag: u16, answer: &DeviceAnswer, text: &mut ArrayVec<u8, STATUS_BYTES>)
    requires { array_vec_len text.old ≡ 0 }
    ensures { IsTextOf text.new.items (answer_unit tag answer.now) }
{
    match answer {
        DeviceAnswer::Status(Answer::Good) => write_sense(tag, GOOD, &[], text),
        DeviceAnswer::Status(Answer::Check(sense)) => {
            write_sense(tag, CHECK_CONDITION, &sense.bytes(), text);
        }
        DeviceAnswer::Response(code) => write(&Iu::Response { tag, code: *code }, text),
    }
}

/// The same of a failure.
fn write_failure(tag: u16, failure: &Failure, text: &mut ArrayVec<u8, STATUS_BYTES>)
    requires { array_vec_len text.old ≡ 0 }
    ensures { IsTextOf text.new.items (failure_unit tag failure.now) }
{
    match failure {
        Failure::Sensed(told) => write_sense(
            tag,
            CHECK_CONDITION,
            &told.bytes(SenseFormat::Fixed),
            text,
        ),
        Failure::Busy => write_sense(tag, BUSY, &[], text),
    }
}
