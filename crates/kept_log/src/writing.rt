//! A text, written as its log grows: each call adds what comes behind the text so far.
ghost use Rattle.std.specs.Prelude.{◌≡◌, ◌≤◌, ◌<◌, ◌^◌, ◌++◌, IfOk, None, OnErr, OnOk, Some, length};
ghost use Rattle.std.specs.List.{AllByRecursion};
ghost use Rattle.log_records.specs.Records.{record_text, sum_after};
ghost use Rattle.log_text.specs.declared.Version.TheVariants.{Second};
ghost use Rattle.log_text.specs.Text.{ReplyFits, StepFits, UnitFits};
ghost use Rattle.uas_profile.specs.Tags.{most_clients};
ghost use Rattle.uas_profile.specs.Tags.{AreTags};
ghost use Rattle.kept_log.specs.declared.Entry.TheVariants.{Acted, Refused};
ghost use Rattle.kept_log.specs.Form.{end_text, entry_text, head_front, head_sum, head_text, why_number};

use crate::Why;
use log_records::checksum::crc32c;
use log_records::{RecordFault, append_record};
use log_text::{put, put_reply, put_step, put_units};
use scsi_cmd::Reply;
use shared_machine::Step;
use std::alloc::{AllocError, Global};
use uas_log::FirstUnit;

/// `UASLOG`, and the version.
const NAME: &[u8; 6] = b"UASLOG";

const VERSION: u64 = 3;

/// The kinds of records.
const ACTED: u64 = 1;

const REFUSED: u64 = 2;

const END: u64 = 3;

impl Why {
    /// Its number in a text.
    pub fn number(self) -> u8
        ensures { result ≡ why_number self }
    {
        match self {
            Why::Complete => 0,
            Why::NoMemory => 1,
            Why::LogFull => 2,
            Why::LogFile => 3,
        }
    }
}

/// Adds the head of a log of these units, each of a client of so many tags, 2 to 16, and gives its checksum. At a fault `out` is as before.
pub fn write_head(
    alloc: Global,
    tags: usize,
    units: &[FirstUnit],
    out: &mut Vec<u8>,
) -> Result<u32, AllocError>
    requires tags { AreTags tags }
    requires few { length units.now ≤ most_clients tags }
    requires fit { AllByRecursion UnitFits units.now }
    ensures text { OnOk result (out.new.items ≡ out.old.items ++ head_text tags units.now) }
    ensures sum { IfOk result (λ sum. sum ≡ head_sum tags units.now) }
    ensures same { OnErr result (out.new.items ≡ out.old.items) }
{
    let mut head = head_front(alloc, tags, units)?;
    let sum = crc32c(&head);
    put(&mut head, 4, u64::from(sum)).map_err(|_| AllocError)?;
    out.extend_from_slice(&head)?;
    Ok(sum)
}

/// What stands before a head's checksum.
#[tactic(auto, using(crate::proofs::Wider::units_few))]
fn head_front(alloc: Global, tags: usize, units: &[FirstUnit]) -> Result<Vec<u8>, AllocError>
    requires tags { AreTags tags }
    requires few { length units.now ≤ most_clients tags }
    requires fit { AllByRecursion UnitFits units.now }
    ensures { IfOk result (λ front. front.items ≡ head_front tags units.now) }
{
    let mut front = Vec::new(alloc);
    front.extend_from_slice(NAME)?;
    put(&mut front, 2, VERSION).map_err(|_| AllocError)?;
    put(&mut front, 1, tags as u64).map_err(|_| AllocError)?;
    put_units(&mut front, units).map_err(|_| AllocError)?;
    Ok(front)
}

/// Adds the record of a step that acted and gave no reply, behind `before`, and gives its checksum. At a fault `out` is as before.
pub fn write_step(
    alloc: Global,
    step: &Step,
    before: u32,
    out: &mut Vec<u8>,
) -> Result<u32, RecordFault>
    requires { StepFits Second 31 step.now }
    ensures text { OnOk result (out.new.items ≡ out.old.items ++ record_text before (entry_text (Acted step.now None))) }
    ensures sum { IfOk result (λ sum. sum ≡ sum_after before (entry_text (Acted step.now None))) }
    ensures same { OnErr result (out.new.items ≡ out.old.items) }
{
    let mut body = Vec::new(alloc);
    put(&mut body, 1, ACTED).map_err(|_| RecordFault::NoMemory)?;
    put_step(&mut body, step).map_err(|_| RecordFault::NoMemory)?;
    append_record(out, before, &body)
}

/// Adds the record of a Take and the reply that it gave, behind `before`, and gives its checksum. At a fault `out` is as before.
pub fn write_taken(
    alloc: Global,
    step: &Step,
    client: usize,
    reply: &Reply,
    before: u32,
    out: &mut Vec<u8>,
) -> Result<u32, RecordFault>
    requires step { StepFits Second 31 step.now }
    requires reply { ReplyFits 31 (record { client = client; reply = reply.now }) }
    ensures text { OnOk result
        (out.new.items ≡ out.old.items ++ record_text before (entry_text (Acted step.now (Some (record { client = client; reply = reply.now }))))) }
    ensures sum { IfOk result (λ sum. sum ≡ sum_after before (entry_text (Acted step.now (Some (record { client = client; reply = reply.now }))))) }
    ensures same { OnErr result (out.new.items ≡ out.old.items) }
{
    let mut body = Vec::new(alloc);
    put(&mut body, 1, ACTED).map_err(|_| RecordFault::NoMemory)?;
    put_step(&mut body, step).map_err(|_| RecordFault::NoMemory)?;
    put_reply(&mut body, client, reply).map_err(|_| RecordFault::NoMemory)?;
    append_record(out, before, &body)
}

/// Adds the record of a refused step and its refusal's number, behind `before`, and gives its checksum. At a fault `out` is as before.
pub fn write_refused(
    alloc: Global,
    step: &Step,
    number: u8,
    before: u32,
    out: &mut Vec<u8>,
) -> Result<u32, RecordFault>
    requires { StepFits Second 31 step.now }
    ensures text { OnOk result (out.new.items ≡ out.old.items ++ record_text before (entry_text (Refused step.now number))) }
    ensures sum { IfOk result (λ sum. sum ≡ sum_after before (entry_text (Refused step.now number))) }
    ensures same { OnErr result (out.new.items ≡ out.old.items) }
{
    let mut body = Vec::new(alloc);
    put(&mut body, 1, REFUSED).map_err(|_| RecordFault::NoMemory)?;
    put_step(&mut body, step).map_err(|_| RecordFault::NoMemory)?;
    put(&mut body, 1, u64::from(number)).map_err(|_| RecordFault::NoMemory)?;
    append_record(out, before, &body)
}

/// Adds the record of the end of so many steps, behind `before`, and gives its checksum. At a fault `out` is as before.
pub fn write_end(
    alloc: Global,
    steps: u64,
    reason: Why,
    before: u32,
    out: &mut Vec<u8>,
) -> Result<u32, RecordFault>
    ensures text { OnOk result (out.new.items ≡ out.old.items ++ record_text before (end_text steps reason)) }
    ensures sum { IfOk result (λ sum. sum ≡ sum_after before (end_text steps reason)) }
    ensures same { OnErr result (out.new.items ≡ out.old.items) }
{
    let mut body = Vec::new(alloc);
    put(&mut body, 1, END).map_err(|_| RecordFault::NoMemory)?;
    put(&mut body, 8, steps).map_err(|_| RecordFault::NoMemory)?;
    put(&mut body, 1, u64::from(reason.number())).map_err(|_| RecordFault::NoMemory)?;
    append_record(out, before, &body)
}
