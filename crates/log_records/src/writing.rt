//! Records, written.
ghost use Rattle.std.specs.Prelude.{◌≡◌, ◌↔◌, ◌≤◌, ◌<◌, ◌^◌, ◌++◌, Err, IfOk, OnErr, OnOk, length, take};
ghost use Rattle.log_records.specs.Records.{record_text, sum_after};

use crate::RecordFault;
use crate::checksum::Checksum;
use std::alloc::AllocError;

/// The most bytes of a body.
const MOST_BODY_BYTES: usize = 0xffff_ffff;

/// Adds a record to `out`, behind records of which `before` is the last checksum, and gives its own. `TooLong` exactly for a body of
/// 2^32 bytes or more. At a fault `out` is as before.
pub fn append_record(out: &mut Vec<u8>, before: u32, body: &[u8]) -> Result<u32, RecordFault>
    ensures text { OnOk result (out.new.items ≡ out.old.items ++ record_text before body.now) }
    ensures sum { IfOk result (λ sum. sum ≡ sum_after before body.now) }
    ensures long { (result ≡ Err RecordFault.TooLong) ↔ (2 ^ 32 ≤ length body.now) }
    ensures same { OnErr result (out.new.items ≡ out.old.items) }
{
    if body.len() > MOST_BODY_BYTES {
        return Err(RecordFault::TooLong);
    }
    let len = out.len();
    match pushed(out, before, body) {
        Ok(sum) => Ok(sum),
        Err(_) => {
            out.truncate(len);
            Err(RecordFault::NoMemory)
        }
    }
}

/// Adds a record's parts, as far as there is memory.
fn pushed(out: &mut Vec<u8>, before: u32, body: &[u8]) -> Result<u32, AllocError>
    requires { length body.now < 2 ^ 32 }
    ensures text { OnOk result (out.new.items ≡ out.old.items ++ record_text before body.now) }
    ensures sum { IfOk result (λ sum. sum ≡ sum_after before body.now) }
    ensures front { take (length out.old.items) out.new.items ≡ out.old.items }
{
    let len = body.len() as u32;
    let sum = sum_after(before, body);
    out.extend_from_slice(&len.to_be_bytes())?;
    out.extend_from_slice(body)?;
    out.extend_from_slice(&sum.to_be_bytes())?;
    Ok(sum)
}

/// The checksum of a record.
pub(crate) fn sum_after(before: u32, body: &[u8]) -> u32
    requires { length body.now < 2 ^ 32 }
    ensures { result ≡ sum_after before body.now }
{
    let len = body.len() as u32;
    let mut checksum = Checksum::new();
    checksum.add(&len.to_be_bytes());
    checksum.add(body);
    checksum.add(&before.to_be_bytes());
    checksum.value()
}
