//! The head of a text.
ghost use Rattle.std.specs.Prelude.{◌≡◌, ◌+◌, ◌-◌, ◌≤◌, [], IfErr, IfOk, length};
ghost use Rattle.log_text.specs.Reading.{Gives};
ghost use Rattle.kept_log.specs.Loading.{IsRefusedBy, StandsIn};
ghost use Rattle.kept_log.specs.Form.{head_sum};
ghost use Rattle.kept_log.specs.Reading.{head_at};

use crate::KeptFault;
use log_records::checksum::crc32c;
use log_text::{LogFault, Stop, read_field, read_first_units, read_number};
use std::alloc::Global;
use uas_log::FirstUnit;
use uas_profile::{LEAST_TAGS, MOST_TAGS, most_clients};

/// `UASLOG`, as the number that its codes are.
const NAME: u64 = 0x5541_534c_4f47;

/// The version of this form.
const VERSION: u64 = 3;

/// How many bytes a checksum has, and the greatest.
const SUM_BYTES: usize = 4;

const MOST_SUM: u64 = 0xffff_ffff;

/// How many tags each client has, the units and the checksum of a head, and the bytes behind it.
#[tactic(auto, unfolding(crate::specs::Reading::head_at))]
fn parts(alloc: Global, text: &[u8]) -> Result<(usize, Vec<FirstUnit>, u32, &[u8]), Stop>
    ensures { Gives (λ read. (record { tags = read.0; units = read.1.items; sum = read.2 }, read.3.now)) result (head_at text.now) }
{
    let (_, rest) = read_number(text, LogFault::BadHeader, 6, NAME, NAME)?;
    let (_, rest) = read_number(rest, LogFault::BadHeader, 2, VERSION, VERSION)?;
    let (least, most) = (LEAST_TAGS as u64, MOST_TAGS as u64);
    let (tags, rest) = read_number(rest, LogFault::BadHeader, 1, least, most)?;
    let (units, rest) = read_first_units(alloc, most_clients(tags as usize) as u8, rest)?;
    let (sum, rest) = read_field(rest, SUM_BYTES, 0, MOST_SUM)?;
    Ok((tags as usize, units, sum as u32, rest))
}

/// How many tags each client has, the units and the checksum of a head, which is right, and the bytes behind it.
pub(crate) fn head(
    alloc: Global,
    text: &[u8],
) -> Result<(usize, Vec<FirstUnit>, u32, &[u8]), KeptFault>
    ensures stand { IfOk result (λ read. StandsIn text.now read.0 read.1.items [] (length text.now - length read.3.now) read.3.now) }
    ensures sum { IfOk result (λ read. read.2 ≡ head_sum read.0 read.1.items) }
    ensures fault { IfErr result (IsRefusedBy text.now) }
{
    let (tags, units, sum, rest) = match parts(alloc, text) {
        Ok(read) => read,
        Err(Stop::Memory) => return Err(KeptFault::NoMemory),
        Err(Stop::Fault(fault)) => return Err(KeptFault::Head(fault)),
    };
    let front = text.len() - rest.len() - SUM_BYTES;
    if crc32c(&text[..front]) != sum {
        return Err(KeptFault::HeadSum);
    }
    Ok((tags, units, sum, rest))
}
