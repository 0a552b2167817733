//! A saved text: its head and its checksum, around a body.
ghost use Rattle.std.specs.Prelude.{◌≡◌, ◌≤◌, IfErr, IfOk, Err, Ok, length};
ghost use Rattle.machine_bytes.specs.Sealed.{head_write, opened, sum_in, summed};

use crate::place::Place;
use byteorder::{BigEndian, ByteOrder};
use log_records::checksum::crc32c;
use thiserror::Error;

/// What a saved text begins with.
const MAGIC: [u8; 6] = *b"UASXHC";

/// The version that is written, and the only one there is.
const VERSION: u16 = 1;

/// Bytes of the head.
const HEAD_BYTES: usize = 12;

/// Bytes of the checksum.
const SUM_BYTES: usize = 4;

/// Why bytes are no saved text: the first of these that holds.
#[derive(Clone, Copy, Debug, PartialEq, Eq, Error)]
pub enum SealFault {
    #[error("fewer bytes than a head and a checksum have")]
    Short,
    #[error("another beginning than that of a saved text")]
    Magic,
    #[error("a version that isn't known")]
    Version,
    #[error("another length than the head says")]
    Length,
    #[error("another checksum than the bytes have")]
    Sum,
}

/// Writes the head of a text that has so many bytes in all.
pub fn write_head(place: Place, cells: &mut [u8], length: u32) -> Place
    ensures { (cells.new, result) ≡ head_write (cells.old, place) length }
{
    let place = place.write(cells, &MAGIC);
    let place = place.u16(cells, VERSION);
    place.u32(cells, length)
}

/// The body of a saved text. Refused with the first fault that bytes have.
#[tactic(auto, unfolding(crate::specs::Sealed::opened))]
pub fn opened(bytes: &[u8]) -> Result<&[u8], SealFault>
    ensures body { IfOk result (λ body. opened bytes.now ≡ Ok body.now) }
    ensures fault { IfErr result (λ fault. opened bytes.now ≡ Err fault) }
{
    if bytes.len() < HEAD_BYTES + SUM_BYTES {
        return Err(SealFault::Short);
    }
    if !bytes.starts_with(&MAGIC) {
        return Err(SealFault::Magic);
    }
    if BigEndian::read_u16(&bytes[6..]) != VERSION {
        return Err(SealFault::Version);
    }
    if BigEndian::read_u32(&bytes[8..]) as usize != bytes.len() {
        return Err(SealFault::Length);
    }
    if crc32c(summed(bytes)) != sum_in(bytes) {
        return Err(SealFault::Sum);
    }
    Ok(&summed(bytes)[HEAD_BYTES..])
}

/// The bytes before the checksum.
fn summed(bytes: &[u8]) -> &[u8]
    requires { 16 ≤ length bytes.now }
    ensures bytes { result.now ≡ summed bytes.now }
    ensures len { 12 ≤ length result.now }
{
    &bytes[..bytes.len() - SUM_BYTES]
}

/// The checksum.
fn sum_in(bytes: &[u8]) -> u32
    requires { 16 ≤ length bytes.now }
    ensures { result ≡ sum_in bytes.now }
{
    BigEndian::read_u32(&bytes[bytes.len() - SUM_BYTES..])
}
