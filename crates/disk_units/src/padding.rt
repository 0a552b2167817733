//! Texts in fields of a fixed length.
ghost use Rattle.std.specs.Prelude.{◌≡◌, ◌-◌, ◌≤◌, ◌++◌, true, length, replicate, IfOk};
ghost use Rattle.std.specs.List.{list_all};
ghost use Rattle.disk_units.specs.Names.{name_fault, name_of};
ghost use Rattle.disk_units.specs.Printable.{is_printable};

use crate::NameFault;

/// A name filled up with spaces.
#[tactic(auto, using(crate::proofs::Filled::filled_printable))]
pub(crate) fn padded<const N: usize>(text: &[u8]) -> Result<[u8; N], NameFault>
    ensures name { result ≡ name_of N text.now }
    ensures printable { IfOk result (λ name. list_all is_printable name ≡ true) }
{
    match name_fault(text, N) {
        Some(fault) => Err(fault),
        None => Ok(filled(text, b' ')),
    }
}

/// The first fault of a text for a field of so many bytes.
pub(crate) fn name_fault(text: &[u8], most: usize) -> Option<NameFault>
    ensures { result ≡ name_fault most text.now }
{
    if text.is_empty() {
        Some(NameFault::Empty)
    } else if text.len() > most {
        Some(NameFault::TooLong)
    } else if !are_printable(text) {
        Some(NameFault::NotPrintable)
    } else {
        None
    }
}

/// Bytes filled up with this one.
#[tactic(auto, using(crate::proofs::Filled::filling))]
pub(crate) fn filled<const N: usize>(text: &[u8], with: u8) -> [u8; N]
    requires { length text.now ≤ N }
    ensures { result ≡ text.now ++ replicate (N - length text.now) with }
{
    let mut name = [with; N];
    name[..text.len()].copy_from_slice(text);
    name
}

fn are_printable(text: &[u8]) -> bool
    ensures { result ≡ list_all is_printable text.now }
{
    text.iter().all(|byte| is_printable(*byte))
}

fn is_printable(byte: u8) -> bool
    ensures { result ≡ is_printable byte }
{
    (0x20..=0x7e).contains(&byte)
}
