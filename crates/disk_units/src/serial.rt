//! The serial number of a logical unit, in characters of its user's.
ghost use Rattle.std.specs.Prelude.{◌≡◌, ◌≤◌, length};
ghost use Rattle.disk_units.specs.Names.{serial_of, serial_text};

use crate::NameFault;
use crate::padding::{filled, name_fault};

/// The most characters of a serial number.
const SERIAL_BYTES: usize = 36;

/// A serial number of 1 to 36 printable ASCII characters.
#[derive(Clone, Copy, Debug, PartialEq, Eq)]
pub struct SerialText {
    field: [u8; SERIAL_BYTES],
    size: usize,
}

impl SerialText {
    /// This serial number. Refused with `Empty`, with `TooLong` above 36 bytes, and with `NotPrintable`.
    pub fn new(text: &str) -> Result<SerialText, NameFault>
        ensures { result ≡ serial_of text.now }
    {
        SerialText::of_bytes(text.as_bytes())
    }

    /// The same of a text in bytes.
    pub fn of_bytes(text: &[u8]) -> Result<SerialText, NameFault>
        ensures { result ≡ serial_of text.now }
    {
        match name_fault(text, SERIAL_BYTES) {
            Some(fault) => Err(fault),
            None => Ok(SerialText {
                field: filled(text, 0),
                size: text.len(),
            }),
        }
    }

    /// Its characters.
    pub fn as_slice(&self) -> &[u8]
        ensures text { result.now ≡ serial_text self.now }
        ensures most { length result.now ≤ 36 }
    {
        &self.field[..self.size.min(SERIAL_BYTES)]
    }
}
