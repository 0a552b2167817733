//! World-wide names of a logical unit (SPC, designation descriptors).
ghost use Rattle.std.specs.Prelude.{◌≡◌, ◌≤◌, length};
ghost use Rattle.disk_units.specs.Designators.{eui_name, eui_of, kind_of, naa_name, naa_of};

use crate::DiskFault;
use crate::padding::filled;

/// The most bytes of a name.
const NAME_BYTES: usize = 16;

/// A name of the form NAA: its highest four bits are 2, 3 or 5 in one of 8 bytes, and 6 in one of 16.
#[derive(Clone, Copy, Debug, PartialEq, Eq)]
pub struct Naa {
    field: [u8; NAME_BYTES],
    is_long: bool,
}

impl Naa {
    /// This name. Refused with `DiskFault::Naa` where its highest four bits or its length are others.
    pub fn new(name: &[u8]) -> Result<Naa, DiskFault>
        ensures { result ≡ naa_of name.now }
    {
        match (name.len(), kind_of(name)) {
            (8, 2 | 3 | 5) => Ok(Naa {
                field: filled(name, 0),
                is_long: false,
            }),
            (16, 6) => Ok(Naa {
                field: filled(name, 0),
                is_long: true,
            }),
            _ => Err(DiskFault::Naa),
        }
    }

    /// Its bytes.
    pub fn as_slice(&self) -> &[u8]
        ensures name { result.now ≡ naa_name self.now }
        ensures most { length result.now ≤ 16 }
    {
        if self.is_long {
            &self.field
        } else {
            &self.field[..8]
        }
    }
}

/// A name of the form EUI-64, of 8, 12 or 16 bytes.
#[derive(Clone, Copy, Debug, PartialEq, Eq)]
pub struct Eui {
    field: [u8; NAME_BYTES],
    size: usize,
}

impl Eui {
    /// This name. Refused with `DiskFault::Eui` where its length is another.
    pub fn new(name: &[u8]) -> Result<Eui, DiskFault>
        ensures { result ≡ eui_of name.now }
    {
        match name.len() {
            8 | 12 | 16 => Ok(Eui {
                field: filled(name, 0),
                size: name.len(),
            }),
            _ => Err(DiskFault::Eui),
        }
    }

    /// Its bytes.
    pub fn as_slice(&self) -> &[u8]
        ensures name { result.now ≡ eui_name self.now }
        ensures most { length result.now ≤ 16 }
    {
        &self.field[..self.size.min(NAME_BYTES)]
    }
}

/// A UUID (RFC 4122).
#[derive(Clone, Copy, Debug, PartialEq, Eq)]
pub struct Uuid {
    pub bytes: [u8; NAME_BYTES],
}

/// The highest four bits of a name; 0 of none.
fn kind_of(name: &[u8]) -> u8
    ensures { result ≡ kind_of name.now }
{
    match name.first() {
        Some(first) => first >> 4,
        None => 0,
    }
}
