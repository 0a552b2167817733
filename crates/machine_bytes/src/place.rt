//! Where the next byte is written.
ghost use Rattle.std.specs.Prelude.{◌≡◌, ◌+◌, ◌<◌, ◌≤◌, [], ◌∷◌, ◌++◌, length, take, drop};
ghost use Rattle.machine_bytes.specs.Forms.{counted, flag, flag_number, number};
ghost use Rattle.machine_bytes.specs.Places.{written};

/// Where the next byte goes, and how many cells all bytes so far need.
#[derive(Clone, Copy, Debug, PartialEq, Eq)]
pub struct Place {
    pub at: usize,
    pub needs: usize,
}

impl Place {
    /// At the front.
    pub fn first() -> Place
        ensures { result ≡ record { at = 0; needs = 0 } }
    {
        Place { at: 0, needs: 0 }
    }

    /// Writes bytes, as far as there is room.
    #[tactic(auto, using(crate::proofs::Placed::written_is))]
    pub fn write(self, cells: &mut [u8], bytes: &[u8]) -> Place
        ensures { (cells.new, result) ≡ written (cells.old, self) bytes.now }
    {
        let at = self.at.min(cells.len());
        let count = bytes.len().min(cells.len() - at);
        put(cells, at, &bytes[..count]);
        Place {
            at: at + count,
            needs: self.needs.saturating_add(bytes.len()),
        }
    }

    /// Writes a number of a byte.
    pub fn u8(self, cells: &mut [u8], value: u8) -> Place
        ensures { (cells.new, result) ≡ (number 1).write (cells.old, self) value }
    {
        self.write(cells, &[value])
    }

    /// Writes a number of two bytes.
    pub fn u16(self, cells: &mut [u8], value: u16) -> Place
        ensures { (cells.new, result) ≡ (number 2).write (cells.old, self) value }
    {
        self.write(cells, &value.to_be_bytes())
    }

    /// Writes a number of four bytes.
    pub fn u32(self, cells: &mut [u8], value: u32) -> Place
        ensures { (cells.new, result) ≡ (number 4).write (cells.old, self) value }
    {
        self.write(cells, &value.to_be_bytes())
    }

    /// Writes a number of eight bytes.
    pub fn u64(self, cells: &mut [u8], value: u64) -> Place
        ensures { (cells.new, result) ≡ (number 8).write (cells.old, self) value }
    {
        self.write(cells, &value.to_be_bytes())
    }

    /// Writes a kind, a number in a byte.
    pub fn kind(self, cells: &mut [u8], kind: u8) -> Place
        ensures { (cells.new, result) ≡ written (cells.old, self) (kind ∷ []) }
    {
        self.write(cells, &[kind])
    }

    /// Writes less than 256 bytes behind their number, which has a byte.
    pub fn counted_u8(self, cells: &mut [u8], bytes: &[u8]) -> Place
        requires { length bytes.now < 256 }
        ensures { (cells.new, result) ≡ (counted 1 255).write (cells.old, self) bytes.now }
    {
        let place = self.u8(cells, bytes.len() as u8);
        place.write(cells, bytes)
    }

    /// Writes less than 65,536 bytes behind their number, which has two bytes.
    pub fn counted_u16(self, cells: &mut [u8], bytes: &[u8]) -> Place
        requires { length bytes.now < 65536 }
        ensures { (cells.new, result) ≡ (counted 2 65535).write (cells.old, self) bytes.now }
    {
        let place = self.u16(cells, bytes.len() as u16);
        place.write(cells, bytes)
    }

    /// Writes a flag.
    pub fn flag(self, cells: &mut [u8], value: bool) -> Place
        ensures { (cells.new, result) ≡ flag.write (cells.old, self) value }
    {
        self.write(cells, &[flag_number(value)])
    }
}

/// The byte of a flag.
fn flag_number(value: bool) -> u8
    ensures { result ≡ flag_number value }
{
    if value { 1 } else { 0 }
}

/// Puts bytes in the place of as many, from a place on.
#[tactic(auto, using(crate::proofs::Placed::whole))]
fn put(cells: &mut [u8], at: usize, bytes: &[u8])
    requires { at + length bytes.now ≤ length cells.old }
    ensures { cells.new ≡ take at cells.old ++ (bytes.now ++ drop (at + length bytes.now) cells.old) }
{
    cells[at..at + bytes.len()].copy_from_slice(bytes);
}
