//! The fields that a log's text is made of, written one by one.
ghost use Rattle.std.specs.Prelude.{◌≡◌, ◌≤◌, ◌<◌, ◌^◌, length, OnOk};
ghost use Rattle.log_text.specs.Text.{BufferFits, buffer_text, field};
ghost use Rattle.log_text.specs.Writing.{Wrote};

use byteorder::{BigEndian, WriteBytesExt};
use scsi_cmd::Buffer;
use std::io;
use std::io::Write;

/// A number of `len` bytes. Asks that it has room in them.
#[tactic(auto, unfolding(crate::specs::Text::field))]
pub fn put<W: Write>(out: &mut W, len: usize, number: u64) -> io::Result<()>
    requires some { 1 ≤ len }
    requires few { len ≤ 8 }
    requires small { number < 256 ^ len }
    ensures { OnOk result (Wrote W.contents out.old out.new (field len number)) }
{
    out.write_uint::<BigEndian>(number, len)
}

/// Bytes as they are.
pub(crate) fn put_bytes<W: Write>(out: &mut W, bytes: &[u8]) -> io::Result<()>
    ensures { OnOk result (Wrote W.contents out.old out.new bytes.now) }
{
    out.write_all(bytes)
}

/// A buffer behind its length.
pub(crate) fn put_buffer<W: Write>(out: &mut W, buffer: &Buffer) -> io::Result<()>
    requires { BufferFits buffer.now }
    ensures { OnOk result (Wrote W.contents out.old out.new (buffer_text buffer.now)) }
{
    put(out, 4, buffer.len() as u64)?;
    put_bytes(out, buffer.as_slice())?;
    Ok(())
}
