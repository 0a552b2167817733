//! Standard output and standard error as those meet them who read them: in silence where the reader is gone, and with a line more
//! for a person.

use byte_io::{Sink, StreamFault};
use std::cell::Cell;
use std::io;
use std::io::{ErrorKind, Write};

/// How many bytes of a line are kept, to find what to say of it.
const LINE_BYTES: usize = 64;

/// What is noted of standard output.
#[derive(Drop)]
pub struct Noted {
    /// Whether whoever read it is gone.
    pub is_unread: Cell<bool>,
    /// Why it couldn't be written.
    pub failure: Cell<Option<ErrorKind>>,
}

/// Standard output. It notes that whoever read it is gone, and why it couldn't be written.
#[derive(Drop)]
pub struct Output<'a, W: Write> {
    writer: W,
    noted: &'a Noted,
}

impl<'a, W: Write> Output<'a, W> {
    /// The output of a writer, of which this is noted.
    pub fn new(writer: W, noted: &'a Noted) -> Output<'a, W> {
        Output { writer, noted }
    }

    fn write_whole(&mut self, bytes: &[u8]) -> io::Result<()> {
        self.writer.write_all(bytes)?;
        self.writer.flush()
    }
}

impl<W: Write> Sink for Output<'_, W> {
    ghost use Rattle.std.specs.Prelude.{None, true};

    ghost written = { λ _. None };

    ghost can_fail = { λ _. true };

    ghost is_there = { λ _. true };

    ghost is_of = { λ _ _. true };

    fn write(&mut self, bytes: &[u8]) -> Result<(), StreamFault> {
        match self.write_whole(bytes) {
            Ok(()) => Ok(()),
            Err(error) => {
                if error.kind() == ErrorKind::BrokenPipe {
                    self.noted.is_unread.set(true);
                }
                self.noted.failure.set(Some(error.kind()));
                Err(StreamFault::File)
            }
        }
    }
}

/// Standard error. It says nothing once nobody reads standard output: a program ends in silence then, as any filter does. It keeps
/// the front of its last line.
#[derive(Drop)]
pub struct Faults<'a, W: Write> {
    writer: W,
    is_unread: &'a Cell<bool>,
    line: [u8; LINE_BYTES],
    length: usize,
    is_ended: bool,
}

impl<'a, W: Write> Faults<'a, W> {
    /// The faults of a writer, with the cell of the output beside it.
    pub fn new(writer: W, is_unread: &'a Cell<bool>) -> Faults<'a, W> {
        Faults {
            writer,
            is_unread,
            line: [0; LINE_BYTES],
            length: 0,
            is_ended: false,
        }
    }

    /// The front of the last line.
    pub fn last_line(&self) -> &[u8] {
        self.line.get(..self.length).unwrap_or(b"")
    }

    fn keep(&mut self, byte: u8) {
        if self.is_ended {
            self.length = 0;
            self.is_ended = false;
        }
        if byte == b'\n' {
            self.is_ended = true;
            return;
        }
        if let Some(place) = self.line.get_mut(self.length) {
            *place = byte;
            self.length = self.length.saturating_add(1);
        }
    }
}

impl<W: Write> Write for Faults<'_, W> {
    fn write(&mut self, buf: &[u8]) -> io::Result<usize> {
        if self.is_unread.get() {
            return Ok(buf.len());
        }
        let count = self.writer.write(buf)?;
        for byte in &buf[..count] {
            self.keep(*byte);
        }
        Ok(count)
    }

    fn flush(&mut self) -> io::Result<()> {
        self.writer.flush()
    }
}
