//! A sink that gets a text in colours.

ghost use Rattle.std.specs.Prelude.{◌≡◌};

use crate::coloured;
use byte_io::{Sink, StreamFault};
use std::alloc::Global;

/// A sink that a text of whole lines is written to in colours, or as it is.
#[derive(Drop)]
pub struct Painted<O: Sink> {
    sink: O,
    alloc: Global,
    is_coloured: bool,
}

impl<O: Sink> Painted<O> {
    pub fn new(alloc: Global, sink: O, is_coloured: bool) -> Painted<O>
        ensures { (result.sink ≡ sink) × (result.is_coloured ≡ is_coloured) }
    {
        Painted {
            sink,
            alloc,
            is_coloured,
        }
    }
}

impl<O: Sink> Sink for Painted<O> {
    ghost use Rattle.std.specs.Prelude.{None, if◌then◌else◌};

    // What was written is known where it goes on as it is.
    ghost written = { λ painted. if painted.is_coloured then None else O.written painted.sink };

    ghost can_fail = { λ painted. O.can_fail painted.sink };

    ghost is_there = { λ painted. O.is_there painted.sink };

    ghost is_of = { λ painted. O.is_of painted.sink };

    fn write(&mut self, bytes: &[u8]) -> Result<(), StreamFault> {
        if !self.is_coloured {
            return self.sink.write(bytes);
        }
        let Ok(text) = coloured(self.alloc, bytes) else {
            return Err(StreamFault::NoMemory);
        };
        self.sink.write(&text)
    }
}
