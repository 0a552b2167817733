//! A sink that gets a text as objects.

ghost use Rattle.std.specs.Prelude.{◌≡◌};

use crate::{Form, objects};
use byte_io::{Sink, StreamFault};
use std::alloc::Global;

/// A sink that a text of whole lines is written to as objects, or as it is.
#[derive(Drop)]
pub struct Objects<O: Sink> {
    sink: O,
    alloc: Global,
    form: Option<Form>,
}

impl<O: Sink> Objects<O> {
    pub fn new(alloc: Global, sink: O, form: Option<Form>) -> Objects<O>
        ensures { (result.sink ≡ sink) × (result.form ≡ form) }
    {
        Objects { sink, alloc, form }
    }
}

impl<O: Sink> Sink for Objects<O> {
    ghost use Rattle.std.specs.Prelude.{None, is_some, if◌then◌else◌};

    // What was written is known where it goes on as it is.
    ghost written = { λ told. if is_some told.form then None else O.written told.sink };

    ghost can_fail = { λ told. O.can_fail told.sink };

    ghost is_there = { λ told. O.is_there told.sink };

    ghost is_of = { λ told. O.is_of told.sink };

    fn write(&mut self, bytes: &[u8]) -> Result<(), StreamFault> {
        let Some(form) = self.form else {
            return self.sink.write(bytes);
        };
        let Ok(text) = objects(self.alloc, form, bytes) else {
            return Err(StreamFault::NoMemory);
        };
        self.sink.write(&text)
    }
}
