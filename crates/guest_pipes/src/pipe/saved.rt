//! A pipe as plain values, and one made of such.
ghost use Rattle.std.specs.Prelude.{◌≡◌, ◌≤◌, IfOk, length};

use crate::consumer::EndpointState;
use crate::pipe::{Pipe, STREAM_CONTEXTS};
use crate::progress::Progress;
use std::alloc::{AllocError, Global};

/// What a pipe is, beside its rings.
#[derive(Clone, Copy, Debug, PartialEq, Eq)]
pub struct PipeHead {
    pub endpoint: u8,
    pub state: EndpointState,
    pub array: u64,
    pub streams: u16,
    pub invalid: bool,
}

impl Pipe {
    /// What it is, beside its rings.
    pub fn head(&self) -> PipeHead
        ensures head { result ≡ record {
          endpoint = self.now.endpoint;
          state = self.now.state;
          array = self.now.array;
          streams = self.now.streams;
          invalid = self.now.invalid;
        } }
        ensures few { self.now.streams ≤ 256 }
    {
        PipeHead {
            endpoint: self.endpoint,
            state: self.state,
            array: self.array,
            streams: self.streams,
            invalid: self.invalid,
        }
    }

    /// Whether each ring's doorbell is rung.
    pub fn doorbells(&self) -> &[bool]
        ensures doorbells { result.now ≡ self.now.rung }
        ensures len { length self.now.rung ≡ 256 }
    {
        &self.rung
    }

    /// What is opaque of each ring.
    pub fn progresses(&self) -> &[Progress]
        ensures progresses { result.now ≡ self.now.progress }
        ensures len { length self.now.progress ≡ 256 }
    {
        &self.progress
    }

    /// A pipe with these rings. The error is want of memory.
    pub fn restored(
        alloc: Global,
        head: PipeHead,
        rung: &[bool; STREAM_CONTEXTS],
        progress: &[Progress],
    ) -> Result<Pipe, AllocError>
        requires few { head.streams ≤ 256 }
        requires rings { length progress.now ≡ 256 }
        ensures { IfOk result (λ pipe. pipe ≡ record {
          endpoint = head.endpoint;
          state = head.state;
          array = head.array;
          streams = head.streams;
          invalid = head.invalid;
          rung = rung.now;
          progress = progress.now;
        }) }
    {
        let mut kept = Vec::new(alloc);
        kept.extend_from_slice(progress)?;
        Ok(Pipe {
            endpoint: head.endpoint,
            state: head.state,
            array: head.array,
            streams: head.streams,
            invalid: head.invalid,
            rung: *rung,
            progress: kept,
        })
    }
}
