//! What is made of a transfer event.
ghost use Rattle.std.specs.Prelude.{◌≡◌};
ghost use Rattle.stream_array.specs.Map.{HasRing};
ghost use Rattle.uas_driver.specs.Telling.{endpoint_pipe, failed, failed_td, halted_if, is_noted, is_stopping, is_told, moved_along, names_none};
ghost use Rattle.uas_driver.specs.Telling.{told, told_begun, told_from, told_nowhere, told_on, told_pending, transferred, unless_noted};
ghost use Rattle.uas_driver.specs.Taking.{handed, handing_by, with_told};

use crate::codes::meaning_of;
use crate::rings::{stand, td_tag};
use crate::states::Stage;
use crate::taking::{handing_by, settle};
use crate::{Cause, Driver, EndpointState, Meaning, Taken};
use stream_array::{Pipe, find};
use uas_profile::{
    COMMAND_ENDPOINT, DATA_IN_ENDPOINT, DATA_OUT_ENDPOINT, INVALID_STREAM_ID, SLOT,
    STATUS_ENDPOINT, TRB_ERROR,
};

/// Invalid Stream Type.
const INVALID_STREAM_TYPE: u8 = 10;

/// The pipe of an endpoint.
fn endpoint_pipe(endpoint: u8) -> Option<Pipe>
    ensures { result ≡ endpoint_pipe endpoint }
{
    match endpoint {
        COMMAND_ENDPOINT => Some(Pipe::Command),
        STATUS_ENDPOINT => Some(Pipe::Status),
        DATA_OUT_ENDPOINT => Some(Pipe::DataOut),
        DATA_IN_ENDPOINT => Some(Pipe::DataIn),
        _ => None,
    }
}

/// Whether an event may name no TRB, and names none.
fn names_none(pointer: u64, code: u8, slot: u8) -> bool
    ensures { result ≡ names_none pointer code slot }
{
    pointer == 0
        && (code == TRB_ERROR || code == INVALID_STREAM_TYPE || code == INVALID_STREAM_ID)
        && slot == SLOT
}

/// Whether a meaning is of a TRB.
fn is_told(meaning: Meaning) -> bool
    ensures { result ≡ is_told meaning }
{
    !matches!(meaning, Meaning::Stray)
}

fn is_noted(taken: Taken) -> bool
    ensures { result ≡ is_noted taken }
{
    matches!(taken, Taken::Noted)
}

impl Driver {
    /// Whether a recovery waits for Stop Endpoint on a pipe.
    fn is_stopping(&self, pipe: Pipe) -> bool
        ensures { result ≡ is_stopping self.now pipe }
    {
        match self.recovery {
            Some(recovery) => {
                recovery.pipe.number() == pipe.number() && matches!(recovery.stage, Stage::Stopping)
            }
            None => false,
        }
    }

    /// The TD of a tag failed.
    fn fail_td(&mut self, pipe: Pipe, code: u8, halted: bool, tag: u16)
        ensures { self.new ≡ failed_td self.old pipe code halted tag }
    {
        if halted {
            self.end(tag, Cause::Failed(code));
        } else {
            self.lose_td(pipe, code, tag);
        }
    }

    /// A TD's endpoint is halted, or runs on.
    fn halt_if(&mut self, halted: bool, pipe: Pipe)
        ensures { self.new ≡ halted_if halted self.old pipe }
    {
        if halted {
            self.endpoints.set(pipe, EndpointState::Halted);
        }
    }

    /// The TD of the TRB at which a ring's consumer stands failed.
    fn fail(&mut self, pipe: Pipe, stream: u16, code: u8, halted: bool)
        ensures { self.new ≡ failed self.old pipe stream code halted }
    {
        if let Some(tag) = td_tag(&self.lines, pipe, stream) {
            self.fail_td(pipe, code, halted, tag);
        }
        self.halt_if(halted, pipe);
    }

    /// What an event says of a TRB that didn't fail.
    fn move_along(
        &mut self,
        pipe: Pipe,
        stream: u16,
        pointer: u64,
        residual: u32,
        meaning: Meaning,
    ) -> Taken
        requires { HasRing pipe stream }
        ensures { (self.new, result) ≡ moved_along self.old pipe stream pointer residual meaning }
    {
        let handing = handing_by(&self.lines, pipe, stream, pointer, residual, meaning);
        settle(&mut self.lines, pipe, stream, meaning);
        self.hand(handing)
    }

    /// What an event says of the TRB at which its ring's consumer stands.
    fn tell(
        &mut self,
        pipe: Pipe,
        stream: u16,
        pointer: u64,
        residual: u32,
        code: u8,
        meaning: Meaning,
    ) -> Taken
        requires { HasRing pipe stream }
        ensures { (self.new, result) ≡ told self.old pipe stream pointer residual code meaning }
    {
        match meaning {
            Meaning::Failed { halted } => {
                self.fail(pipe, stream, code, halted);
                Taken::Noted
            }
            Meaning::Consumed | Meaning::NotConsumed | Meaning::EndedShort | Meaning::Stray => {
                self.move_along(pipe, stream, pointer, residual, meaning)
            }
        }
    }

    /// The same of the pending TRB at its pointer, at which its ring's consumer stands now.
    fn tell_pending(
        &mut self,
        pointer: u64,
        residual: u32,
        code: u8,
        meaning: Meaning,
        pipe: Pipe,
        stream: u16,
    ) -> Taken
        requires { HasRing pipe stream }
        ensures { (self.new, result)
            ≡ told (with_told self.old pipe stream code residual) pipe stream pointer residual code meaning }
    {
        self.keep_moved(pipe, stream, code, residual);
        self.tell(pipe, stream, pointer, residual, code, meaning)
    }

    /// Hands the host an event of a consumed TRB; what it doesn't wait for is stray.
    fn hand_begun(
        &mut self,
        pipe: Pipe,
        stream: u16,
        pointer: u64,
        residual: u32,
        meaning: Meaning,
    ) -> Taken
        requires { HasRing pipe stream }
        ensures { (self.new, result)
            ≡ unless_noted (handed self.old (handing_by self.old.lines pipe stream pointer residual meaning)) }
    {
        let handing = handing_by(&self.lines, pipe, stream, pointer, residual, meaning);
        let taken = self.hand(handing);
        if is_noted(taken) {
            return self.stray();
        }
        taken
    }

    /// The same of the consumed TRB at its pointer.
    fn tell_begun(
        &mut self,
        pipe: Pipe,
        stream: u16,
        pointer: u64,
        residual: u32,
        meaning: Meaning,
    ) -> Taken
        requires { HasRing pipe stream }
        ensures { (self.new, result) ≡ told_begun self.old pipe stream pointer residual meaning }
    {
        match meaning {
            Meaning::Consumed => {
                self.hand_begun(pipe, stream, pointer, residual, Meaning::Consumed)
            }
            Meaning::EndedShort => {
                self.hand_begun(pipe, stream, pointer, residual, Meaning::EndedShort)
            }
            Meaning::Failed { halted } => {
                self.halt_if(halted, pipe);
                Taken::Noted
            }
            Meaning::NotConsumed | Meaning::Stray => self.stray(),
        }
    }

    /// The same of the TRB at its pointer, where its TD is pending or begun.
    fn tell_on(
        &mut self,
        pointer: u64,
        residual: u32,
        code: u8,
        meaning: Meaning,
        pipe: Pipe,
        stream: u16,
    ) -> Taken
        requires { HasRing pipe stream }
        ensures { (self.new, result) ≡ told_on self.old pointer residual code meaning pipe stream }
    {
        if is_told(meaning) && stand(&mut self.lines, pipe, stream, pointer) {
            return self.tell_pending(pointer, residual, code, meaning, pipe, stream);
        }
        if self.lines.consumed(pipe, stream, pointer).is_some() {
            self.tell_begun(pipe, stream, pointer, residual, meaning)
        } else {
            self.stray()
        }
    }

    /// The same of an event from an endpoint and a slot.
    fn tell_from(
        &mut self,
        pointer: u64,
        residual: u32,
        code: u8,
        endpoint: u8,
        slot: u8,
        pipe: Pipe,
        stream: u16,
    ) -> Taken
        requires { HasRing pipe stream }
        ensures { (self.new, result) ≡ told_from self.old pointer residual code endpoint slot pipe stream }
    {
        if endpoint == pipe.target() && slot == SLOT {
            let meaning = meaning_of(pipe, self.is_stopping(pipe), code);
            self.tell_on(pointer, residual, code, meaning, pipe, stream)
        } else {
            self.stray()
        }
    }

    /// An event whose pointer is no ring's place.
    fn tell_nowhere(&mut self, pointer: u64, code: u8, endpoint: u8, slot: u8) -> Taken
        ensures { (self.new, result) ≡ told_nowhere self.old pointer code endpoint slot }
    {
        if !names_none(pointer, code, slot) {
            return self.stray();
        }
        match endpoint_pipe(endpoint) {
            Some(pipe) => {
                self.endpoints.set(pipe, EndpointState::Halted);
                Taken::Noted
            }
            None => self.stray(),
        }
    }

    /// Takes in a transfer event.
    pub(crate) fn transfer(
        &mut self,
        pointer: u64,
        residual: u32,
        code: u8,
        endpoint: u8,
        slot: u8,
    ) -> Taken
        ensures { (self.new, result) ≡ transferred self.old pointer residual code endpoint slot }
    {
        match find(pointer) {
            Some((pipe, stream, _)) => {
                self.tell_from(pointer, residual, code, endpoint, slot, pipe, stream)
            }
            None => self.tell_nowhere(pointer, code, endpoint, slot),
        }
    }
}
