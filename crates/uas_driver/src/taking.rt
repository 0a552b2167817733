//! What a transfer event does to its ring, and what the host is handed for it.
ghost use Rattle.std.specs.Prelude.{◌≡◌, false};
ghost use Rattle.stream_array.specs.Map.{HasRing};
ghost use Rattle.uas_driver.specs.Taking.{done_code, handed, handing_by, is_data, lines_by, strayed, taken, with_told};

use crate::codes::moved_by;
use crate::rings::{last_address, pass_all, step_over};
use crate::{Driver, Meaning, Taken};
use stream_array::{Lines, Pipe};
use uas_host::Handled;
use uas_profile::{SHORT_PACKET, SUCCESS};

/// The transfer event that the host is handed, by the address of its TRB, its residual and its code.
#[derive(Clone, Copy)]
pub(crate) struct Handing {
    pub pointer: u64,
    pub residual: u32,
    pub code: u8,
}

fn is_data(pipe: Pipe) -> bool
    ensures { result ≡ is_data pipe }
{
    match pipe {
        Pipe::Command | Pipe::Status => false,
        Pipe::DataIn | Pipe::DataOut => true,
    }
}

fn done_code(pipe: Pipe) -> u8
    ensures { result ≡ done_code pipe }
{
    match pipe {
        Pipe::Status => SHORT_PACKET,
        Pipe::Command | Pipe::DataIn | Pipe::DataOut => SUCCESS,
    }
}

/// The rings once an event said this of the TRB at which a ring's consumer stands.
pub(crate) fn settle(lines: &mut Lines, pipe: Pipe, stream: u16, meaning: Meaning)
    requires { HasRing pipe stream }
    ensures { lines.new ≡ lines_by lines.old pipe stream meaning }
{
    match meaning {
        Meaning::Consumed => step_over(lines, pipe, stream),
        Meaning::EndedShort => {
            if is_data(pipe) {
                pass_all(lines, pipe, stream);
            } else {
                step_over(lines, pipe, stream);
            }
        }
        Meaning::NotConsumed | Meaning::Failed { .. } | Meaning::Stray => {}
    }
}

/// What the host is handed for an event that says this.
pub(crate) fn handing_by(
    lines: &Lines,
    pipe: Pipe,
    stream: u16,
    pointer: u64,
    residual: u32,
    meaning: Meaning,
) -> Option<Handing>
    requires { HasRing pipe stream }
    ensures { result ≡ handing_by lines.now pipe stream pointer residual meaning }
{
    match meaning {
        Meaning::Consumed => Some(Handing {
            pointer,
            residual: 0,
            code: done_code(pipe),
        }),
        Meaning::EndedShort => {
            if is_data(pipe) {
                Some(Handing {
                    pointer: last_address(lines, pipe, stream),
                    residual: 0,
                    code: SUCCESS,
                })
            } else {
                Some(Handing {
                    pointer,
                    residual,
                    code: SHORT_PACKET,
                })
            }
        }
        Meaning::NotConsumed | Meaning::Failed { .. } | Meaning::Stray => None,
    }
}

/// What the host made of what it was handed.
fn taken(handled: Handled) -> Taken
    ensures { result ≡ taken handled }
{
    match handled {
        Handled::Matched(tag) => Taken::Matched(tag),
        Handled::Engine => Taken::Engine,
        Handled::Stray => Taken::Noted,
    }
}

impl Driver {
    /// Counts a stray event.
    pub(crate) fn stray(&mut self) -> Taken
        ensures { (self.new, result) ≡ strayed self.old }
    {
        self.strays = self.strays.saturating_add(1);
        Taken::Stray
    }

    /// Hands the host an event.
    pub(crate) fn hand(&mut self, handing: Option<Handing>) -> Taken
        ensures { (self.new, result) ≡ handed self.old handing }
    {
        let Some(event) = handing else {
            return Taken::Noted;
        };
        taken(
            self.host.on_transfer(
                &mut self.lines,
                &self.frames,
                event.pointer,
                event.residual,
                event.code,
            ),
        )
    }

    /// Keeps how many bytes of a data TD were moved, by an event of the TRB at which its ring's consumer stands.
    pub(crate) fn keep_moved(&mut self, pipe: Pipe, stream: u16, code: u8, residual: u32)
        requires { HasRing pipe stream }
        ensures { self.new ≡ with_told self.old pipe stream code residual }
    {
        if !is_data(pipe) {
            return;
        }
        let Some((_, trb)) = self.lines.front(pipe, stream) else {
            return;
        };
        if let Some(bytes) = moved_by(&trb, code, residual) {
            self.moved[stream as usize] = bytes;
        }
    }
}
