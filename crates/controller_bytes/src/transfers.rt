//! The four pipes.
ghost use Rattle.std.specs.Prelude.{◌≡◌, ◌≤◌, IfOk, IfSome, length, option_map, vec_len};
ghost use Rattle.controller_bytes.specs.PipesTexts.{FitsPipes, pipes_of};
ghost use Rattle.controller_bytes.specs.Texts.{pipe_of};
ghost use Rattle.controller_bytes.specs.Transfers.{pipes_form, pipes_in, transfers_of};

use crate::consumers::{read_consumer, write_consumer};
use crate::pipes::{PipeText, read_pipe, write_pipe};
use guest_pipes::{Consumer, Pipe};
use guest_tags::Gather;
use guest_transfers::{Slot, StreamPipe, Transfers, TransfersParts};
use machine_bytes::{Place, Reader};
use std::alloc::{AllocError, Global};

/// The most bytes that are gathered.
const GATHERED_BYTES: u16 = 4096;

/// The pipes as they were read.
#[derive(Clone, Copy)]
pub struct PipesText<'a> {
    pub command: Consumer,
    pub home: u64,
    pub gathered: &'a [u8],
    pub status: PipeText,
    pub data_out: PipeText,
    pub data_in: PipeText,
}

/// Writes the pipes.
pub fn write_pipes(place: Place, cells: &mut [u8], transfers: &Transfers) -> Place
    ensures { (cells.new, result) ≡ pipes_form.write (cells.old, place) (pipes_in transfers.now) }
{
    let place = write_consumer(place, cells, &transfers.command());
    let place = place.u64(cells, transfers.home());
    let place = place.counted_u16(cells, transfers.gathered());
    let place = write_pipe(place, cells, transfers.pipe(StreamPipe::Status));
    let place = write_pipe(place, cells, transfers.pipe(StreamPipe::DataOut));
    write_pipe(place, cells, transfers.pipe(StreamPipe::DataIn))
}

/// Reads the pipes.
pub fn read_pipes<'a>(reader: &mut Reader<'a>) -> Option<PipesText<'a>>
    ensures read { (option_map pipes_of result, reader.new) ≡ pipes_form.read reader.old }
    ensures fits { IfSome result FitsPipes }
{
    let command = read_consumer(reader)?;
    let home = reader.u64()?;
    let gathered = reader.counted_u16(GATHERED_BYTES)?;
    let status = read_pipe(reader)?;
    let data_out = read_pipe(reader)?;
    let data_in = read_pipe(reader)?;
    Some(PipesText {
        command,
        home,
        gathered,
        status,
        data_out,
        data_in,
    })
}

/// A pipe made of what was read. The error is want of memory.
fn restore_pipe(alloc: Global, text: &PipeText) -> Result<Pipe, AllocError>
    requires { text.now.head.streams ≤ 256 }
    ensures { IfOk result (λ pipe. pipe ≡ pipe_of text.now) }
{
    Pipe::restored(alloc, text.head, &text.rung, &text.progress)
}

/// Gathered bytes. The error is want of memory.
pub(crate) fn restore_gather(alloc: Global, bytes: &[u8]) -> Result<Gather, AllocError>
    requires { length bytes.now ≤ 4096 }
    ensures { IfOk result (λ gather. gather ≡ bytes.now) }
{
    let mut gather = Gather::new(alloc)?;
    gather.put(bytes);
    Ok(gather)
}

/// Pipes made of what was read, and these tags. The error is want of memory.
pub fn restore_pipes(
    alloc: Global,
    text: &PipesText,
    tags: Vec<Slot>,
) -> Result<Transfers, AllocError>
    requires fits { FitsPipes text.now }
    requires tags { vec_len tags ≡ 241 }
    ensures { IfOk result (λ transfers. transfers ≡ transfers_of (pipes_of text.now) tags.items) }
{
    Ok(Transfers::restored(TransfersParts {
        command: text.command,
        home: text.home,
        gathered: restore_gather(alloc, text.gathered)?,
        status: restore_pipe(alloc, &text.status)?,
        data_out: restore_pipe(alloc, &text.data_out)?,
        data_in: restore_pipe(alloc, &text.data_in)?,
        tags,
    }))
}
