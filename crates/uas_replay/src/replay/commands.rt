//! The commands that a script's requests ask for.

ghost use Rattle.std.specs.Prelude.{◌≡◌, replicate, IfOk};
ghost use Rattle.scsi_cmd.specs.Op.{direction_of};
ghost use Rattle.uas_replay.specs.Told.{command_of, is_to_host, took_to_host};

use bus_core::Refusal;
use scsi_cmd::{Buffer, Command, Direction, Op, moves};
use std::alloc::{AllocError, Global};
use uas_script::Request;

/// Whether an operation moves data to the host.
fn is_to_host(op: &Op) -> bool
    ensures { result ≡ is_to_host (direction_of op.now) }
{
    match moves(op).0 {
        Direction::ToHost => true,
        Direction::Nothing | Direction::ToDevice => false,
    }
}

/// Whether the bus took this operation, and it moves data to the host.
pub fn took_to_host(op: &Op, refused: &Option<Refusal>) -> bool
    ensures { result ≡ took_to_host (direction_of op.now) refused.now }
{
    match refused {
        None => is_to_host(op),
        Some(_) => false,
    }
}

/// The command of a request, with its buffer filled.
pub fn command_of(alloc: Global, request: Request) -> Result<Command, AllocError>
    ensures { IfOk result (λ command. command ≡ command_of request) }
{
    let bytes = vec![in alloc; request.fill; moves(&request.op).1]?;
    let buffer = Buffer::from_vec(bytes);
    Ok(Command {
        op: request.op,
        buffer,
    })
}
