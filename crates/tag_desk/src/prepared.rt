//! A command with what the log of its bus is to keep of it: a client takes the memory for that before it posts the command.
ghost use Rattle.std.specs.Prelude.{◌≡◌, IfOk};

use crate::NoMemory;
use scsi_cmd::Command;
use std::alloc::Global;
use std::marker::Model;

/// A command with a copy of it, and as many bytes as its reply is to bring. Contracts see the command.
#[derive(Debug, Drop)]
pub struct Prepared {
    command: Command,
    copy: Command,
    spare: Vec<u8>,
}

impl Model for Prepared {
    ghost use Rattle.std.specs.Prelude.{◌≡◌};
    ghost use Rattle.scsi_cmd.specs.declared.Command.{Command};

    ghost Value = { Command };

    ghost view = { λ prepared. prepared.command };

    ghost invariant = { λ prepared. prepared.copy ≡ prepared.command };
}

impl Prepared {
    /// The command, its copy, and the bytes: all of their memory is taken and written here.
    pub fn new(alloc: Global, command: Command) -> Result<Prepared, NoMemory>
        ensures { IfOk result (λ prepared. prepared ≡ command) }
    {
        let copy = command.try_clone(alloc)?;
        let spare = vec![in alloc; 0; command.buffer.len()]?;
        Ok(Prepared {
            command,
            copy,
            spare,
        })
    }

    /// The command.
    pub fn command(&self) -> &Command
        ensures { result.now ≡ self.now }
    {
        &self.command
    }

    /// The command, its copy, and the bytes for its reply; takes no memory.
    pub fn into_parts(self) -> (Command, Command, Vec<u8>)
        ensures command { result.0 ≡ self }
        ensures copy { result.1 ≡ self }
    {
        let Prepared {
            command,
            copy,
            spare,
        } = self;
        (command, copy, spare)
    }
}
