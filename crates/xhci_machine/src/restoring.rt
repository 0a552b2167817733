//! A machine that becomes one that was saved.
ghost use Rattle.std.specs.Prelude.{◌≡◌, IfErr, IfOk, OnErr, OnOk};
ghost use Rattle.uas_tasks.specs.Soundness.{shapes_of};
ghost use Rattle.xhci_machine.specs.Loaded.{IsLoaded, IsRefused, load_of};
ghost use Rattle.xhci_machine.specs.Restored.{made_again};

use crate::Machine;
use crate::loaded::LoadFault;
use host_commands::LogicalUnitShape;
use std::alloc::{AllocError, Global};
use uas_tasks::LogicalUnit;

/// What these logical units were made of.
fn unit_shapes(alloc: Global, units: &[LogicalUnit]) -> Result<Vec<LogicalUnitShape>, AllocError>
    ensures { IfOk result (λ shapes. shapes.items ≡ shapes_of units.now) }
{
    let mut shapes = Vec::new(alloc);
    for unit in units {
        shapes.push(unit.shape)?;
    }
    Ok(shapes)
}

impl Machine {
    /// It becomes the machine that was saved as these bytes, of the same logical units, commands and chunks. The fault is the first that the
    /// bytes have, or want of memory, and then nothing changes.
    pub fn restore(&mut self, alloc: Global, bytes: &[u8]) -> Result<(), LoadFault>
        ensures loaded { OnOk result (IsLoaded (load_of (made_again self.old.device.tasks) bytes.now) self.new) }
        ensures refused { IfErr result (λ fault. IsRefused (load_of (made_again self.old.device.tasks) bytes.now) fault) }
        ensures same { OnErr result (self.new ≡ self.old) }
    {
        let units = self.device.tasks.units();
        let Ok(shapes) = unit_shapes(alloc, units) else {
            return Err(LoadFault::NoMemory);
        };
        let (set, chunk) = (
            self.device.tasks.command_set(),
            self.device.tasks.chunk_blocks(),
        );
        *self = Machine::load(alloc, shapes.as_slice(), set, chunk, bytes)?;
        Ok(())
    }
}
