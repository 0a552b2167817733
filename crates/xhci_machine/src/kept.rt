//! What is kept of the controller beside tags and device, as bytes, and made of bytes.
ghost use Rattle.std.specs.Prelude.{◌≡◌, ◌≤◌, IfOk, IfSome, option_map, vec_len};
ghost use Rattle.machine_bytes.specs.Forms.{number, optional};
ghost use Rattle.xhci_machine.specs.Kept.{commands_form, interrupts_form, kept_form, kept_of, machine_of, rings_form, rings_of, states_form};
ghost use Rattle.xhci_machine.specs.KeptTexts.{FitsKept, kept_text_of, rings_text_of};

use crate::Machine;
use crate::interrupts::Interrupts;
use crate::ring::CommandRing;
use crate::states::States;
use controller_bytes::{
    BulkText, PipesText, read_bulk, read_control, read_pipes, read_registers, read_ring_option,
    read_slot, read_state, restore_bulk, restore_pipes, write_bulk, write_control, write_pipes,
    write_registers, write_ring_option, write_slot, write_state,
};
use guest_tasks::GuestTasks;
use guest_transfers::Slot as Tag;
use machine_bytes::{Place, Reader};
use std::alloc::{AllocError, Global};
use xhci_control::ControlPipe;
use xhci_registers::Registers;
use xhci_slots::Slot;

/// What was read of registers, rings, slot and states told.
#[derive(Drop)]
pub(crate) struct RingsText {
    pub registers: Registers,
    pub commands: CommandRing,
    pub interrupts: Interrupts,
    pub slot: Slot,
    pub told: States,
}

/// What was read of a controller beside tags and device.
#[derive(Drop)]
pub(crate) struct KeptText<'a> {
    pub rings: RingsText,
    pub control: ControlPipe,
    pub pipes: PipesText<'a>,
    pub bulk: BulkText<'a>,
}

fn write_stopping(place: Place, cells: &mut [u8], stopping: Option<u16>) -> Place
    ensures { (cells.new, result) ≡ (optional (number 2)).write (cells.old, place) stopping }
{
    match stopping {
        None => place.kind(cells, 0),
        Some(stream) => place.kind(cells, 1).u16(cells, stream),
    }
}

fn read_stopping(reader: &mut Reader) -> Option<Option<u16>>
    ensures { (result, reader.new) ≡ (optional (number 2)).read reader.old }
{
    match reader.below(2)? {
        0 => Some(None),
        _ => {
            let stream = reader.u16()?;
            Some(Some(stream))
        }
    }
}

fn write_commands(place: Place, cells: &mut [u8], commands: &CommandRing) -> Place
    ensures { (cells.new, result) ≡ commands_form.write (cells.old, place) commands.now }
{
    let place = place.flag(cells, commands.rung);
    let place = place.flag(cells, commands.owes_stop);
    write_stopping(place, cells, commands.stopping)
}

fn read_commands(reader: &mut Reader) -> Option<CommandRing>
    ensures { (result, reader.new) ≡ commands_form.read reader.old }
{
    let rung = reader.flag()?;
    let owes_stop = reader.flag()?;
    let stopping = read_stopping(reader)?;
    Some(CommandRing {
        rung,
        owes_stop,
        stopping,
    })
}

fn write_interrupts(place: Place, cells: &mut [u8], interrupts: &Interrupts) -> Place
    ensures { (cells.new, result) ≡ interrupts_form.write (cells.old, place) interrupts.now }
{
    let place = write_ring_option(place, cells, &interrupts.ring);
    let place = place.flag(cells, interrupts.dequeued);
    let place = place.flag(cells, interrupts.cleared_busy);
    place.flag(cells, interrupts.told_full)
}

fn read_interrupts(reader: &mut Reader) -> Option<Interrupts>
    ensures { (result, reader.new) ≡ interrupts_form.read reader.old }
{
    let ring = read_ring_option(reader)?;
    let dequeued = reader.flag()?;
    let cleared_busy = reader.flag()?;
    let told_full = reader.flag()?;
    Some(Interrupts {
        ring,
        dequeued,
        cleared_busy,
        told_full,
    })
}

fn write_states(place: Place, cells: &mut [u8], states: States) -> Place
    ensures { (cells.new, result) ≡ states_form.write (cells.old, place) states }
{
    let place = write_state(place, cells, states.control);
    let place = write_state(place, cells, states.command);
    let place = write_state(place, cells, states.status);
    let place = write_state(place, cells, states.data_out);
    write_state(place, cells, states.data_in)
}

fn read_states(reader: &mut Reader) -> Option<States>
    ensures { (result, reader.new) ≡ states_form.read reader.old }
{
    let control = read_state(reader)?;
    let command = read_state(reader)?;
    let status = read_state(reader)?;
    let data_out = read_state(reader)?;
    let data_in = read_state(reader)?;
    Some(States {
        control,
        command,
        status,
        data_out,
        data_in,
    })
}

/// Reads registers, rings, slot and states told.
fn read_rings(reader: &mut Reader) -> Option<RingsText>
    ensures { (option_map rings_text_of result, reader.new) ≡ rings_form.read reader.old }
{
    let registers = read_registers(reader)?;
    let commands = read_commands(reader)?;
    let interrupts = read_interrupts(reader)?;
    let slot = read_slot(reader)?;
    let told = read_states(reader)?;
    Some(RingsText {
        registers,
        commands,
        interrupts,
        slot,
        told,
    })
}

/// Reads what is kept of a controller.
pub(crate) fn read_kept<'a>(reader: &mut Reader<'a>) -> Option<KeptText<'a>>
    ensures read { (option_map kept_text_of result, reader.new) ≡ kept_form.read reader.old }
    ensures fits { IfSome result FitsKept }
{
    let rings = read_rings(reader)?;
    let control = read_control(reader)?;
    let pipes = read_pipes(reader)?;
    let bulk = read_bulk(reader)?;
    Some(KeptText {
        rings,
        control,
        pipes,
        bulk,
    })
}

impl Machine {
    fn write_rings(&self, place: Place, cells: &mut [u8]) -> Place
        ensures { (cells.new, result) ≡ rings_form.write (cells.old, place) (rings_of self.now) }
    {
        let place = write_registers(place, cells, &self.registers);
        let place = write_commands(place, cells, &self.commands);
        let place = write_interrupts(place, cells, &self.interrupts);
        let place = write_slot(place, cells, &self.slot);
        write_states(place, cells, self.told)
    }

    /// Writes what is kept of it beside tags and device.
    pub(crate) fn write_kept(&self, place: Place, cells: &mut [u8]) -> Place
        ensures { (cells.new, result) ≡ kept_form.write (cells.old, place) (kept_of self.now) }
    {
        let place = self.write_rings(place, cells);
        let place = write_control(place, cells, &self.control);
        let place = write_pipes(place, cells, &self.transfers);
        write_bulk(place, cells, &self.bulk)
    }

    /// A machine made of what was read, these tags and this device. The error is want of memory.
    pub(crate) fn restored(
        alloc: Global,
        text: KeptText,
        tags: Vec<Tag>,
        device: GuestTasks,
    ) -> Result<Machine, AllocError>
        requires fits { FitsKept text }
        requires tags { vec_len tags ≡ 241 }
        ensures { IfOk result (λ machine. machine ≡ machine_of (kept_text_of text.entry) tags.items device) }
    {
        let KeptText {
            rings,
            control,
            pipes,
            bulk,
        } = text;
        let RingsText {
            registers,
            commands,
            interrupts,
            slot,
            told,
        } = rings;
        Ok(Machine {
            registers,
            slot,
            commands,
            interrupts,
            control,
            transfers: restore_pipes(alloc, &pipes, tags)?,
            bulk: restore_bulk(alloc, bulk)?,
            device,
            told,
        })
    }
}
