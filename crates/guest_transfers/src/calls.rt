//! The pipes of a device, and their doorbells.
ghost use Rattle.std.specs.Prelude.{◌≡◌, ◌+◌, ◌<◌, IfOk, replicate, vec_len};
ghost use Rattle.guest_transfers.specs.State.{empty_slot, opening};
ghost use Rattle.guest_transfers.specs.Calls.{consumer_rung, rung_at};
ghost use Rattle.guest_transfers.specs.State.{TransfersState};

use crate::slot::Slot;
use guest_pipes::{Consumer, EndpointState, Pipe, Progress};
use guest_tags::{Chunk, Gather, Tag, Unit};
use std::alloc::{AllocError, Global};
use std::marker::Model;

/// Tags 1 to 240 may have a task; place 0 stays empty.
pub const TAG_SLOTS: usize = 241;

/// The four pipes of a device, and what is kept of each tag.
#[derive(Debug, Drop)]
pub struct Transfers {
    pub(crate) command: Consumer,
    pub(crate) home: u64,
    pub(crate) gathered: Gather,
    pub(crate) status: Pipe,
    pub(crate) data_out: Pipe,
    pub(crate) data_in: Pipe,
    pub(crate) tags: Vec<Slot>,
}

impl Model for Transfers {
    ghost use Rattle.guest_transfers.specs.State.{TransfersState};

    ghost Value = { TransfersState };

    ghost use Rattle.std.specs.Prelude.{◌≡◌, vec_len};

    ghost view = { λ t. record {
      command = t.command;
      home = t.home;
      gathered = t.gathered;
      status = t.status;
      data_out = t.data_out;
      data_in = t.data_in;
      tags = t.tags.items;
    } };

    ghost invariant = { λ t. vec_len t.tags ≡ 241 };
}

/// A doorbell of an endpoint without streams.
fn ring(consumer: &mut Consumer)
    ensures { consumer.new ≡ consumer_rung consumer.old.state consumer.old }
{
    match consumer.state {
        EndpointState::Disabled | EndpointState::Halted | EndpointState::Error => (),
        EndpointState::Running => consumer.rung = true,
        EndpointState::Stopped => {
            consumer.state = EndpointState::Running;
            consumer.rung = true;
        }
    }
}

impl Slot {
    /// Nothing is kept of a tag. The error is want of memory.
    fn new(alloc: Global) -> Result<Slot, AllocError>
        ensures { IfOk result (λ slot. slot ≡ empty_slot) }
    {
        Ok(Slot {
            tag: Tag {
                chunk: Chunk::new(alloc)?,
                gave: false,
                drops: false,
                unit: Unit::new(),
                overlaps: 0,
            },
            taken: Gather::new(alloc)?,
        })
    }
}

/// Nothing is kept of any tag. The error is want of memory.
pub fn empty_slots(alloc: Global) -> Result<Vec<Slot>, AllocError>
    ensures items { IfOk result (λ slots. slots.items ≡ replicate 241 empty_slot) }
    ensures len { IfOk result (λ slots. vec_len slots ≡ 241) }
{
    let mut slots = Vec::new(alloc);
    for count in 0..TAG_SLOTS {
        slots.push(Slot::new(alloc)?)?;
    }
    Ok(slots)
}

impl Transfers {
    /// Pipes that are disabled, and nothing is kept of any tag. It takes all memory that the pipes ever have, 2 MB; the error is want of
    /// it.
    pub fn new(alloc: Global) -> Result<Transfers, AllocError>
        ensures { IfOk result (λ t. t ≡ opening) }
    {
        Ok(Transfers {
            command: Consumer {
                endpoint: 2,
                state: EndpointState::Disabled,
                rung: false,
                progress: Progress::fresh(),
            },
            home: 0,
            gathered: Gather::new(alloc)?,
            status: Pipe::new(alloc, 3)?,
            data_out: Pipe::new(alloc, 4)?,
            data_in: Pipe::new(alloc, 5)?,
            tags: empty_slots(alloc)?,
        })
    }

    /// A doorbell by its target, the endpoint's ID, and stream (4.7): 2 is the command pipe, 3 status, 4 data-out, 5 data-in. It starts
    /// an endpoint that is stopped; of one that is disabled, halted or in error it does nothing. A stream that isn't there is noted.
    pub fn ring_doorbell(&mut self, endpoint: u8, stream: u16)
        ensures { self.new ≡ rung_at self.old endpoint stream }
    {
        match endpoint {
            2 => ring(&mut self.command),
            3 => self.status.ring_doorbell(stream),
            4 => self.data_out.ring_doorbell(stream),
            5 => self.data_in.ring_doorbell(stream),
            _ => (),
        }
    }
}
