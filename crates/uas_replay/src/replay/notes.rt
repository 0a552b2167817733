//! What is noted of a client's tickets.

ghost use Rattle.std.specs.Prelude.{◌≡◌, ◌++◌, ◌∷◌, [], Bool, List, OnOk, false, slice_index_or};

use std::alloc::{AllocError, Global};
use std::marker::Model;

/// Of each ticket that a client was given, whether the bus took a command under it that moves data to the host.
#[derive(Drop)]
pub struct TicketNotes {
    by_ticket: Vec<bool>,
}

impl TicketNotes {
    /// Before the first ticket.
    pub fn new(alloc: Global) -> TicketNotes
        ensures { result ≡ [] }
    {
        TicketNotes {
            by_ticket: Vec::new(alloc),
        }
    }

    /// Notes the next ticket.
    pub fn push(&mut self, brings_in: bool) -> Result<(), AllocError>
        ensures { OnOk result (self.new ≡ self.old ++ brings_in ∷ []) }
    {
        self.by_ticket.push(brings_in)?;
        Ok(())
    }

    /// What was noted of a ticket, false where nothing was.
    pub fn at(&self, ticket: u64) -> bool
        ensures { result ≡ slice_index_or self.now ticket false }
    {
        self.by_ticket
            .get(ticket as usize)
            .copied()
            .unwrap_or(false)
    }
}

impl Model for TicketNotes {
    ghost use Rattle.std.specs.Prelude.{List, Bool};

    ghost Value = { List Bool };

    ghost view = { λ notes. notes.by_ticket.items };
}
