//! The bytes that commands moved, by client and ticket.

ghost use Rattle.std.specs.Prelude.{◌≡◌, ◌++◌, ◌∷◌, [], List, ℕ, OnOk, IfOk, slice_index_or, slice_set, replicate};
ghost use Rattle.capture_run.specs.urbs.Records.{bytes_of, pushed, with_bytes};

use crate::urbs::Owner;
use scsi_cmd::Buffer;
use std::alloc::{AllocError, Global};
use std::marker::Model;

/// The bytes that a client's commands moved, by ticket.
#[derive(Drop)]
pub struct TicketBytes {
    by_ticket: Vec<Buffer>,
}

impl Model for TicketBytes {
    ghost use Rattle.std.specs.Prelude.{List, ℕ};

    ghost Value = { List (List ℕ) };

    ghost view = { λ bytes. bytes.by_ticket.items };
}

impl TicketBytes {
    fn new(alloc: Global) -> TicketBytes
        ensures { result ≡ [] }
    {
        TicketBytes {
            by_ticket: Vec::new(alloc),
        }
    }

    /// The bytes of the next ticket.
    fn push(&mut self, bytes: Buffer) -> Result<(), AllocError>
        ensures { OnOk result (self.new ≡ self.old ++ bytes ∷ []) }
    {
        self.by_ticket.push(bytes)?;
        Ok(())
    }

    /// Other bytes of a ticket.
    fn set(&mut self, ticket: u64, bytes: Buffer)
        ensures { self.new ≡ slice_set self.old ticket bytes }
    {
        if let Some(place) = self.by_ticket.get_mut(ticket as usize) {
            *place = bytes;
        }
    }

    /// The bytes of a ticket, none where it isn't known.
    fn at(&self, ticket: u64) -> &[u8]
        ensures { result.now ≡ slice_index_or self.now ticket [] }
    {
        match self.by_ticket.get(ticket as usize) {
            Some(bytes) => bytes.as_slice(),
            None => b"",
        }
    }
}

/// The bytes that commands moved: those that came back with their replies, or else those that were handed in with them.
#[derive(Drop)]
pub struct Transfers {
    by_client: Vec<TicketBytes>,
}

impl Model for Transfers {
    ghost use Rattle.std.specs.Prelude.{List, ℕ};

    ghost Value = { List (List (List ℕ)) };

    ghost view = { λ transfers. transfers.by_client.items };
}

impl Transfers {
    /// None, for so many clients.
    pub fn new(alloc: Global, clients: usize) -> Result<Transfers, AllocError>
        ensures { IfOk result (λ transfers. transfers ≡ replicate clients []) }
    {
        let mut by_client = Vec::new(alloc);
        for _ in 0..clients {
            by_client.push(TicketBytes::new(alloc))?;
        }
        Ok(Transfers { by_client })
    }

    /// The bytes of a client's next ticket.
    #[tactic(auto, unfolding(crate::specs::urbs::Records::pushed))]
    pub fn push(&mut self, client: usize, bytes: Buffer) -> Result<(), AllocError>
        ensures { OnOk result (self.new ≡ pushed self.old client bytes) }
    {
        if let Some(of_client) = self.by_client.get_mut(client) {
            of_client.push(bytes)?;
        }
        Ok(())
    }

    /// Other bytes of a ticket that was pushed.
    #[tactic(auto, unfolding(crate::specs::urbs::Records::with_bytes))]
    pub fn set(&mut self, client: usize, ticket: u64, bytes: Buffer)
        ensures { self.new ≡ with_bytes self.old client ticket bytes }
    {
        if let Some(of_client) = self.by_client.get_mut(client) {
            of_client.set(ticket, bytes);
        }
    }

    /// The bytes of an owner's command, none where it isn't known.
    #[tactic(auto, unfolding(crate::specs::urbs::Records::bytes_of))]
    pub fn of(&self, owner: Owner) -> &[u8]
        ensures { result.now ≡ bytes_of self.now owner }
    {
        match self.by_client.get(owner.client as usize) {
            Some(of_client) => of_client.at(owner.ticket),
            None => b"",
        }
    }
}
