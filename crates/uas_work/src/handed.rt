//! The bus under its lock: the one that the workers were handed, with what was booked since.
ghost use Rattle.std.specs.Prelude.{◌≡◌, IfOk, IfErr, MatchResult};
ghost use Rattle.uas_work.specs.Booked.{BookedState, IsBooked, IsLater};
ghost use Rattle.uas_work.specs.Control.{IsControl, IsDispatch, TookOrLeft, WantsOne};
ghost use Rattle.uas_work.specs.Held.{ServesClient};
ghost use Rattle.uas_work.specs.Parts.{IsPumpPart};
ghost use Rattle.uas_work.specs.Pumps.{EnteredOrLeft, Served};
ghost use Rattle.uas_work.specs.Sweep.{IsSwept, WasSwept};

use crate::desk_and_board::DeskAndBoard;
use crate::parts::PumpPart;
use crate::pump_part::Turn;
use crate::{Booked, Booking, Gate, control, dispatch, sweep};
use std::alloc::Global;
use std::marker::{Brand, PhantomData};

/// Which bus the workers were handed. Each call of `spawn_all` says so.
pub(crate) trait Origin {
    ghost first: { BookedState };
}

impl Origin for Brand {
    ghost use Rattle.std.specs.Prelude.{[]};
    ghost use Rattle.shared_machine.specs.Shared.{opening};
    ghost use Rattle.uas_profile.specs.declared.TheConstants.{TAGS};
    ghost use Rattle.uas_log.specs.Booking.{empty_log};

    ghost first = { record { bus = opening TAGS []; log = empty_log TAGS []; limit = 0 } };
}

/// The bus that was handed in, with more steps.
#[derive(Drop)]
pub(crate) struct Handed<J: Origin> {
    booked: Booked,
    of: PhantomData<J>,
    ghost later: { IsLater J.first booked },
}

impl<J: Origin> Handed<J> {
    /// The bus as it is handed in.
    pub(crate) fn new(booked: Booked) -> Handed<J>
        requires { booked ≡ J.first }
    {
        Handed {
            booked,
            of: PhantomData,
        }
    }

    /// The bus that was handed in, with what was booked since.
    pub(crate) fn into_booked(self) -> Booked
        ensures later { IsLater J.first result }
        ensures booked { IsBooked result }
    {
        let Handed { booked, .. } = self;
        booked
    }

    /// Lets the gate look at the log.
    pub(crate) fn look<G: Gate>(&self, alloc: Global, gate: &G) {
        gate.look(alloc, self.booked.log());
    }

    /// Takes a controller's turn: `control`.
    pub(crate) fn control<G: Gate>(&mut self, alloc: Global, gate: &G) -> Result<bool, Booking>
        ensures { MatchResult result (TookOrLeft IsControl (G.says gate.now) self.old.booked self.new.booked)
            (λ booking. WantsOne IsControl (G.says gate.now) self.old.booked self.new.booked) }
    {
        control(alloc, &mut self.booked, gate)
    }

    /// Takes the dispatcher's turn: `dispatch`.
    pub(crate) fn dispatch<G: Gate>(&mut self, alloc: Global, gate: &G) -> Result<bool, Booking>
        ensures { MatchResult result (TookOrLeft IsDispatch (G.says gate.now) self.old.booked self.new.booked)
            (λ booking. WantsOne IsDispatch (G.says gate.now) self.old.booked self.new.booked) }
    {
        dispatch(alloc, &mut self.booked, gate)
    }

    /// Takes all turns of those who have no client, at most so many steps: `sweep`.
    pub(crate) fn sweep<G: Gate>(
        &mut self,
        alloc: Global,
        gate: &G,
        most: u32,
    ) -> Result<u32, Booking>
        ensures swept { IfOk result (λ taken. IsSwept (G.says gate.now) self.old.booked taken self.new.booked) }
        ensures some { IfErr result (λ booking. WasSwept (G.says gate.now) self.old.booked self.new.booked) }
    {
        sweep(alloc, &mut self.booked, gate, most)
    }

    /// Lets a pump serve a client: `PumpPart::served`.
    pub(crate) fn serve<G: Gate>(
        &mut self,
        alloc: Global,
        pump: &mut PumpPart,
        shared: &DeskAndBoard,
        gate: &G,
        client: usize,
        may_post: bool,
    ) -> Result<Turn, Booking>
        requires part { IsPumpPart shared.now.desk shared.now.board pump.old }
        requires client { ServesClient shared.now.desk pump.old.seat client }
        ensures part { IsPumpPart shared.now.desk shared.now.board pump.new }
        ensures same { pump.new.pump ≡ pump.old.pump }
        ensures served { MatchResult result (λ served. Served (G.says gate.now) shared.now.desk.tags client self.old.booked self.new.booked)
            (λ booking. EnteredOrLeft shared.now.desk.tags client self.old.booked self.new.booked) }
    {
        pump.served(alloc, shared, gate, &mut self.booked, client, may_post)
    }
}
