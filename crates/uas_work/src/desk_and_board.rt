//! Where clients and pumps meet: the desk of slips, and the board of doorbells.
ghost use Rattle.std.specs.Prelude.{◌≡◌, ◌*◌, ◌≤◌, All, IfOk};
ghost use Rattle.uas_profile.specs.declared.TheConstants.{MAX_CLIENTS, STREAMS};
ghost use Rattle.uas_profile.specs.Tags.{AreTags};
ghost use Rattle.tag_desk.specs.Seats.{AreNewCustomers, AreServersBelow, IsClientOf, IsPumpOf};
ghost use Rattle.door_board.specs.Counts.{IsSeatOf};
ghost use Rattle.uas_work.specs.Parts.{AreClientParts, ArePumpParts, IsDeskFor};

use crate::parts::{ClientPart, PumpPart};
use crate::{Held, PumpCount};
use door_board::{Board, Seat};
use std::alloc::{AllocError, Global};
use tag_desk::{ClientSeat, Desk, Seats, WorkSeat};
use tag_range::ClientRange;

/// The desk and the board, and for how many clients and pumps they were made.
#[derive(Drop)]
pub(crate) struct DeskAndBoard {
    pub(crate) desk: Desk,
    pub(crate) board: Board,
    pub(crate) clients: usize,
    pub(crate) pumps: usize,
    ghost made: { IsDeskFor desk clients pumps },
}

/// A desk and a board, and what each worker has of its own there.
#[derive(Drop)]
pub(crate) struct Opened {
    pub(crate) shared: DeskAndBoard,
    pub(crate) clients: Vec<ClientPart>,
    pub(crate) pumps: Vec<PumpPart>,
}

/// A desk and a board for so many clients with so many tags each, and for so many pumps, with a worker's part for each; a client's has
/// room for the replies of so many rounds.
pub(crate) fn open_desk_and_board(
    alloc: Global,
    clients: usize,
    tags: usize,
    pumps: PumpCount,
    rounds: u32,
) -> Result<Opened, AllocError>
    requires tags { AreTags tags }
    requires some { 1 ≤ clients }
    requires most { clients ≤ MAX_CLIENTS }
    requires streams { clients * tags ≤ STREAMS }
    ensures number { IfOk result (λ opened. opened.shared.clients ≡ clients) }
    ensures tags { IfOk result (λ opened. opened.shared.desk.tags ≡ tags) }
    ensures clients { IfOk result (λ opened. AreClientParts opened.shared.desk opened.shared.board rounds opened.clients.items) }
    ensures pumps { IfOk result (λ opened. ArePumpParts opened.shared.desk opened.shared.board opened.pumps.items) }
{
    let pumps = pumps.count();
    let (desk, seats) = Desk::with_tags(alloc, clients, pumps, tags)?;
    let (board, mut bells) = Board::new(alloc, clients + pumps)?;
    let shared = DeskAndBoard {
        desk,
        board,
        clients,
        pumps,
    };
    let Seats {
        clients: customers,
        pumps: servers,
    } = seats;
    let client_parts = shared.client_parts(alloc, customers, &mut bells, rounds)?;
    let pump_parts = shared.pump_parts(alloc, servers, &mut bells)?;
    Ok(Opened {
        shared,
        clients: client_parts,
        pumps: pump_parts,
    })
}

impl DeskAndBoard {
    /// A part for each client, of its seat and of one of the bells, with room for the replies of so many rounds.
    fn client_parts(
        &self,
        alloc: Global,
        seats: Vec<ClientSeat>,
        bells: &mut Vec<Seat>,
        rounds: u32,
    ) -> Result<Vec<ClientPart>, AllocError>
        requires seats { AreNewCustomers self.now.desk.table self.now.desk.tags self.now.clients seats.items }
        requires own { All (IsClientOf self.now.desk) seats.items }
        requires bells { All (IsSeatOf self.now.board) bells.old.items }
        ensures bells { All (IsSeatOf self.now.board) bells.new.items }
        ensures parts { IfOk result (λ parts. AreClientParts self.now.desk self.now.board rounds parts.items) }
    {
        let mut parts = Vec::with_capacity(alloc, self.clients)?;
        let tags = self.desk.tags();
        let mut client = 0u8;
        for seat in seats {
            let Some(bell) = bells.pop() else {
                return Err(AllocError);
            };
            let replies = Vec::with_capacity(alloc, 2 * rounds as usize)?;
            parts.push(ClientPart {
                client,
                seat,
                bell,
                tags: ClientRange::new(tags, client),
                replies,
            })?;
            client += 1;
        }
        Ok(parts)
    }

    /// A part for each pump, of its seat and of one of the bells.
    fn pump_parts(
        &self,
        alloc: Global,
        seats: Vec<WorkSeat>,
        bells: &mut Vec<Seat>,
    ) -> Result<Vec<PumpPart>, AllocError>
        requires seats { AreServersBelow self.now.desk (self.now.desk.tags * self.now.clients) seats.items }
        requires own { All (IsPumpOf self.now.desk) seats.items }
        requires bells { All (IsSeatOf self.now.board) bells.old.items }
        ensures parts { IfOk result (λ parts. ArePumpParts self.now.desk self.now.board parts.items) }
    {
        let mut parts = Vec::with_capacity(alloc, self.pumps)?;
        let tags = self.desk.tags();
        let mut pump = 0usize;
        for seat in seats {
            let Some(bell) = bells.pop() else {
                return Err(AllocError);
            };
            let held = Held::with_tags(alloc, self.clients, tags)?;
            parts.push(PumpPart {
                pump,
                seat,
                held,
                bell,
            })?;
            pump += 1;
        }
        Ok(parts)
    }
}
