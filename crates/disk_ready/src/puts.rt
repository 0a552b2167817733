//! The TDs of a command are put: its data's alone in a third of its stream's ring, its status's likewise, its unit's on the command pipe's
//! ring (xHCI 1.2, 4.9 and 4.12); then the doorbells.
ghost use Rattle.std.specs.Prelude.{◌≡◌};
ghost use Rattle.disk_ready.specs.Puts.{data_begun, data_ring, data_target, has_data, is_in, next_pipe, piece_after, pipe_address, pipe_begun, pipe_link, put_access, put_after, spots_after, spots_begun, stream_bell};

use crate::stores::{
    first_stored, list_stored, piece_stored, place_in, status_first, status_stored, unit_last,
    unit_stored, zeros_stored,
};
use bring_up::{Access, Controller, Stored, later, store_in, write_at};
use disk_up::next_third;
use host_layout::{Fixed, Layout, Piece, Ring, TagArea, data_trb};
use host_trbs::{LinkTrb, Words};
use usb_descriptors::Pipes;

/// Which way a command's data go.
#[derive(Clone, Copy, Debug, PartialEq, Eq)]
pub enum Way {
    Nothing,
    In,
    Out,
}

/// A command that is put: its tag, the way of its data, the bytes of its unit, and UNMAP's parameter list, which stands in 32 bytes.
#[derive(Clone, Copy)]
pub struct Sent {
    pub tag: u8,
    pub way: Way,
    pub unit: [u8; 32],
    pub list: Option<[u8; 32]>,
}

/// The device that it is put for: its slot, and the endpoints of its pipes.
#[derive(Clone, Copy)]
pub struct Target {
    pub slot: u8,
    pub pipes: Pipes,
}

/// A place on the command pipe's ring, and its Cycle bit.
#[derive(Clone, Copy)]
pub struct PipeRing {
    pub place: u8,
    pub cycle: bool,
}

/// Where a command's TDs stand: the thirds of its data and of its status, and its place on the command pipe.
#[derive(Clone, Copy)]
pub struct Spots {
    pub data_third: u8,
    pub status_third: u8,
    pub pipe: PipeRing,
}

/// What of a command is put next.
#[derive(Clone, Copy)]
pub enum Put {
    CommandUnit,
    UnmapList,
    /// The whole next third of its data is zeroed; each TRB, the first with Cycle 0 and the last with the Link; the first one's last word.
    DataZeros,
    DataPiece(u8),
    DataFirst,
    StatusZeros,
    StatusTrb,
    StatusFirst,
    /// The Link behind the last place of the command pipe's ring gets its Cycle bit.
    PipeLink,
    PipeBody,
    PipeLast,
    DataBell,
    StatusBell,
    PipeBell,
}

/// The last place of a unit on the command pipe's ring: behind it is the Link.
const LAST_PLACE: u8 = 254;

/// Where that Link stands.
const LINK_OFFSET: u64 = 4080;

impl Way {
    pub(crate) fn is_in(self) -> bool
        ensures { result ≡ is_in self }
    {
        matches!(self, Way::In)
    }

    pub fn has_data(self) -> bool
        ensures { result ≡ has_data self }
    {
        matches!(self, Way::In | Way::Out)
    }
}

impl Sent {
    /// The ring of its data.
    pub fn data_ring(&self) -> Ring
        ensures { result ≡ data_ring self.now }
    {
        match self.way {
            Way::Nothing | Way::In => Ring::DataIn(self.tag),
            Way::Out => Ring::DataOut(self.tag),
        }
    }
}

impl PipeRing {
    pub fn begun() -> PipeRing
        ensures { result ≡ pipe_begun }
    {
        PipeRing {
            place: 0,
            cycle: true,
        }
    }

    /// Behind one more unit.
    pub fn next(self) -> PipeRing
        ensures { result ≡ next_pipe self }
    {
        if self.place >= LAST_PLACE {
            PipeRing {
                place: 0,
                cycle: !self.cycle,
            }
        } else {
            PipeRing {
                place: self.place + 1,
                cycle: self.cycle,
            }
        }
    }

    /// Where its unit's TRB stands.
    pub fn address(self, layout: &Layout) -> u64
        ensures { result ≡ pipe_address self layout.now }
    {
        later(layout.fixed(Fixed::CommandPipe), 16 * u64::from(self.place))
    }

    /// The Link to the ring's first place.
    fn link(self, layout: &Layout) -> Words
        ensures { result ≡ pipe_link self layout.now }
    {
        let link = LinkTrb {
            to: layout.fixed(Fixed::CommandPipe),
            toggles: true,
        };
        link.words(self.cycle)
    }
}

impl Spots {
    pub fn begun() -> Spots
        ensures { result ≡ spots_begun }
    {
        Spots {
            data_third: 0,
            status_third: 0,
            pipe: PipeRing::begun(),
        }
    }

    /// Behind a command that ended.
    pub fn after(self, way: Way) -> Spots
        ensures { result ≡ spots_after self way }
    {
        Spots {
            data_third: if way.has_data() {
                next_third(self.data_third)
            } else {
                self.data_third
            },
            status_third: next_third(self.status_third),
            pipe: self.pipe.next(),
        }
    }
}

impl Target {
    /// The endpoint of a command's data.
    pub(crate) fn data_target(&self, way: Way) -> u8
        ensures { result ≡ data_target self.now.pipes way }
    {
        match way {
            Way::Nothing | Way::In => self.pipes.data_in.context_index(),
            Way::Out => self.pipes.data_out.context_index(),
        }
    }

    /// A doorbell of a stream, or of a pipe without streams for 0.
    fn bell(&self, c: &Controller, index: u8, tag: u8) -> Access
        ensures { result ≡ stream_bell c.now self.now index tag }
    {
        write_at(
            c.doorbell(self.slot),
            u32::from(index) + (u32::from(tag) << 16),
        )
    }
}

impl Put {
    pub fn access(
        self,
        c: &Controller,
        layout: &Layout,
        target: &Target,
        sent: &Sent,
        spots: Spots,
        pieces: &[Piece],
    ) -> Access
        ensures { result ≡ put_access self c.now layout.now target.now sent.now spots pieces.now }
    {
        let pipes = &target.pipes;
        match self {
            Put::CommandUnit => store_in(
                layout.of_tag(sent.tag, TagArea::CommandUnit),
                Stored::ThirtyTwo(sent.unit),
            ),
            Put::UnmapList => list_stored(layout.of_tag(sent.tag, TagArea::UnmapList), sent.list),
            Put::DataZeros => zeros_stored(layout, sent.data_ring(), spots.data_third),
            Put::DataPiece(number) => piece_stored(layout, sent, pieces, spots.data_third, number),
            Put::DataFirst => first_stored(
                data_trb(pieces, 0, sent.way.is_in()),
                place_in(layout, sent.data_ring(), spots.data_third, 0),
            ),
            Put::StatusZeros => zeros_stored(layout, Ring::Status(sent.tag), spots.status_third),
            Put::StatusTrb => status_stored(
                layout.of_tag(sent.tag, TagArea::StatusUnit),
                layout,
                sent,
                spots.status_third,
            ),
            Put::StatusFirst => status_first(
                layout.of_tag(sent.tag, TagArea::StatusUnit),
                layout,
                sent,
                spots.status_third,
            ),
            Put::PipeLink => store_in(
                Some(later(layout.fixed(Fixed::CommandPipe), LINK_OFFSET)),
                Stored::Sixteen(spots.pipe.link(layout).bytes()),
            ),
            Put::PipeBody => unit_stored(
                layout.of_tag(sent.tag, TagArea::CommandUnit),
                layout,
                spots.pipe,
            ),
            Put::PipeLast => unit_last(
                layout.of_tag(sent.tag, TagArea::CommandUnit),
                layout,
                spots.pipe,
            ),
            Put::DataBell => target.bell(c, target.data_target(sent.way), sent.tag),
            Put::StatusBell => target.bell(c, pipes.status.context_index(), sent.tag),
            Put::PipeBell => target.bell(c, pipes.command.context_index(), 0),
        }
    }

    /// What is put next; None behind the last doorbell.
    pub fn after(self, sent: &Sent, spots: Spots, pieces: &[Piece]) -> Option<Put>
        ensures { result ≡ put_after self sent.now spots pieces.now }
    {
        match self {
            Put::CommandUnit if sent.list.is_some() => Some(Put::UnmapList),
            Put::CommandUnit | Put::UnmapList => Some(data_begun(sent.way)),
            Put::DataZeros => Some(Put::DataPiece(0)),
            Put::DataPiece(number) => Some(piece_after(number, pieces)),
            Put::DataFirst => Some(Put::StatusZeros),
            Put::StatusZeros => Some(Put::StatusTrb),
            Put::StatusTrb => Some(Put::StatusFirst),
            Put::StatusFirst if spots.pipe.place >= LAST_PLACE => Some(Put::PipeLink),
            Put::StatusFirst | Put::PipeLink => Some(Put::PipeBody),
            Put::PipeBody => Some(Put::PipeLast),
            Put::PipeLast if sent.way.has_data() => Some(Put::DataBell),
            Put::PipeLast | Put::DataBell => Some(Put::StatusBell),
            Put::StatusBell => Some(Put::PipeBell),
            Put::PipeBell => None,
        }
    }
}

/// The data's TD, where there are any.
fn data_begun(way: Way) -> Put
    ensures { result ≡ data_begun way }
{
    if way.has_data() {
        Put::DataZeros
    } else {
        Put::StatusZeros
    }
}

/// The next TRB of a command's data, or the first one's last word. Pieces are fewer than 256.
fn piece_after(number: u8, pieces: &[Piece]) -> Put
    ensures { result ≡ piece_after number pieces.now }
{
    if number < u8::MAX && usize::from(number) + 1 < pieces.len() {
        Put::DataPiece(number + 1)
    } else {
        Put::DataFirst
    }
}
