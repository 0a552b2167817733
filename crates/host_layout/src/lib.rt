//! Where all stands in the memory of a driver for an xHCI controller with a USB Attached SCSI disk.
//!
//! | From the base on | Area |
//! |---|---|
//! | 0, 800h, 840h, 980h | [`Fixed::DeviceContexts`], [`Fixed::SegmentTable`], [`Fixed::CommandRing`], [`Fixed::ControlRing`] |
//! | 1000h, 2000h, 3000h, 4000h | [`Fixed::InputContext`], [`Fixed::DeviceContext`], [`Fixed::CommandPipe`], [`Fixed::Buffer`] |
//! | 5000h, 6000h, 7000h | the stream arrays of status, data-in and data-out |
//! | 8000h | [`Fixed::EventRing`] |
//! | 10000h, each 200h | of each tag the [`TagArea::CommandUnit`], [`TagArea::UnmapList`], [`TagArea::StatusRing`] and [`TagArea::StatusUnit`] |
//! | the next multiple of 1000h | of each tag the [`TagArea::DataInRing`] and [`TagArea::DataOutRing`] |
//! | the next multiple of 1000h | [`Area::EmptyPage`] |
//! | the next pages of the controller | [`Area::ScratchpadArray`], and each [`Area::Scratchpad`] |
//!
//! A ring of endpoint 0 or of a stream has three segments, its *thirds*: so many places for TRBs and a Link to the next third. TD k
//! stands alone at the beginning of third k mod 3 ([`RingPlace::of_td`]), so that no TD meets a Link and nothing valid stands behind
//! its last TRB.
//!
//! A [`Shape`] says how many tags, pieces and scratchpads there are, and how many bytes that takes; a [`Layout`] is a shape from an
//! address on. [`cut`] cuts the segments of a command's data at 64 KiB boundaries, and [`data_trb`] makes the TRBs of the pieces.
//!
//! What is promised: each address is the definition of its name in specs/Places.antt. [`Layout::found`] is the inverse of
//! [`Layout::trb`], for every address. [`laws`] says that areas lie apart, within the layout and aligned, that no segment of a ring
//! crosses a 64 KiB boundary, and that the pieces of segments are their bytes, in order, each once, none across such a boundary.
//! It takes no memory, and stands on `host_trbs` and `arrayvec`.
#![tactic(auto)]

pub mod laws;
mod layout;
mod rings;
mod segments;
mod shape;

pub use layout::{Area, Fixed, Layout, TagArea};
pub use rings::{Ring, RingPlace};
pub use segments::{CutFault, MOST_PIECES, Piece, Segment, cut, data_trb};
pub use shape::{PageSize, Pieces, Shape};
