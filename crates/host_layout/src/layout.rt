//! The areas of a driver's memory, each at its address.
ghost use Rattle.std.specs.Prelude.{◌≡◌, ◌<◌, ◌+◌, ◌%◌, ◌^◌};
ghost use Rattle.host_layout.specs.Shapes.{bytes_of};

use crate::Shape;

/// A driver's memory: a shape, from an address on.
#[derive(Clone, Copy, Debug, PartialEq, Eq)]
pub struct Layout {
    pub shape: Shape,
    /// A multiple of 65,536, so that no ring segment crosses a 64 KiB boundary.
    pub base: u64,
    ghost aligned: { base % 65536 ≡ 0 },
    ghost fits: { base + bytes_of shape < 2 ^ 64 },
}

/// An area at a fixed offset.
#[derive(Clone, Copy, Debug, PartialEq, Eq)]
pub enum Fixed {
    /// The Device Context Base Address Array, of 256 entries (6.1).
    DeviceContexts,
    /// The Event Ring Segment Table, of one entry (6.5).
    SegmentTable,
    /// The command ring: 15 TRBs and a Link that toggles.
    CommandRing,
    /// The ring of endpoint 0: three TDs of at most 3 TRBs.
    ControlRing,
    /// The input context: 33 contexts.
    InputContext,
    /// The device context: 32 contexts.
    DeviceContext,
    /// The command pipe's ring: 255 TRBs and a Link that toggles.
    CommandPipe,
    /// 4,096 bytes for what bring-up reads.
    Buffer,
    /// The stream array of the status pipe.
    StatusStreams,
    /// The stream array of the data-in pipe.
    DataInStreams,
    /// The stream array of the data-out pipe.
    DataOutStreams,
    /// The event ring, of 2,048 TRBs.
    EventRing,
}

/// An area that each tag has.
#[derive(Clone, Copy, Debug, PartialEq, Eq)]
pub enum TagArea {
    /// The Command unit, or the Task Management unit.
    CommandUnit,
    /// The parameter list of UNMAP.
    UnmapList,
    /// The ring of its status stream: three TDs of one TRB.
    StatusRing,
    /// The status unit that the device sends: 112 bytes.
    StatusUnit,
    /// The ring of its data-in stream: three TDs of the shape's pieces.
    DataInRing,
    /// The ring of its data-out stream, likewise.
    DataOutRing,
}

/// An area of a driver's memory.
#[derive(Clone, Copy, Debug, PartialEq, Eq)]
pub enum Area {
    At(Fixed),
    OfTag(u8, TagArea),
    /// 4,096 bytes of nothing behind the data rings, for controllers that prefetch.
    EmptyPage,
    /// The array of the scratchpads' addresses, 8 KiB (6.6). It begins with a page of the controller's, and so lies in one page, as
    /// table 6-1 asks, unless pages of 4 KiB are to have more than 512 scratchpads.
    ScratchpadArray,
    Scratchpad(u16),
}

impl Fixed {
    ghost use Rattle.host_layout.specs.Places.{fixed_offset};

    fn offset(self) -> u16
        ensures { result ≡ fixed_offset self }
    {
        match self {
            Fixed::DeviceContexts => 0,
            Fixed::SegmentTable => 0x800,
            Fixed::CommandRing => 0x840,
            Fixed::ControlRing => 0x980,
            Fixed::InputContext => 0x1000,
            Fixed::DeviceContext => 0x2000,
            Fixed::CommandPipe => 0x3000,
            Fixed::Buffer => 0x4000,
            Fixed::StatusStreams => 0x5000,
            Fixed::DataInStreams => 0x6000,
            Fixed::DataOutStreams => 0x7000,
            Fixed::EventRing => 0x8000,
        }
    }
}

impl Shape {
    ghost use Rattle.std.specs.Prelude.{◌≤◌};
    ghost use Rattle.host_layout.specs.Places.{tag_offset};

    /// Where an area of a tag begins.
    fn tag_offset(&self, tag: u8, area: TagArea) -> u32
        requires first { 1 ≤ tag }
        requires last { tag ≤ self.now.tags }
        ensures { result ≡ tag_offset self.now tag area }
    {
        let before = u32::from(tag - 1);
        let units = 0x1_0000 + 512 * before;
        let ring = self.pieces.ring_bytes();
        let rings = self.rings_offset() + before * (2 * ring);
        match area {
            TagArea::CommandUnit => units,
            TagArea::UnmapList => units + 0x20,
            TagArea::StatusRing => units + 0x40,
            TagArea::StatusUnit => units + 0x100,
            TagArea::DataInRing => rings,
            TagArea::DataOutRing => rings + ring,
        }
    }
}

impl Layout {
    ghost use Rattle.std.specs.Prelude.{◌↔◌, ◌*◌, ◌≤◌, IfSome, IsSome};
    ghost use Rattle.host_layout.specs.Places.{address_of, area_bytes, context_of, place_of};

    /// The layout of a shape from an address on. None where that is no multiple of 65,536, or the memory doesn't end below 2^64.
    pub fn at(shape: Shape, base: u64) -> Option<Layout>
        ensures made { IsSome result ↔ ((base % 65536 ≡ 0) × (base + bytes_of shape < 2 ^ 64)) }
        ensures same { IfSome result (λ layout. (layout.shape ≡ shape) × (layout.base ≡ base)) }
    {
        if base % 0x1_0000 != 0 || u64::from(shape.bytes()) > u64::MAX - base {
            return None;
        }
        Some(Layout { shape, base })
    }

    /// The address of an area with a fixed offset.
    #[tactic(auto, using(crate::proofs::Within::fixed_within))]
    pub fn fixed(&self, area: Fixed) -> u64
        ensures is { result ≡ address_of self.now (Area.At area) }
        ensures room { result + area_bytes self.now.shape (Area.At area) < 2 ^ 64 }
    {
        self.base + u64::from(area.offset())
    }

    /// The address of a context of the input context (6.2.5): 0 is the input control context, 1 the slot's, and one more than its
    /// device context index an endpoint's. None above 32.
    pub fn input_context(&self, index: u8) -> Option<u64>
        ensures { result ≡ context_of self.now Fixed.InputContext 33 index }
    {
        if index >= 33 {
            return None;
        }
        Some(
            self.fixed(Fixed::InputContext)
                + u64::from(index) * u64::from(self.shape.contexts.bytes()),
        )
    }

    /// The address of a context of the device context (6.2.1): 0 is the slot's, and its device context index an endpoint's. None
    /// above 31.
    pub fn device_context(&self, index: u8) -> Option<u64>
        ensures { result ≡ context_of self.now Fixed.DeviceContext 32 index }
    {
        if index >= 32 {
            return None;
        }
        Some(
            self.fixed(Fixed::DeviceContext)
                + u64::from(index) * u64::from(self.shape.contexts.bytes()),
        )
    }

    /// The address of an area of a tag. None for a tag that isn't 1 to the shape's tags.
    #[tactic(auto, using(crate::proofs::Within::tag_within))]
    pub fn of_tag(&self, tag: u8, area: TagArea) -> Option<u64>
        ensures is { result ≡ place_of self.now (Area.OfTag tag area) }
        ensures room { IfSome result (λ at. at + area_bytes self.now.shape (Area.OfTag tag area) < 2 ^ 64) }
    {
        if tag == 0 || tag > self.shape.tags {
            return None;
        }
        Some(self.base + u64::from(self.shape.tag_offset(tag, area)))
    }

    /// The address of the page behind the data rings.
    pub fn empty_page(&self) -> u64
        ensures { result ≡ address_of self.now Area.EmptyPage }
    {
        self.base + u64::from(self.shape.empty_offset())
    }

    /// The address of the scratchpads' array. None where the controller asks for no scratchpads.
    pub fn scratchpad_array(&self) -> Option<u64>
        ensures { result ≡ place_of self.now Area.ScratchpadArray }
    {
        if self.shape.scratchpads == 0 {
            return None;
        }
        Some(self.base + u64::from(self.shape.array_offset()))
    }

    /// The address of a scratchpad, counted from 0. None for one that the controller doesn't ask for.
    pub fn scratchpad(&self, number: u16) -> Option<u64>
        ensures { result ≡ place_of self.now (Area.Scratchpad number) }
    {
        if number >= self.shape.scratchpads {
            return None;
        }
        let before = u32::from(number) * self.shape.page.bytes();
        Some(self.base + u64::from(self.shape.scratchpads_offset() + before))
    }
}
