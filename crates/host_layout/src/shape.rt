//! What the layout of a driver's memory depends on, and how many bytes it has.
ghost use Rattle.std.specs.Prelude.{◌≡◌, ◌≤◌, ◌<◌, ◌+◌, ◌*◌, ◌^◌, ◌↔◌, ◌⊎◌, IfSome, IsSome};
ghost use Rattle.host_layout.specs.Sizes.{page_bytes, page_of, pieces_number, pieces_of, ring_bytes, round_up};

use host_trbs::ContextSize;

/// The most TRBs of a TD's data: one less than a power of two, so that with its Link a TD has a power of two of places.
#[derive(Clone, Copy, Debug, PartialEq, Eq)]
pub enum Pieces {
    Seven,
    Fifteen,
    ThirtyOne,
    SixtyThree,
    HundredTwentySeven,
}

impl Pieces {
    /// None for a number that is none of the five.
    pub fn of(number: u8) -> Option<Pieces>
        ensures { result ≡ pieces_of number }
    {
        match number {
            7 => Some(Pieces::Seven),
            15 => Some(Pieces::Fifteen),
            31 => Some(Pieces::ThirtyOne),
            63 => Some(Pieces::SixtyThree),
            127 => Some(Pieces::HundredTwentySeven),
            _ => None,
        }
    }

    /// The number of TRBs.
    pub fn number(self) -> u8
        ensures is { result ≡ pieces_number self }
        ensures bound { result ≤ 127 }
    {
        match self {
            Pieces::Seven => 7,
            Pieces::Fifteen => 15,
            Pieces::ThirtyOne => 31,
            Pieces::SixtyThree => 63,
            Pieces::HundredTwentySeven => 127,
        }
    }

    /// Bytes of a data ring: three times so many TRBs and a Link.
    pub fn ring_bytes(self) -> u32
        ensures is { result ≡ ring_bytes self }
        ensures bound { result ≤ 6144 }
    {
        48 * (u32::from(self.number()) + 1)
    }
}

/// The controller's page: 4 to 64 KiB (PAGESIZE, 5.4.3).
#[derive(Clone, Copy, Debug, PartialEq, Eq)]
pub enum PageSize {
    Kib4,
    Kib8,
    Kib16,
    Kib32,
    Kib64,
}

impl PageSize {
    /// The page of the register PAGESIZE: bit n stands for 2 to the power of n + 12 bytes, and the lowest that is set counts.
    /// None where that is above 64 KiB.
    pub fn of(register: u32) -> Option<PageSize>
        ensures { result ≡ page_of register }
    {
        if register % 2 == 1 {
            Some(PageSize::Kib4)
        } else if register / 2 % 2 == 1 {
            Some(PageSize::Kib8)
        } else if register / 4 % 2 == 1 {
            Some(PageSize::Kib16)
        } else if register / 8 % 2 == 1 {
            Some(PageSize::Kib32)
        } else if register / 16 % 2 == 1 {
            Some(PageSize::Kib64)
        } else {
            None
        }
    }

    /// Bytes of a page.
    pub fn bytes(self) -> u32
        ensures is { result ≡ page_bytes self }
        ensures least { 4096 ≤ result }
        ensures most { result ≤ 65536 }
    {
        match self {
            PageSize::Kib4 => 4096,
            PageSize::Kib8 => 8192,
            PageSize::Kib16 => 16384,
            PageSize::Kib32 => 32768,
            PageSize::Kib64 => 65536,
        }
    }
}

/// What a layout depends on.
#[derive(Clone, Copy, Debug, PartialEq, Eq)]
pub struct Shape {
    /// Tags, 2 to 254: one for each command at a time, the last for task management.
    pub tags: u8,
    /// The most TRBs of a command's data.
    pub pieces: Pieces,
    /// Scratchpad buffers that the controller asks for, at most 1,023 (HCSPARAMS2).
    pub scratchpads: u16,
    /// The controller's page.
    pub page: PageSize,
    /// The controller's contexts.
    pub contexts: ContextSize,
    ghost two_tags: { 2 ≤ tags },
    ghost few_tags: { tags ≤ 254 },
    ghost few_scratchpads: { scratchpads ≤ 1023 },
}

impl Shape {
    ghost use Rattle.host_layout.specs.Shapes.{array_offset, bytes_of, empty_offset, max_primary, plain_bytes, rings_offset, scratchpads_offset, stream_contexts};

    /// None where `tags` is below 2 or above 254, or `scratchpads` above 1,023.
    pub fn new(
        tags: u8,
        pieces: Pieces,
        scratchpads: u16,
        page: PageSize,
        contexts: ContextSize,
    ) -> Option<Shape>
        ensures made { IsSome result ↔ ((2 ≤ tags) × (tags ≤ 254) × (scratchpads ≤ 1023)) }
        ensures numbers { IfSome result (λ shape. (shape.tags ≡ tags) × (shape.scratchpads ≡ scratchpads)) }
        ensures kinds { IfSome result (λ shape. (shape.pieces ≡ pieces) × (shape.page ≡ page) × (shape.contexts ≡ contexts)) }
    {
        if tags < 2 || tags > 254 || scratchpads > 1023 {
            return None;
        }
        Some(Shape {
            tags,
            pieces,
            scratchpads,
            page,
            contexts,
        })
    }

    /// MaxPStreams of the pipes with streams (6.2.3): the least with more stream contexts than tags, and at least 1.
    pub fn max_primary(&self) -> u8
        ensures is { result ≡ max_primary self.now.tags }
        ensures contexts { stream_contexts self.now.tags ≡ 2 ^ (result + 1) }
    {
        match self.tags {
            0..=3 => 1,
            4..=7 => 2,
            8..=15 => 3,
            16..=31 => 4,
            32..=63 => 5,
            64..=127 => 6,
            _ => 7,
        }
    }

    /// Stream contexts of each stream array: the least power of two above the tags, at least 4. Those of no tag are 0.
    pub fn stream_contexts(&self) -> u16
        ensures is { result ≡ stream_contexts self.now.tags }
        ensures above { self.now.tags < result }
        ensures least { (result ≡ 4) ⊎ (result ≤ 2 * self.now.tags) }
        ensures room { result ≤ 256 }
    {
        match self.tags {
            0..=3 => 4,
            4..=7 => 8,
            8..=15 => 16,
            16..=31 => 32,
            32..=63 => 64,
            64..=127 => 128,
            _ => 256,
        }
    }

    /// Where the data rings begin.
    pub(crate) fn rings_offset(&self) -> u32
        ensures is { result ≡ rings_offset self.now }
        ensures bound { result ≤ 200000 }
    {
        0x1_0000 + round_up(512 * u32::from(self.tags), 4096)
    }

    /// Where the page behind the data rings begins.
    pub(crate) fn empty_offset(&self) -> u32
        ensures is { result ≡ empty_offset self.now }
        ensures bound { result ≤ 4000000 }
    {
        let rings = u32::from(self.tags) * (2 * self.pieces.ring_bytes());
        self.rings_offset() + round_up(rings, 4096)
    }

    fn plain_bytes(&self) -> u32
        ensures is { result ≡ plain_bytes self.now }
        ensures bound { result ≤ 4004096 }
    {
        self.empty_offset() + 4096
    }

    /// Where the array of scratchpads begins.
    pub(crate) fn array_offset(&self) -> u32
        ensures is { result ≡ array_offset self.now }
        ensures bound { result ≤ 5000000 }
    {
        round_up(self.plain_bytes(), self.page.bytes())
    }

    /// Where the scratchpads begin.
    pub(crate) fn scratchpads_offset(&self) -> u32
        ensures is { result ≡ scratchpads_offset self.now }
        ensures bound { result ≤ 6000000 }
    {
        round_up(self.array_offset() + 8192, self.page.bytes())
    }

    /// Bytes in all.
    pub fn bytes(&self) -> u32
        ensures is { result ≡ bytes_of self.now }
        ensures bound { result < 2 ^ 27 }
    {
        if self.scratchpads == 0 {
            self.plain_bytes()
        } else {
            self.scratchpads_offset() + u32::from(self.scratchpads) * self.page.bytes()
        }
    }
}

/// The next multiple of a unit.
fn round_up(bytes: u32, unit: u32) -> u32
    requires some { 0 < unit }
    requires few { unit ≤ 65536 }
    requires room { bytes ≤ 10000000 }
    ensures is { result ≡ round_up bytes unit }
    ensures bound { result < bytes + unit }
{
    bytes + (unit - bytes % unit) % unit
}
