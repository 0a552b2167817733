//! Row 2: memory is lent.
ghost use Rattle.std.specs.Prelude.{◌≡◌, ◌≢◌, ◌↔◌, ◌≤◌, ◌<◌, ◌^◌, ◌%◌, ◌+◌, true, false, IfErr, IfSome, IsSome, OnErr, OnOk};
ghost use Rattle.host_layout.specs.Shapes.{bytes_of};
ghost use Rattle.bring_up.specs.Lending.{IsShapeFor, WantsFor, has_reach, is_wanting, lent, reach_bits, tags_of};

use crate::bring_up::{BringUp, LendFault, Stage};
use crate::controller::Controller;
use crate::options::Options;
use crate::taken::Taken;
use host_layout::{Layout, Shape};

/// The tags that memory is laid out for: no more than have stream contexts.
fn tags_of(options: &Options, c: &Controller) -> u8
    ensures { result ≡ tags_of options.now c.now }
{
    let numbers = match c.max_psa_size {
        0 => 1,
        1 => 3,
        2 => 7,
        3 => 15,
        4 => 31,
        5 => 63,
        6 => 127,
        _ => return options.tags,
    };
    options.tags.min(numbers)
}

/// The shape of the memory. None is of no controller: its counts don't fit their fields.
fn shape_of(options: &Options, c: &Controller) -> Option<Shape>
    ensures fits { IfSome result (IsShapeFor options.now c.now) }
    ensures there { (shape : Shape) → IsShapeFor options.now c.now shape → IsSome result }
{
    Shape::new(
        tags_of(options, c),
        options.pieces,
        c.scratchpads,
        c.page,
        c.contexts,
    )
}

/// How many bytes are wanted.
pub(crate) fn wanted_bytes(options: &Options, c: &Controller) -> u32
    ensures { WantsFor options.now c.now result }
{
    match shape_of(options, c) {
        Some(shape) => shape.bytes(),
        None => 0,
    }
}

/// The bits of the addresses that the controller reaches.
fn reach_bits(options: &Options, c: &Controller) -> u8
    ensures { result ≡ reach_bits options.now c.now }
{
    let width = if c.is_wide { 64 } else { 32 };
    let quirk = if options.quirks.has_36_bits { 36 } else { 64 };
    options.address_bits.min(width).min(quirk)
}

/// Whether it reaches so many bytes from an address on, and they cross no multiple of 2^32.
fn has_reach(options: &Options, c: &Controller, base: u64, bytes: u32) -> bool
    ensures { result ≡ has_reach options.now c.now base bytes }
{
    let bytes = u64::from(bytes);
    let bits = reach_bits(options, c);
    if bytes > u64::MAX - base {
        return false;
    }
    (bits >= 64 || base + bytes <= 1 << bits) && base % (1 << 32) + bytes <= 1 << 32
}

impl BringUp {
    /// Lends memory from an address on, in state `WantsMemory`. `Alignment` for no multiple of 65,536; `Reach` above the options'
    /// `address_bits`, where the controller doesn't reach it, and across a multiple of 2^32. A refusal changes nothing.
    pub fn lend(&mut self, base: u64) -> Result<(), LendFault>
        ensures not_asked { (result ≡ Err LendFault.NotAsked) ↔ (is_wanting self.old.stage ≡ false) }
        ensures alignment { (result ≡ Err LendFault.Alignment) ↔ ((is_wanting self.old.stage ≡ true) × (base % 65536 ≢ 0)) }
        ensures kept { OnErr result (self.new ≡ self.old) }
        ensures taken { OnOk result ((c : Controller) × (layout : Layout) × (self.old.stage ≡ Stage.Wanting c) × (layout.base ≡ base) × IsShapeFor self.old.options c layout.shape × (has_reach self.old.options c base (bytes_of layout.shape) ≡ true) × (self.new ≡ lent self.old c layout)) }
    {
        let Stage::Wanting(controller) = self.stage else {
            return Err(LendFault::NotAsked);
        };
        if base % 0x1_0000 != 0 {
            return Err(LendFault::Alignment);
        }
        let Some(layout) = layout_at(&self.options, &controller, base) else {
            return Err(LendFault::Reach);
        };
        self.stage = Stage::Taken(Taken::begun(controller, layout, self.options.quirks, self.time));
        Ok(())
    }
}

/// The memory from an address on; None where it isn't reached.
fn layout_at(options: &Options, c: &Controller, base: u64) -> Option<Layout>
    requires { base % 65536 ≡ 0 }
    ensures base { IfSome result (λ layout. layout.base ≡ base) }
    ensures shape { IfSome result (λ layout. IsShapeFor options.now c.now layout.shape) }
    ensures reach { IfSome result (λ layout. has_reach options.now c.now base (bytes_of layout.shape) ≡ true) }
{
    let shape = shape_of(options, c)?;
    if !has_reach(options, c, base, shape.bytes()) {
        return None;
    }
    Layout::at(shape, base)
}
