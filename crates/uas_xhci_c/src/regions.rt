//! The regions of memory that are lent for a call, and what is refused of them.
ghost use Rattle.std.specs.Prelude.{◌≡◌, ◌∷◌, [], nat_lt, not, true};
ghost use Rattle.c_common.specs.faults.Faults.{all_faults, is_among};
ghost use Rattle.uas_xhci_c.specs.RegionLaws.{OverlapIsCommon};
ghost use Rattle.std.specs.List.{list_all};
ghost use Rattle.uas_xhci_c.specs.Regions.{are_apart, end, fits, overlap, regions_fault, xhci_faults};

use guest_memory::Lent;

/// The most regions of a call.
pub const MOST_REGIONS: usize = 64;

/// More regions than a call takes.
pub const XHCI_MANY: u8 = 160;

/// A region that goes past the last address.
pub const XHCI_WRAPS: u8 = 161;

/// Two regions with an address in common.
pub const XHCI_OVERLAP: u8 = 162;

/// A region whose bytes are nowhere, which C tells before it calls.
pub const XHCI_NULL: u8 = 163;

/// The first fault of regions, or 0.
pub(crate) fn regions_fault(regions: &[Lent]) -> u8
    ensures { result ≡ regions_fault regions.now }
{
    if regions.len() > MOST_REGIONS {
        return XHCI_MANY;
    }
    if !all_fit(regions) {
        return XHCI_WRAPS;
    }
    if !are_apart(regions) {
        return XHCI_OVERLAP;
    }
    0
}

/// Whether each ends at 2^64 at the latest.
fn all_fit(regions: &[Lent]) -> bool
    ensures { result ≡ list_all fits regions.now }
{
    regions.iter().all(|region| fits(region))
}

fn fits(region: &Lent) -> bool
    ensures { result ≡ fits region.now }
{
    let base = region.base;
    let length = region.bytes.len() as u64;
    length == 0 || length - 1 <= u64::MAX - base
}

/// Whether no two have an address in common.
#[tactic(auto, using(crate::specs::RegionLaws::apart_from))]
fn are_apart(regions: &[Lent]) -> bool
    ensures { result ≡ are_apart regions.now }
{
    for i in 0..regions.len() {
        if !is_apart_from(&regions[i], &regions[i + 1..]) {
            return false;
        }
    }
    true
}

/// Whether a region has no address in common with any of others.
fn is_apart_from(first: &Lent, others: &[Lent]) -> bool
    ensures { result ≡ list_all (λ other. not (overlap first.now other)) others.now }
{
    others.iter().all(|other| !overlap(first, other))
}

/// Whether an address is in both.
fn overlap(one: &Lent, other: &Lent) -> bool
    ensures { result ≡ overlap one.now other.now }
{
    is_before_end(one, one.base)
        && is_before_end(other, one.base)
        && is_before_end(one, other.base)
        && is_before_end(other, other.base)
}

/// Whether an address is below a region's end.
fn is_before_end(region: &Lent, at: u64) -> bool
    ensures { result ≡ nat_lt at (end region.now) }
{
    at < region.base || at - region.base < region.bytes.len() as u64
}

#[tactic(auto, using(crate::specs::RegionLaws::overlap_is_common))]
/// Law: two regions that end in time overlap exactly where an address has a byte in both.
pub fn overlap_is_a_common_address(one: &Lent, other: &Lent)
    requires one { fits one.now ≡ true }
    requires other { fits other.now ≡ true }
    ensures { OverlapIsCommon one.now other.now }
{}

/// Law: a controller's own faults have numbers that no other fault has.
pub fn faults_are_new()
    ensures pinned { xhci_faults ≡ 160 ∷ 161 ∷ 162 ∷ 163 ∷ 164 ∷ 165 ∷ 166 ∷ 167 ∷ 168 ∷ 169 ∷ 170 ∷ 171 ∷ 172 ∷ [] }
    ensures new { list_all (λ number. not (is_among number all_faults)) xhci_faults ≡ true }
{}
