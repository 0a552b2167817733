//! Bytes, cut into descriptors.
ghost use Rattle.std.specs.Prelude.{◌≡◌, ◌+◌, ◌≤◌, false, true, length, IfSome, MatchOption};
ghost use Rattle.usb_descriptors.specs.Cutting.{IsDescriptor, behind, front, is_cut, is_front, least_length};

/// Types of descriptors (USB 3.2, table 9-6; INCITS 471 for pipe usage).
pub(crate) const CONFIGURATION: u8 = 0x02;

pub(crate) const INTERFACE: u8 = 0x04;

pub(crate) const ENDPOINT: u8 = 0x05;

pub(crate) const COMPANION: u8 = 0x30;

pub(crate) const PIPE_USAGE: u8 = 0x24;

/// Whether the bytes are descriptors to their end.
#[tactic(auto, using(crate::proofs::Cuts::cut_behind, crate::proofs::Cuts::cut_end))]
pub(crate) fn is_cut(bytes: &[u8]) -> bool
    ensures { result ≡ is_cut bytes.now }
{
    let mut rest = bytes;
    while let Some((_, behind)) = split_front(rest) {
        rest = behind;
    }
    rest.is_empty()
}

/// The descriptor at the front and the bytes behind it; None where no descriptor stands there.
#[tactic(auto, unfolding(crate::specs::Cutting::is_front))]
pub(crate) fn split_front(bytes: &[u8]) -> Option<(&[u8], &[u8])>
    ensures parts { MatchOption result (is_front bytes.now ≡ false) (λ parts. (is_front bytes.now ≡ true) × (parts.0.now ≡ front bytes.now) × (parts.1.now ≡ behind bytes.now)) }
    ensures long { IfSome result (λ parts. (2 ≤ length parts.0.now) × (length parts.0.now + length parts.1.now ≡ length bytes.now)) }
    ensures is { IfSome result (λ parts. IsDescriptor parts.0.now) }
{
    let [length, kind, ..] = bytes else {
        return None;
    };
    let length = usize::from(*length);
    if length < least_length(*kind) || bytes.len() < length {
        return None;
    }
    Some(bytes.split_at(length))
}

/// The least length of a descriptor of a type (9.6).
fn least_length(kind: u8) -> usize
    ensures value { result ≡ least_length kind }
    ensures least { 2 ≤ result }
{
    match kind {
        CONFIGURATION | INTERFACE => 9,
        ENDPOINT => 7,
        COMPANION => 6,
        _ => 2,
    }
}
