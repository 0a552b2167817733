//! An information unit as its bytes.
ghost use Rattle.std.specs.Prelude.{◌≡◌, ◌≤◌, ◌<◌, ◌++◌, drop, length, IfNone, IfSome};
ghost use Rattle.uas_iu.specs.Units.{unit_size, unit_text};

use arrayvec::ArrayVec;
use uas_iu::Iu;

/// Writes an information unit to the front of `bytes`, and tells how many it has; `None` where there is too little room.
#[tactic(auto, using(crate::proofs::Texts::text_size))]
pub fn put_unit(unit: &Iu, bytes: &mut [u8]) -> Option<usize>
    ensures size { IfSome result (λ size. size ≡ unit_size unit.now) }
    ensures room { IfSome result (λ size. size ≤ length bytes.old) }
    ensures text { IfSome result (λ size. bytes.new ≡ unit_text unit.now ++ drop (unit_size unit.now) bytes.old) }
    ensures no_room { IfNone result (length bytes.old < unit_size unit.now) }
    ensures as_it_was { IfNone result (bytes.new ≡ bytes.old) }
{
    let mut text = ArrayVec::new();
    uas_iu::write(unit, &mut text);
    let size = text.len();
    if bytes.len() < size {
        return None;
    }
    bytes[..size].copy_from_slice(&text);
    Some(size)
}
