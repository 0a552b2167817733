//! Logical unit numbers below 256.
ghost use Rattle.std.specs.Prelude.{◌≡◌, ℕ, Some, IfSome};
ghost use Rattle.uas_iu.specs.Lun.{lun_text};

use crate::LUN_BYTES;

/// The bytes of the logical unit `number` (SAM, single level LUN structure).
pub fn lun_bytes(number: u8) -> [u8; LUN_BYTES]
    ensures { result ≡ lun_text number }
{
    [0, number, 0, 0, 0, 0, 0, 0]
}

/// The logical unit number below 256 that has these bytes, or None where there is none.
pub fn lun_number(lun: &[u8; LUN_BYTES]) -> Option<u8>
    ensures found { IfSome result (λ number. lun.now ≡ lun_text number) }
    ensures only { (number : ℕ) → lun.now ≡ lun_text number → result ≡ Some number }
{
    match lun {
        [0, number, 0, 0, 0, 0, 0, 0] => Some(*number),
        _ => None,
    }
}
