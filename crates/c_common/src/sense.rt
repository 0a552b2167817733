//! Sense data in a room of fixed size.
ghost use Rattle.std.specs.Prelude.{◌≡◌, ◌≤◌, length};
ghost use Rattle.c_common.specs.Bytes.{padded};

use uas_iu::MAX_SENSE_BYTES;

/// Sense data, and zeros behind it.
pub fn padded(sense: &[u8]) -> [u8; MAX_SENSE_BYTES]
    requires { length sense.now ≤ 96 }
    ensures { result ≡ padded sense.now (length sense.now) }
{
    let mut all = [0; MAX_SENSE_BYTES];
    all[..sense.len()].copy_from_slice(sense);
    all
}
