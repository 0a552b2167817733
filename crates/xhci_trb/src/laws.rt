//! The laws of the texts.

ghost use Rattle.std.specs.Prelude.{◌≡◌, None};
ghost use Rattle.byteorder.specs.Endian.{little_number};
ghost use Rattle.xhci_trb.specs.Words.{number_of, words_in};
ghost use Rattle.xhci_trb.specs.Text.{Fits, HasText, text, words_of, fault_in};
ghost use Rattle.xhci_trb.specs.Reader.{trb_in, cycle_in};

use crate::{Trb, decode, encode};
use byteorder::{ByteOrder, LittleEndian};

/// A text as the number of 128 bits that its bytes are, low byte first: the sum of the TRB's fields at their places (6.4).
/// Asks what [`encode`] asks.
pub fn text_number(trb: &Trb, cycle: bool) -> u128
    requires { Fits trb.now }
    ensures bytes { result ≡ little_number 16 (text trb.now cycle) }
    ensures fields { result ≡ number_of (words_of trb.now cycle) }
{
    LittleEndian::read_u128(&encode(trb, cycle))
}

/// The reader of words gives a text's TRB and Cycle bit back.
pub fn text_reads_back(trb: &Trb, cycle: bool)
    requires { Fits trb.now }
    ensures trb { trb_in (words_in (text trb.now cycle)) ≡ trb.now }
    ensures cycle { cycle_in (words_in (text trb.now cycle)) ≡ cycle }
{
    let _trb = *trb;
    let _cycle = cycle;
}

/// What the reader finds in bytes without a fault has a text, which is those bytes.
pub fn reading_writes_back(bytes: &[u8; 16])
    requires { fault_in (words_in bytes.now) ≡ None }
    ensures has_text { HasText (trb_in (words_in bytes.now)) }
    ensures bytes { text (trb_in (words_in bytes.now)) (cycle_in (words_in bytes.now)) ≡ bytes.now }
{
    let _read = decode(bytes);
}
