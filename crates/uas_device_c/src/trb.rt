//! TRBs for C (xHCI 1.2, 6.4): a record in place of the enum, which is `c_common::trb`'s.
ghost use Rattle.std.specs.Prelude.{◌≡◌, ◌<◌, ◌==◌, IfSome, Some};
ghost use Rattle.xhci_trb.specs.Words.{words_in};
ghost use Rattle.xhci_trb.specs.Text.{HasText, text, fault_in};
ghost use Rattle.xhci_trb.specs.Reader.{trb_in, cycle_in};
ghost use Rattle.c_common.specs.trb.TrbRecord.{named_trb, read_fault, trb_record, write_fault};

use c_common::faults::{TRB_UNFIT, TRB_UNKNOWN_TYPE};
use c_common::trb::{UasTrb, fault_number, read_record, record_of};

/// Writes the 16 bytes of a TRB with its Cycle bit. `TRB_UNKNOWN_TYPE` another type, `TRB_UNFIT` a field that doesn't fit its bits:
/// then `bytes` are as they were.
#[unsafe(no_mangle)]
pub extern "C" fn uas_trb_encode(trb: &UasTrb, bytes: &mut [u8; 16]) -> u8
    ensures fault { result ≡ write_fault trb.now }
    ensures has_text { result ≡ 0 → IfSome (named_trb trb.now) HasText }
    ensures text { result ≡ 0 → IfSome (named_trb trb.now) (λ named. bytes.new ≡ text named (trb.now.cycle == 1)) }
    ensures refused { 0 < result → bytes.new ≡ bytes.old }
{
    match read_record(trb) {
        Ok((trb, cycle)) => {
            *bytes = xhci_trb::encode(&trb, cycle);
            0
        }
        Err(fault) => fault.number(TRB_UNKNOWN_TYPE, TRB_UNFIT),
    }
}

/// Reads 16 bytes. `TRB_UNKNOWN_TYPE` another type, `TRB_LENGTH_OVER` a Normal length above 65,536, `TRB_RESERVED_SET` a reserved bit that
/// is set, the first that holds: then `trb` is as it was.
#[unsafe(no_mangle)]
pub extern "C" fn uas_trb_decode(bytes: &[u8; 16], trb: &mut UasTrb) -> u8
    ensures fault { result ≡ read_fault (fault_in (words_in bytes.now)) }
    ensures record { result ≡ 0 → trb.new ≡ trb_record (trb_in (words_in bytes.now)) (cycle_in (words_in bytes.now)) }
    ensures has_text { result ≡ 0 → HasText (trb_in (words_in bytes.now)) }
    ensures text { result ≡ 0 → bytes.now ≡ text (trb_in (words_in bytes.now)) (cycle_in (words_in bytes.now)) }
    ensures refused { 0 < result → trb.new ≡ trb.old }
{
    match xhci_trb::decode(bytes) {
        Ok((read, cycle)) => {
            *trb = record_of(&read, cycle);
            0
        }
        Err(fault) => fault_number(&fault),
    }
}
