//! The names of codes, statuses and refusals.

ghost use Rattle.std.specs.Prelude.{◌≡◌, option_map};
ghost use Rattle.uas_decode.specs.Names.{code_name, door_name, function_name, line_fault_name, response_name, sense_name, status_name, trb_fault_name};
ghost use Rattle.uas_decode.specs.Names.{unit_fault_name};

use crate::LineFault;
use scsi_cmd::Sense;
use uas_iu::IuFault;
use xhci_trb::TrbFault;

/// The name of what is wrong with a line's words or bytes.
pub(crate) fn line_fault_name(fault: LineFault) -> &'static str
    ensures { result.now ≡ line_fault_name fault }
{
    match fault {
        LineFault::NoDigits => "NoDigits",
        LineFault::NotHex => "NotHex",
        LineFault::WrongNumberOfDigits => "WrongNumberOfDigits",
        LineFault::NumberOutOfRange => "NumberOutOfRange",
        LineFault::ReservedSet => "ReservedSet",
        LineFault::NotFixedFormat => "NotFixedFormat",
    }
}

/// The name of a refusal of a TRB.
pub(crate) fn trb_fault_name(fault: TrbFault) -> &'static str
    ensures { result.now ≡ trb_fault_name fault }
{
    match fault {
        TrbFault::UnknownType(_) => "UnknownType",
        TrbFault::LengthOver => "LengthOver",
        TrbFault::ReservedSet => "ReservedSet",
    }
}

/// The name of a refusal of a unit.
pub(crate) fn unit_fault_name(fault: IuFault) -> &'static str
    ensures { result.now ≡ unit_fault_name fault }
{
    match fault {
        IuFault::UnknownId => "UnknownId",
        IuFault::Short => "Short",
        IuFault::Long => "Long",
        IuFault::ReservedSet => "ReservedSet",
        IuFault::LengthField => "LengthField",
    }
}

/// The name of a completion code (xHCI 1.2, 6.4.5), where the profile has it.
#[tactic(auto, unfolding(crate::specs::Names::code_name))]
pub(crate) fn code_name(code: u8) -> Option<&'static str>
    ensures { option_map (λ name. name.now) result ≡ code_name code }
{
    match code {
        1 => Some("Success"),
        5 => Some("TRB Error"),
        13 => Some("Short Packet"),
        19 => Some("Context State Error"),
        34 => Some("Invalid Stream ID"),
        _ => None,
    }
}

/// The name of a status (SAM).
#[tactic(auto, unfolding(crate::specs::Names::status_name))]
pub(crate) fn status_name(status: u8) -> Option<&'static str>
    ensures { option_map (λ name. name.now) result ≡ status_name status }
{
    match status {
        0x00 => Some("GOOD"),
        0x02 => Some("CHECK CONDITION"),
        0x04 => Some("CONDITION MET"),
        0x08 => Some("BUSY"),
        0x18 => Some("RESERVATION CONFLICT"),
        0x28 => Some("TASK SET FULL"),
        0x30 => Some("ACA ACTIVE"),
        0x40 => Some("TASK ABORTED"),
        _ => None,
    }
}

/// The name of a response code (INCITS 471), where the profile has it.
#[tactic(auto, unfolding(crate::specs::Names::response_name))]
pub(crate) fn response_name(code: u8) -> &'static str
    ensures { result.now ≡ response_name code }
{
    match code {
        0x00 => " COMPLETE",
        0x02 => " INVALID INFORMATION UNIT",
        0x04 => " NOT SUPPORTED",
        0x08 => " SUCCEEDED",
        0x09 => " INCORRECT LUN",
        _ => "",
    }
}

/// The name of a task management function (INCITS 471), where the profile has it.
#[tactic(auto, unfolding(crate::specs::Names::function_name))]
pub(crate) fn function_name(function: u8) -> Option<&'static str>
    ensures { option_map (λ name. name.now) result ≡ function_name function }
{
    match function {
        0x01 => Some("ABORT TASK"),
        0x08 => Some("LOGICAL UNIT RESET"),
        0x80 => Some("QUERY TASK"),
        _ => None,
    }
}

/// The meaning of a sense key, code and qualifier (SPC), where the profile has it, with a space before it.
#[tactic(auto, unfolding(crate::specs::Names::sense_name))]
pub(crate) fn sense_name(sense: &Sense) -> &'static str
    ensures { result.now ≡ sense_name sense.now }
{
    match (sense.key, sense.asc, sense.ascq) {
        (0x3, 0x0c, 0x00) => " write error",
        (0x3, 0x11, 0x00) => " unrecovered read error",
        (0x5, 0x20, 0x00) => " invalid command operation code",
        (0x5, 0x21, 0x00) => " logical block address out of range",
        (0x5, 0x24, 0x00) => " invalid field in cdb",
        (0x5, 0x25, 0x00) => " logical unit not supported",
        (0x6, 0x29, 0x03) => " bus device reset function occurred",
        _ => "",
    }
}

/// The name of a doorbell's target (xHCI 1.2, 5.6), where the profile has it, with a space before it.
#[tactic(auto, unfolding(crate::specs::Names::door_name))]
pub(crate) fn door_name(target: u8) -> &'static str
    ensures { result.now ≡ door_name target }
{
    match target {
        0 => " (command ring)",
        2 => " (command)",
        3 => " (status)",
        4 => " (data-out)",
        5 => " (data-in)",
        _ => "",
    }
}
