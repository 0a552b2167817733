//! The commands that give data of the logical unit or of the device, and START STOP UNIT.
ghost use Rattle.std.specs.Prelude.{◌≡◌, ℕ, ◌-◌, ◌≤◌, if◌then◌else◌, IfOk};
ghost use Rattle.scsi_cmd.specs.Meaning.{asks_for_other_action};
ghost use Rattle.host_commands.specs.Meaning.{IsWorkOn, codes_asked, descriptor_asked, inquiry_asked, long_capacity_asked, mode_sense_asked};
ghost use Rattle.host_commands.specs.Meaning.{operation_codes_asked, page_asked, report_luns_asked, request_sense_asked, sense_told};
ghost use Rattle.host_commands.specs.Meaning.{start_stop_asked, task_functions_asked};
ghost use Rattle.host_commands.specs.ModeData.{pages_of};
ghost use Rattle.host_commands.specs.OperationCodes.{named_action, named_either};
ghost use Rattle.host_commands.specs.Pages.{page_of};
ghost use Rattle.uas_profile.specs.declared.TheConstants.{MAX_UNITS};

use crate::commands::{
    MAINTENANCE_IN, SERVICE_ACTION_IN_16, has_service_actions, named_command, of_maintenance,
};
use crate::fields::{action_in, four_at, has_bit, two_at};
use crate::{
    BlockDescriptor, Data, HostCommand, LogicalUnitShape, ModeData, ModeForm, ModePages,
    SerialNumber, TransferLength, UnitAttention, UnitNames, VitalPage, Work,
};
use scsi_cmd::Sense;

/// The service action of READ CAPACITY(16).
const READ_CAPACITY_16: u8 = 0x10;

/// Bytes of the READ CAPACITY(10) data.
const CAPACITY_BYTES: u32 = 8;

/// The least allocation length of REPORT LUNS.
const LEAST_LUNS_BYTES: u32 = 16;

/// Sense that says nothing (SPC, NO SENSE).
const NO_SENSE: Sense = Sense {
    key: 0,
    asc: 0,
    ascq: 0,
};

/// Mode values can't be saved (SPC, SAVING PARAMETERS NOT SUPPORTED).
const SAVING_NOT_SUPPORTED: Sense = Sense {
    key: 0x5,
    asc: 0x39,
    ascq: 0x00,
};

/// The sense that REQUEST SENSE gives of a logical unit.
pub(crate) fn sense_of(attention: Option<UnitAttention>) -> Sense
    ensures { result ≡ sense_told attention }
{
    match attention {
        Some(attention) => attention.sense(),
        None => NO_SENSE,
    }
}

/// REQUEST SENSE: DESC asks for another format.
pub(crate) fn read_request_sense(cdb: &[u8; 16], sense: Sense) -> Result<Work, Sense>
    ensures { result ≡ request_sense_asked cdb.now sense }
{
    if has_bit(cdb[1], 0) {
        return Err(Sense::INVALID_FIELD_IN_CDB);
    }
    Ok(Work::Gives {
        given: Data::RequestSense(sense),
        allocation: u32::from(cdb[4]),
    })
}

/// INQUIRY: its standard data, or with EVPD a page.
pub(crate) fn read_inquiry(
    cdb: &[u8; 16],
    present: bool,
    serial: SerialNumber,
    names: UnitNames,
    maximum: TransferLength,
) -> Result<Work, Sense>
    ensures work { result ≡ inquiry_asked cdb.now present serial names maximum }
    ensures on { (blocks most : ℕ) → IfOk result (IsWorkOn blocks most) }
{
    let allocation = u32::from(two_at(cdb, 3));
    if has_bit(cdb[1], 0) {
        return page_asked(present, allocation, page_of(cdb[2], serial, names, maximum));
    }
    if cdb[2] != 0 {
        return Err(Sense::INVALID_FIELD_IN_CDB);
    }
    Ok(Work::Gives {
        given: Data::Inquiry { present, names },
        allocation,
    })
}

fn page_asked(present: bool, allocation: u32, page: Option<VitalPage>) -> Result<Work, Sense>
    ensures { result ≡ page_asked present allocation page }
{
    match page {
        Some(page) => Ok(Work::Gives {
            given: Data::VitalProductData { page, present },
            allocation,
        }),
        None => Err(Sense::INVALID_FIELD_IN_CDB),
    }
}

/// The page of a page code.
fn page_of(
    code: u8,
    serial: SerialNumber,
    names: UnitNames,
    maximum: TransferLength,
) -> Option<VitalPage>
    ensures { result ≡ page_of code serial names maximum }
{
    match code {
        0x00 => Some(VitalPage::SupportedPages),
        0x80 => Some(VitalPage::UnitSerialNumber(serial)),
        0x83 => Some(VitalPage::DeviceIdentification { serial, names }),
        0xb0 => Some(VitalPage::BlockLimits { maximum }),
        0xb1 => Some(VitalPage::BlockDeviceCharacteristics),
        0xb2 => Some(VitalPage::LogicalBlockProvisioning),
        _ => None,
    }
}

/// REPORT LUNS: all logical units, or none of the well known ones.
pub(crate) fn read_report_luns(cdb: &[u8; 16], logical_units: u8) -> Result<Work, Sense>
    requires { logical_units ≤ MAX_UNITS }
    ensures work { result ≡ report_luns_asked cdb.now logical_units }
    ensures on { (blocks most : ℕ) → IfOk result (IsWorkOn blocks most) }
{
    let allocation = four_at(cdb, 6);
    if allocation < LEAST_LUNS_BYTES {
        return Err(Sense::INVALID_FIELD_IN_CDB);
    }
    let count = match cdb[2] {
        0 | 2 => logical_units,
        1 => 0,
        _ => return Err(Sense::INVALID_FIELD_IN_CDB),
    };
    Ok(Work::Gives {
        given: Data::LogicalUnits { count },
        allocation,
    })
}

/// MODE SENSE, of this form and allocation length.
pub(crate) fn read_mode_sense(
    form: ModeForm,
    allocation: u32,
    cdb: &[u8; 16],
    shape: &LogicalUnitShape,
) -> Result<Work, Sense>
    ensures work { result ≡ mode_sense_asked form allocation cdb.now shape.now }
    ensures on { (blocks most : ℕ) → IfOk result (IsWorkOn blocks most) }
{
    let control = cdb[2] >> 6;
    if control == 3 {
        return Err(SAVING_NOT_SUPPORTED);
    }
    match pages_of(cdb[2] & 0x3f, cdb[3]) {
        Some(pages) => Ok(Work::Gives {
            given: Data::Mode(ModeData {
                form,
                read_only: shape.is_read_only(),
                descriptor: descriptor_asked(has_bit(cdb[1], 3), shape),
                pages,
                changeable: control == 1,
                writes_cached: true,
            }),
            allocation,
        }),
        None => Err(Sense::INVALID_FIELD_IN_CDB),
    }
}

/// The block descriptor, unless it is disabled (DBD).
fn descriptor_asked(disabled: bool, shape: &LogicalUnitShape) -> Option<BlockDescriptor>
    ensures { result ≡ descriptor_asked disabled shape.now }
{
    if disabled {
        return None;
    }
    Some(BlockDescriptor {
        blocks: shape.blocks(),
        block_length: shape.block_length(),
    })
}

/// The mode pages of a page code and a subpage code.
fn pages_of(page: u8, subpage: u8) -> Option<ModePages>
    ensures { result ≡ pages_of page subpage }
{
    match (page, subpage) {
        (0x08, 0) => Some(ModePages::Caching),
        (0x0a, 0) => Some(ModePages::Control),
        (0x3f, 0 | 0xff) => Some(ModePages::All),
        _ => None,
    }
}

/// START STOP UNIT: a stop brings all blocks to the medium, unless NO FLUSH is set.
pub(crate) fn read_start_stop(cdb: &[u8; 16]) -> Result<Work, Sense>
    ensures work { result ≡ start_stop_asked cdb.now }
    ensures on { (blocks most : ℕ) → IfOk result (IsWorkOn blocks most) }
{
    let flags = cdb[4];
    let loads = has_bit(flags, 1);
    let starts = has_bit(flags, 0);
    let keeps = has_bit(flags, 2);
    if loads || flags >> 4 != 0 {
        Err(Sense::INVALID_FIELD_IN_CDB)
    } else if starts || keeps {
        Ok(Work::Nothing)
    } else {
        Ok(Work::Synchronizes { lba: 0, count: 0 })
    }
}

/// READ CAPACITY(10).
pub(crate) fn read_capacity(shape: &LogicalUnitShape) -> Work
    ensures { result ≡ Work.Gives (Data.Capacity (shape.now.blocks - 1) shape.now.block_length) 8 }
{
    Work::Gives {
        given: Data::Capacity {
            last_block: shape.blocks() - 1,
            block_length: shape.block_length(),
        },
        allocation: CAPACITY_BYTES,
    }
}

pub(crate) fn asks_for_other_action(cdb: &[u8; 16]) -> bool
    ensures { result ≡ asks_for_other_action cdb.now }
{
    action_in(cdb) != READ_CAPACITY_16
}

/// READ CAPACITY(16): another service action of its operation code is a fault.
pub(crate) fn read_long_capacity(cdb: &[u8; 16], shape: &LogicalUnitShape) -> Result<Work, Sense>
    ensures work { result ≡ long_capacity_asked cdb.now shape.now }
    ensures on { (blocks most : ℕ) → IfOk result (IsWorkOn blocks most) }
{
    if asks_for_other_action(cdb) {
        return Err(Sense::INVALID_FIELD_IN_CDB);
    }
    Ok(Work::Gives {
        given: Data::LongCapacity {
            last_block: shape.blocks() - 1,
            block_length: shape.block_length(),
        },
        allocation: four_at(cdb, 10),
    })
}

/// REPORT SUPPORTED OPERATION CODES.
pub(crate) fn read_operation_codes(cdb: &[u8; 16]) -> Result<Work, Sense>
    ensures work { result ≡ operation_codes_asked cdb.now }
    ensures on { (blocks most : ℕ) → IfOk result (IsWorkOn blocks most) }
{
    let allocation = four_at(cdb, 6);
    let timeouts = has_bit(cdb[2], 7);
    codes_asked(cdb[2] & 7, cdb[3], two_at(cdb, 4), allocation, timeouts)
}

/// All operation codes for option 0, and the command of an operation code without service actions for 1, with them for 2, and
/// either for 3.
fn codes_asked(
    option: u8,
    code: u8,
    action: u16,
    allocation: u32,
    timeouts: bool,
) -> Result<Work, Sense>
    ensures work { result ≡ codes_asked option code action allocation timeouts }
    ensures on { (blocks most : ℕ) → IfOk result (IsWorkOn blocks most) }
{
    let has_actions = has_service_actions(code);
    let command = match option {
        0 => {
            return Ok(Work::Gives {
                given: Data::OperationCodes { timeouts },
                allocation,
            });
        }
        1 if !has_actions => named_command(code, 0),
        2 if has_actions => named_action(code, action),
        3 => named_either(code, action),
        _ => return Err(Sense::INVALID_FIELD_IN_CDB),
    };
    Ok(Work::Gives {
        given: Data::OperationCode { command, timeouts },
        allocation,
    })
}

/// The command of an operation code with service actions.
pub(crate) fn named_action(code: u8, action: u16) -> Option<HostCommand>
    ensures { result ≡ named_action code action }
{
    match code {
        MAINTENANCE_IN => of_maintenance(action),
        SERVICE_ACTION_IN_16 if action == u16::from(READ_CAPACITY_16) => {
            Some(HostCommand::ReadCapacity16)
        }
        _ => None,
    }
}

/// The command of any operation code; one without service actions has the action 0.
fn named_either(code: u8, action: u16) -> Option<HostCommand>
    ensures { result ≡ named_either code action }
{
    if has_service_actions(code) {
        named_action(code, action)
    } else if action == 0 {
        named_command(code, 0)
    } else {
        None
    }
}

/// REPORT SUPPORTED TASK MANAGEMENT FUNCTIONS: the allocation length has room for all of its data.
pub(crate) fn read_task_functions(cdb: &[u8; 16]) -> Result<Work, Sense>
    ensures work { result ≡ task_functions_asked cdb.now }
    ensures on { (blocks most : ℕ) → IfOk result (IsWorkOn blocks most) }
{
    let extended = has_bit(cdb[2], 7);
    let allocation = four_at(cdb, 6);
    if allocation < (if extended { 16 } else { 4 }) {
        return Err(Sense::INVALID_FIELD_IN_CDB);
    }
    Ok(Work::Gives {
        given: Data::TaskManagementFunctions { extended },
        allocation,
    })
}
