//! What the CDBs of a command set ask.
ghost use Rattle.std.specs.Prelude.{◌≡◌, ◌≤◌, IfOk};
ghost use Rattle.host_commands.specs.Meaning.{IsWorkOn, asked_of, asked_of_none, command_asked, host_asked_of_none, most_moved};
ghost use Rattle.uas_profile.specs.declared.TheConstants.{MAX_UNITS};

use crate::blocks::{goes_through, protects, reads, synchronizes, verifies, writes};
use crate::commands::{INQUIRY, REPORT_LUNS, REQUEST_SENSE, named_command};
use crate::disk::{read_disk, read_disk_of_none};
use crate::fields::{action_in, short_extent, sixteen_extent, ten_extent, twelve_extent, two_at};
use crate::given::{
    read_capacity, read_inquiry, read_long_capacity, read_mode_sense, read_operation_codes,
    read_report_luns, read_request_sense, read_start_stop, read_task_functions, sense_of,
};
use crate::profile::{read_profile, read_profile_of_none};
use crate::{
    CommandSet, HostCommand, LogicalUnitShape, ModeForm, SerialNumber, TransferLength,
    UnitAttention, UnitNames, Work,
};
use scsi_cmd::Sense;

/// What 16 bytes ask in a command set of a logical unit of this shape, of a device that has so many logical units, at most 15
/// (`MAX_UNITS`). REQUEST SENSE tells of a unit attention where there is one; of all other commands the caller asks
/// [`attention_of`](crate::attention_of) first. Refused with the sense of the first fault.
#[tactic(auto, unfolding(crate::specs::Meaning::asked_of))]
pub fn read(
    cdb: &[u8; 16],
    set: &CommandSet,
    shape: &LogicalUnitShape,
    logical_units: u8,
    attention: Option<UnitAttention>,
) -> Result<Work, Sense>
    requires { logical_units ≤ MAX_UNITS }
    ensures work { result ≡ asked_of cdb.now set.now shape.now logical_units attention }
    ensures on { IfOk result (IsWorkOn shape.now.blocks (most_moved set.now shape.now)) }
{
    match set {
        CommandSet::Profile => read_profile(cdb, shape),
        CommandSet::Host { maximum } => {
            match named_command(cdb[0], action_in(cdb)) {
                Some(command) => {
                    read_command(command, cdb, *maximum, shape, logical_units, attention)
                }
                None => Err(Sense::INVALID_OPERATION_CODE),
            }
        }
        CommandSet::Disk => read_disk(cdb, shape, logical_units, attention),
    }
}

/// What 16 bytes ask in a command set where no logical unit is: INQUIRY tells so in its data, and in the host set REPORT LUNS is
/// answered as ever, and REQUEST SENSE gives LOGICAL UNIT NOT SUPPORTED. All else is refused with that.
#[tactic(auto, unfolding(crate::specs::Meaning::asked_of_none))]
pub fn read_without_logical_unit(
    cdb: &[u8; 16],
    set: &CommandSet,
    logical_units: u8,
) -> Result<Work, Sense>
    requires { logical_units ≤ MAX_UNITS }
    ensures work { result ≡ asked_of_none cdb.now set.now logical_units }
    ensures on { IfOk result (IsWorkOn 0 0) }
{
    match set {
        CommandSet::Profile => read_profile_of_none(cdb),
        CommandSet::Host { maximum } => read_host_of_none(cdb, *maximum, logical_units),
        CommandSet::Disk => read_disk_of_none(cdb, logical_units),
    }
}

/// What 16 bytes ask in the host set where no logical unit is.
pub(crate) fn read_host_of_none(
    cdb: &[u8; 16],
    maximum: TransferLength,
    logical_units: u8,
) -> Result<Work, Sense>
    requires { logical_units ≤ MAX_UNITS }
    ensures work { result ≡ host_asked_of_none cdb.now maximum logical_units }
    ensures on { IfOk result (IsWorkOn 0 0) }
{
    match cdb[0] {
        INQUIRY => read_inquiry(
            cdb,
            false,
            SerialNumber::zero(),
            UnitNames::usual(),
            maximum,
        ),
        REPORT_LUNS => read_report_luns(cdb, logical_units),
        REQUEST_SENSE => read_request_sense(cdb, Sense::UNIT_NOT_SUPPORTED),
        _ => Err(Sense::UNIT_NOT_SUPPORTED),
    }
}

/// What a command of the host set asks.
pub(crate) fn read_command(
    command: HostCommand,
    cdb: &[u8; 16],
    maximum: TransferLength,
    shape: &LogicalUnitShape,
    logical_units: u8,
    attention: Option<UnitAttention>,
) -> Result<Work, Sense>
    requires { logical_units ≤ MAX_UNITS }
    ensures work { result ≡ command_asked command cdb.now maximum shape.now logical_units attention }
    ensures on { IfOk result (IsWorkOn shape.now.blocks maximum) }
{
    let blocks = shape.blocks();
    let protects = protects(cdb);
    match command {
        HostCommand::TestUnitReady => Ok(Work::Nothing),
        HostCommand::RequestSense => read_request_sense(cdb, sense_of(attention)),
        HostCommand::Read6 => reads(false, short_extent(cdb), maximum, blocks),
        HostCommand::Write6 => writes(false, short_extent(cdb), false, maximum, shape),
        HostCommand::Inquiry => read_inquiry(cdb, true, shape.serial(), shape.names(), maximum),
        HostCommand::ModeSense6 => { read_mode_sense(ModeForm::Six, u32::from(cdb[4]), cdb, shape) }
        HostCommand::StartStopUnit => read_start_stop(cdb),
        HostCommand::ReadCapacity10 => Ok(read_capacity(shape)),
        HostCommand::Read10 => reads(protects, ten_extent(cdb), maximum, blocks),
        HostCommand::Write10 => {
            writes(protects, ten_extent(cdb), goes_through(cdb), maximum, shape)
        }
        HostCommand::Verify10 => verifies(cdb, ten_extent(cdb), maximum, blocks),
        HostCommand::SynchronizeCache10 => synchronizes(ten_extent(cdb), blocks),
        HostCommand::ModeSense10 => {
            read_mode_sense(ModeForm::Ten, u32::from(two_at(cdb, 7)), cdb, shape)
        }
        HostCommand::Read16 => reads(protects, sixteen_extent(cdb), maximum, blocks),
        HostCommand::Write16 => {
            writes(
                protects,
                sixteen_extent(cdb),
                goes_through(cdb),
                maximum,
                shape,
            )
        }
        HostCommand::Verify16 => verifies(cdb, sixteen_extent(cdb), maximum, blocks),
        HostCommand::SynchronizeCache16 => synchronizes(sixteen_extent(cdb), blocks),
        HostCommand::ReadCapacity16 => read_long_capacity(cdb, shape),
        HostCommand::ReportLuns => read_report_luns(cdb, logical_units),
        HostCommand::ReportSupportedOperationCodes => read_operation_codes(cdb),
        HostCommand::ReportSupportedTaskManagementFunctions => read_task_functions(cdb),
        HostCommand::Read12 => reads(protects, twelve_extent(cdb), maximum, blocks),
        HostCommand::Write12 => {
            writes(
                protects,
                twelve_extent(cdb),
                goes_through(cdb),
                maximum,
                shape,
            )
        }
        HostCommand::Verify12 => verifies(cdb, twelve_extent(cdb), maximum, blocks),
    }
}
