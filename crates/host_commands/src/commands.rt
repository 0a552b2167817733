//! The commands of the host set, by operation code and service action.
ghost use Rattle.std.specs.Prelude.{◌≡◌, ◌≤◌, length};
ghost use Rattle.host_commands.specs.Commands.{attention_of, has_service_actions, host_attention, named_command};
ghost use Rattle.host_commands.specs.Commands.{of_maintenance, of_six, of_sixteen, of_ten, of_twelve, usage_of};

use crate::{Attention, CommandSet, DiskCommand, HostCommand};

const TEST_UNIT_READY: u8 = 0x00;

pub(crate) const REQUEST_SENSE: u8 = 0x03;

const READ_6: u8 = 0x08;

const WRITE_6: u8 = 0x0a;

pub(crate) const INQUIRY: u8 = 0x12;

const MODE_SENSE_6: u8 = 0x1a;

const START_STOP_UNIT: u8 = 0x1b;

const READ_CAPACITY_10: u8 = 0x25;

const READ_10: u8 = 0x28;

const WRITE_10: u8 = 0x2a;

const VERIFY_10: u8 = 0x2f;

const SYNCHRONIZE_CACHE_10: u8 = 0x35;

const MODE_SENSE_10: u8 = 0x5a;

const READ_16: u8 = 0x88;

const WRITE_16: u8 = 0x8a;

const VERIFY_16: u8 = 0x8f;

const SYNCHRONIZE_CACHE_16: u8 = 0x91;

pub(crate) const SERVICE_ACTION_IN_16: u8 = 0x9e;

pub(crate) const REPORT_LUNS: u8 = 0xa0;

pub(crate) const MAINTENANCE_IN: u8 = 0xa3;

const READ_12: u8 = 0xa8;

const WRITE_12: u8 = 0xaa;

const VERIFY_12: u8 = 0xaf;

const REPORT_SUPPORTED_OPERATION_CODES: u16 = 0x0c;

const REPORT_SUPPORTED_TASK_MANAGEMENT_FUNCTIONS: u16 = 0x0d;

/// The group code is in the bits from this one on.
const GROUP_BIT: u8 = 5;

/// All commands, by rising operation code and service action.
pub(crate) const ALL_COMMANDS: [DiskCommand; 24] = [
    DiskCommand::Host(HostCommand::TestUnitReady),
    DiskCommand::Host(HostCommand::RequestSense),
    DiskCommand::Host(HostCommand::Read6),
    DiskCommand::Host(HostCommand::Write6),
    DiskCommand::Host(HostCommand::Inquiry),
    DiskCommand::Host(HostCommand::ModeSense6),
    DiskCommand::Host(HostCommand::StartStopUnit),
    DiskCommand::Host(HostCommand::ReadCapacity10),
    DiskCommand::Host(HostCommand::Read10),
    DiskCommand::Host(HostCommand::Write10),
    DiskCommand::Host(HostCommand::Verify10),
    DiskCommand::Host(HostCommand::SynchronizeCache10),
    DiskCommand::Host(HostCommand::ModeSense10),
    DiskCommand::Host(HostCommand::Read16),
    DiskCommand::Host(HostCommand::Write16),
    DiskCommand::Host(HostCommand::Verify16),
    DiskCommand::Host(HostCommand::SynchronizeCache16),
    DiskCommand::Host(HostCommand::ReadCapacity16),
    DiskCommand::Host(HostCommand::ReportLuns),
    DiskCommand::Host(HostCommand::ReportSupportedOperationCodes),
    DiskCommand::Host(HostCommand::ReportSupportedTaskManagementFunctions),
    DiskCommand::Host(HostCommand::Read12),
    DiskCommand::Host(HostCommand::Write12),
    DiskCommand::Host(HostCommand::Verify12),
];

/// The command of an operation code and a service action, which only A3h looks at.
pub fn named_command(code: u8, action: u8) -> Option<HostCommand>
    ensures { result ≡ named_command code action }
{
    match code >> GROUP_BIT {
        0 => of_six(code),
        1 | 2 => of_ten(code),
        4 => of_sixteen(code),
        5 => of_twelve(code, action),
        _ => None,
    }
}

fn of_six(code: u8) -> Option<HostCommand>
    ensures { result ≡ of_six code }
{
    match code {
        TEST_UNIT_READY => Some(HostCommand::TestUnitReady),
        REQUEST_SENSE => Some(HostCommand::RequestSense),
        READ_6 => Some(HostCommand::Read6),
        WRITE_6 => Some(HostCommand::Write6),
        INQUIRY => Some(HostCommand::Inquiry),
        MODE_SENSE_6 => Some(HostCommand::ModeSense6),
        START_STOP_UNIT => Some(HostCommand::StartStopUnit),
        _ => None,
    }
}

fn of_ten(code: u8) -> Option<HostCommand>
    ensures { result ≡ of_ten code }
{
    match code {
        READ_CAPACITY_10 => Some(HostCommand::ReadCapacity10),
        READ_10 => Some(HostCommand::Read10),
        WRITE_10 => Some(HostCommand::Write10),
        VERIFY_10 => Some(HostCommand::Verify10),
        SYNCHRONIZE_CACHE_10 => Some(HostCommand::SynchronizeCache10),
        MODE_SENSE_10 => Some(HostCommand::ModeSense10),
        _ => None,
    }
}

fn of_sixteen(code: u8) -> Option<HostCommand>
    ensures { result ≡ of_sixteen code }
{
    match code {
        READ_16 => Some(HostCommand::Read16),
        WRITE_16 => Some(HostCommand::Write16),
        VERIFY_16 => Some(HostCommand::Verify16),
        SYNCHRONIZE_CACHE_16 => Some(HostCommand::SynchronizeCache16),
        SERVICE_ACTION_IN_16 => Some(HostCommand::ReadCapacity16),
        _ => None,
    }
}

fn of_twelve(code: u8, action: u8) -> Option<HostCommand>
    ensures { result ≡ of_twelve code action }
{
    match code {
        REPORT_LUNS => Some(HostCommand::ReportLuns),
        MAINTENANCE_IN => of_maintenance(u16::from(action)),
        READ_12 => Some(HostCommand::Read12),
        WRITE_12 => Some(HostCommand::Write12),
        VERIFY_12 => Some(HostCommand::Verify12),
        _ => None,
    }
}

pub(crate) fn of_maintenance(action: u16) -> Option<HostCommand>
    ensures { result ≡ of_maintenance action }
{
    match action {
        REPORT_SUPPORTED_OPERATION_CODES => Some(HostCommand::ReportSupportedOperationCodes),
        REPORT_SUPPORTED_TASK_MANAGEMENT_FUNCTIONS => {
            Some(HostCommand::ReportSupportedTaskManagementFunctions)
        }
        _ => None,
    }
}

/// Whether the commands of an operation code are told apart by a service action.
pub(crate) fn has_service_actions(code: u8) -> bool
    ensures { result ≡ has_service_actions code }
{
    code == SERVICE_ACTION_IN_16 || code == MAINTENANCE_IN
}

/// What a CDB has to do with a unit attention, also where it has a fault (SAM). In the profile's set INQUIRY ignores one; in
/// the host set REPORT LUNS does too, and REQUEST SENSE gives it.
pub fn attention_of(code: u8, set: &CommandSet) -> Attention
    ensures { result ≡ attention_of code set.now }
{
    match set {
        CommandSet::Profile => if code == INQUIRY {
            Attention::Ignored
        } else {
            Attention::Reported
        }
        CommandSet::Host { .. } | CommandSet::Disk => host_attention(code),
    }
}

fn host_attention(code: u8) -> Attention
    ensures { result ≡ host_attention code }
{
    match code {
        INQUIRY | REPORT_LUNS => Attention::Ignored,
        REQUEST_SENSE => Attention::Given,
        _ => Attention::Reported,
    }
}

impl HostCommand {
    /// The bits of its CDB that are used, all bytes of the CDB (SPC, CDB USAGE DATA): byte 0 is the operation code, and the
    /// service action is itself.
    pub fn usage(self) -> &'static [u8]
        ensures bytes { result.now ≡ usage_of self }
        ensures most { length result.now ≤ 16 }
    {
        match self {
            HostCommand::TestUnitReady => &[TEST_UNIT_READY, 0, 0, 0, 0, 0],
            HostCommand::RequestSense => &[REQUEST_SENSE, 1, 0, 0, 0xff, 0],
            HostCommand::Read6 => &[READ_6, 0x1f, 0xff, 0xff, 0xff, 0],
            HostCommand::Write6 => &[WRITE_6, 0x1f, 0xff, 0xff, 0xff, 0],
            HostCommand::Inquiry => &[INQUIRY, 1, 0xff, 0xff, 0xff, 0],
            HostCommand::ModeSense6 => &[MODE_SENSE_6, 8, 0xff, 0xff, 0xff, 0],
            HostCommand::StartStopUnit => &[START_STOP_UNIT, 0, 0, 0, 0xf7, 0],
            HostCommand::ReadCapacity10 => b"\x25\0\0\0\0\0\0\0\0\0",
            HostCommand::Read10 => b"\x28\xf8\xff\xff\xff\xff\0\xff\xff\0",
            HostCommand::Write10 => b"\x2a\xf8\xff\xff\xff\xff\0\xff\xff\0",
            HostCommand::Verify10 => b"\x2f\xf6\xff\xff\xff\xff\0\xff\xff\0",
            HostCommand::SynchronizeCache10 => b"\x35\0\xff\xff\xff\xff\0\xff\xff\0",
            HostCommand::ModeSense10 => b"\x5a\x08\xff\xff\0\0\0\xff\xff\0",
            HostCommand::Read16 => {
                b"\x88\xf8\xff\xff\xff\xff\xff\xff\xff\xff\xff\xff\xff\xff\0\0"
            }
            HostCommand::Write16 => {
                b"\x8a\xf8\xff\xff\xff\xff\xff\xff\xff\xff\xff\xff\xff\xff\0\0"
            }
            HostCommand::Verify16 => {
                b"\x8f\xf6\xff\xff\xff\xff\xff\xff\xff\xff\xff\xff\xff\xff\0\0"
            }
            HostCommand::SynchronizeCache16 => {
                b"\x91\0\xff\xff\xff\xff\xff\xff\xff\xff\xff\xff\xff\xff\0\0"
            }
            HostCommand::ReadCapacity16 => b"\x9e\x10\0\0\0\0\0\0\0\0\xff\xff\xff\xff\0\0",
            HostCommand::ReportLuns => b"\xa0\0\xff\0\0\0\xff\xff\xff\xff\0\0",
            HostCommand::ReportSupportedOperationCodes => {
                b"\xa3\x0c\x87\xff\xff\xff\xff\xff\xff\xff\0\0"
            }
            HostCommand::ReportSupportedTaskManagementFunctions => {
                b"\xa3\x0d\x80\0\0\0\xff\xff\xff\xff\0\0"
            }
            HostCommand::Read12 => b"\xa8\xf8\xff\xff\xff\xff\xff\xff\xff\xff\0\0",
            HostCommand::Write12 => b"\xaa\xf8\xff\xff\xff\xff\xff\xff\xff\xff\0\0",
            HostCommand::Verify12 => b"\xaf\xf6\xff\xff\xff\xff\xff\xff\xff\xff\0\0",
        }
    }
}
