//! The bytes of vital product data (SPC, SBC).
ghost use Rattle.std.specs.Prelude.{◌≡◌, ◌++◌, ◌<◌};
ghost use Rattle.arrayvec.specs.ArrayVec.{array_vec_len};
ghost use Rattle.scsi_cmd.specs.Data.{peripheral_byte};
ghost use Rattle.scsi_cmd.specs.Fields.{eight_bytes};
ghost use Rattle.host_commands.specs.Pages.{name_designator, page_bytes, vendor_designator};
ghost use Rattle.host_commands.specs.declared.TheConstants.{MOST_DATA_BYTES};

use crate::fields::put;
use crate::{MOST_DATA_BYTES, SerialNumber, UnitNames, VitalPage};
use arrayvec::ArrayVec;
use disk_units::{eight_bytes, eight_digits, four_bytes};

/// Peripheral qualifier and device type where no logical unit is (SPC).
const NO_UNIT: u8 = 0x7f;

/// NAA 3, locally assigned, in the highest four of 64 bits.
const LOCALLY_ASSIGNED: u64 = 3 << 60;

/// Writes a page into `into`, which is asked to be empty.
#[tactic(auto, unfolding(crate::specs::Pages::page_bytes))]
pub(crate) fn write_page(page: &VitalPage, present: bool, into: &mut ArrayVec<u8, MOST_DATA_BYTES>)
    requires { array_vec_len into.old ≡ 0 }
    ensures { into.new.items ≡ page_bytes page.now present }
{
    let peripheral = peripheral_byte(present);
    match page {
        VitalPage::SupportedPages => {
            put(
                into,
                &[peripheral, 0x00, 0, 6, 0x00, 0x80, 0x83, 0xb0, 0xb1, 0xb2],
            );
        }
        VitalPage::UnitSerialNumber(serial) => {
            put(into, &[peripheral, 0x80, 0, 8]);
            put(into, &eight_digits(serial.number()));
        }
        VitalPage::DeviceIdentification { serial, names } => {
            put(into, &[peripheral, 0x83, 0, 0x30]);
            write_vendor_designator(*serial, names, into);
            write_name_designator(*serial, into);
        }
        VitalPage::BlockLimits { maximum } => {
            put(into, &[peripheral, 0xb0, 0, 0x3c, 0, 0, 0, 8]);
            put(into, &four_bytes(u32::from(maximum.blocks())));
            put(into, &four_bytes(u32::from(maximum.blocks())));
            put(into, &[0; 48]);
        }
        VitalPage::BlockDeviceCharacteristics => {
            put(into, &[peripheral, 0xb1, 0, 0x3c, 0, 1]);
            put(into, &[0; 58]);
        }
        VitalPage::LogicalBlockProvisioning => {
            put(into, &[peripheral, 0xb2, 0, 4, 0, 0, 0, 0]);
        }
    }
}

/// A designator of vendor, product and serial number.
fn write_vendor_designator(
    serial: SerialNumber,
    names: &UnitNames,
    into: &mut ArrayVec<u8, MOST_DATA_BYTES>,
)
    requires { array_vec_len into.old ≡ 4 }
    ensures bytes { into.new.items ≡ into.old.items ++ vendor_designator serial names.now }
    ensures len { array_vec_len into.new ≡ 40 }
{
    put(into, &[0x02, 0x01, 0, 0x20]);
    put(into, &names.vendor.bytes());
    put(into, &names.product.bytes());
    put(into, &eight_digits(serial.number()));
}

/// A binary designator of the serial number.
fn write_name_designator(serial: SerialNumber, into: &mut ArrayVec<u8, MOST_DATA_BYTES>)
    requires { array_vec_len into.old ≡ 40 }
    ensures { into.new.items ≡ into.old.items ++ name_designator serial }
{
    let name = eight_bytes(LOCALLY_ASSIGNED + u64::from(serial.number()));
    let [a, b, c, d, e, f, g, h] = name;
    put(into, &[0x01, 0x03, 0, 0x08, a, b, c, d, e, f, g, h]);
}

pub(crate) fn peripheral_byte(present: bool) -> u8
    ensures { result ≡ peripheral_byte present }
{
    if present { 0 } else { NO_UNIT }
}
