//! How many bytes to read of a configuration and of a BOS (USB 3.2, 9.6.3 and 9.6.2).
ghost use Rattle.std.specs.Prelude.{◌≡◌, ◌≤◌};
ghost use Rattle.usb_descriptors.specs.Totals.{bos_total_in, configuration_total_in, is_head, total_in};

use crate::cutting::CONFIGURATION;
use crate::device::word;
use crate::{DescriptorFault, MOST_CONFIGURATION_BYTES};

/// The type of a BOS.
const BOS: u8 = 0x0f;

/// Bytes of a configuration descriptor, and of a BOS's head.
const CONFIGURATION_BYTES: u8 = 9;

const BOS_BYTES: u8 = 5;

/// How many bytes a configuration has with all that comes with it, told by its first 9. `BadDescriptor` where they are none of a
/// configuration; `LongConfiguration` for more than 4,096; `BadDescriptor` for fewer than 9.
pub fn read_configuration_total(bytes: &[u8]) -> Result<u16, DescriptorFault>
    ensures { result ≡ configuration_total_in bytes.now }
{
    total_in(CONFIGURATION, CONFIGURATION_BYTES, bytes)
}

/// How many bytes a BOS has, told by its first 5; the same refusals.
pub fn read_bos_total(bytes: &[u8]) -> Result<u16, DescriptorFault>
    ensures { result ≡ bos_total_in bytes.now }
{
    total_in(BOS, BOS_BYTES, bytes)
}

fn total_in(kind: u8, least: u8, bytes: &[u8]) -> Result<u16, DescriptorFault>
    requires { 4 ≤ least }
    ensures { result ≡ total_in kind least bytes.now }
{
    if !is_head(kind, least, bytes) {
        return Err(DescriptorFault::BadDescriptor);
    }
    let total = word(bytes, 2);
    if total > MOST_CONFIGURATION_BYTES {
        Err(DescriptorFault::LongConfiguration)
    } else if total < u16::from(least) {
        Err(DescriptorFault::BadDescriptor)
    } else {
        Ok(total)
    }
}

fn is_head(kind: u8, least: u8, bytes: &[u8]) -> bool
    requires { 4 ≤ least }
    ensures { result ≡ is_head kind least bytes.now }
{
    bytes.len() >= usize::from(least) && bytes[0] >= least && bytes[1] == kind
}
