//! The UAS function in a configuration (USB 3.2, 9.6.3 and 9.6.5).
ghost use Rattle.std.specs.Prelude.{◌≡◌, ◌≤◌, IfOk, IfSome, IsTrue, length};
ghost use Rattle.std.specs.Option.{option_map};
ghost use Rattle.usb_descriptors.specs.Cutting.{descriptors};
ghost use Rattle.usb_descriptors.specs.Function.{is_configuration, is_uas, setting_in, uas_in};
ghost use Rattle.usb_descriptors.specs.Pipes.{FitsPipes};

use crate::cutting::{CONFIGURATION, INTERFACE, is_cut, split_front};
use crate::gathering::pipes_in;
use crate::{DescriptorFault, UasFunction};

/// Bytes of a configuration descriptor.
const CONFIGURATION_BYTES: usize = 9;

/// The class, subclass and protocol of USB Attached SCSI.
const MASS_STORAGE: u8 = 0x08;

const SCSI: u8 = 0x06;

const UAS: u8 = 0x62;

/// Finds the first UAS setting and its pipes in a configuration with all that comes with it. Refused by the first of these that holds:
/// `BadDescriptor` where the bytes aren't descriptors to their end, of which the first is a configuration; `NoUas` without such a setting;
/// what is wrong with its endpoints, the first of them first: `BadPipes` for a usage of no pipe or an endpoint that doesn't suit its pipe,
/// `NoCompanion`, `BadPipes` for a companion beyond the greatest burst or number of streams, or a pipe that is there already; then `BadPipes`
/// where a pipe is missing or two are at one endpoint.
#[tactic(auto, unfolding(crate::specs::Function::uas_in))]
pub fn find_uas(bytes: &[u8]) -> Result<UasFunction, DescriptorFault>
    ensures read { result ≡ uas_in bytes.now }
    ensures fits { IfOk result (λ function. FitsPipes function.pipes) }
{
    if !is_configuration(bytes) {
        return Err(DescriptorFault::BadDescriptor);
    }
    let Some((setting, behind)) = setting_in(bytes) else {
        return Err(DescriptorFault::NoUas);
    };
    let pipes = pipes_in(behind)?;
    Ok(UasFunction {
        configuration: bytes[5],
        max_power: bytes[8],
        interface: setting[2],
        alternate: setting[3],
        pipes,
    })
}

fn is_configuration(bytes: &[u8]) -> bool
    ensures value { result ≡ is_configuration bytes.now }
    ensures long { IsTrue result → 9 ≤ length bytes.now }
{
    CONFIGURATION_BYTES <= bytes.len() && bytes[1] == CONFIGURATION && is_cut(bytes)
}

/// The interface of the first UAS setting, and the bytes behind it.
#[tactic(auto, using(crate::proofs::Cuts::next_descriptors, crate::proofs::Cuts::no_descriptors))]
fn setting_in(bytes: &[u8]) -> Option<(&[u8], &[u8])>
    ensures value { option_map (λ parts. (parts.0.now, descriptors parts.1.now)) result ≡ setting_in (descriptors bytes.now) }
    ensures long { IfSome result (λ parts. 8 ≤ length parts.0.now) }
{
    let mut rest = bytes;
    while let Some((first, behind)) = split_front(rest) {
        if is_uas(first) {
            return Some((first, behind));
        }
        rest = behind;
    }
    None
}

fn is_uas(descriptor: &[u8]) -> bool
    ensures value { result ≡ is_uas descriptor.now }
    ensures long { IsTrue result → 8 ≤ length descriptor.now }
{
    matches!(
        descriptor,
        [_, INTERFACE, _, _, _, MASS_STORAGE, SCSI, UAS, ..]
    )
}
