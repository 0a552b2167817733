//! Devices that don't do what their descriptors tell, as Linux knows them.
ghost use Rattle.std.specs.Prelude.{◌≡◌};
ghost use Rattle.std.specs.List.{list_any};
ghost use Rattle.disk_up.specs.Bridges.{ignored, ignored_devices, is_asm105x, is_broken, is_ignored, is_release};

use crate::requests::Known;
use usb_descriptors::UasFunction;

/// A device that tells a function of UAS and doesn't serve it, in its releases from `first` to `last`.
#[derive(Clone, Copy)]
pub struct IgnoredDevice {
    pub vendor: u16,
    pub product: u16,
    pub first: u16,
    pub last: u16,
}

/// The last release that there can be, of four decimal digits.
const LAST_RELEASE: u16 = 0x9999;

/// MaxStreams of ASMedia's ASM1051: 2 to this power streams.
const ASM1051_STREAMS: u8 = 5;

impl Known {
    /// Whether the device isn't used: by its numbers, or as an ASM1051.
    pub(crate) fn is_broken(&self, function: &UasFunction) -> bool
        ensures { result ≡ is_broken self.now function.now }
    {
        self.is_ignored()
            || self.is_asm105x(function) && function.pipes.status.max_streams == ASM1051_STREAMS
    }

    /// Whether it is ASMedia's ASM1051 or ASM1053; the ASM1153, of the same numbers, tells that it draws no power.
    pub fn is_asm105x(&self, function: &UasFunction) -> bool
        ensures { result ≡ is_asm105x self.now function.now }
    {
        self.vendor == 0x174c
            && (self.product == 0x5106 || self.product == 0x55aa)
            && function.max_power != 0
    }

    fn is_ignored(&self) -> bool
        ensures { result ≡ is_ignored self.now }
    {
        ignored_devices()
            .iter()
            .any(|device| device.is_release(self))
    }
}

impl IgnoredDevice {
    fn new(vendor: u16, product: u16, first: u16, last: u16) -> IgnoredDevice
        ensures { result ≡ ignored vendor product first last }
    {
        IgnoredDevice {
            vendor,
            product,
            first,
            last,
        }
    }

    /// Whether a device is a release of it.
    fn is_release(&self, known: &Known) -> bool
        ensures { result ≡ is_release known.now self.now }
    {
        known.vendor == self.vendor
            && known.product == self.product
            && self.first <= known.release
            && known.release <= self.last
    }
}

/// Bridges and enclosures of SanDisk, Hiksemi, Apricorn, ASUS, Thinkplus, Norelsys, JMicron and Hitachi.
fn ignored_devices() -> [IgnoredDevice; 8]
    ensures { result ≡ ignored_devices }
{
    [
        IgnoredDevice::new(0x0781, 0x55e8, 0, LAST_RELEASE),
        IgnoredDevice::new(0x090c, 0x2000, 0, LAST_RELEASE),
        IgnoredDevice::new(0x0984, 0x0301, 0x0128, 0x0128),
        IgnoredDevice::new(0x0b05, 0x1932, 0, LAST_RELEASE),
        IgnoredDevice::new(0x17ef, 0x3899, 0, LAST_RELEASE),
        IgnoredDevice::new(0x2537, 0x1068, 0, LAST_RELEASE),
        IgnoredDevice::new(0x357d, 0x7788, 0, LAST_RELEASE),
        IgnoredDevice::new(0x4971, 0x1012, 0, LAST_RELEASE),
    ]
}
