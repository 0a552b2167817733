//! The descriptors of the disk (USB 3.2, 9.6; INCITS 471, pipe usage).
ghost use Rattle.std.specs.Prelude.{◌≡◌, ◌≤◌, ◌++◌, IfSome, codes, length, option_map};
ghost use Rattle.usb_disk.specs.Answers.{front, front_or_stall};
ghost use Rattle.usb_disk.specs.Descriptors.{configuration_descriptor, descriptor_of, serial_string, single_descriptor, string_descriptor};
ghost use Rattle.usb_disk.specs.Strings.{string_of};

use crate::answers::front;
use crate::strings::string_of;
use crate::{Answer, Settings, Setup, UsbStrings};

/// The device descriptor.
const DEVICE: [u8; 18] = [18, 1, 0, 3, 0, 0, 0, 9, 0xf4, 0x46, 3, 0, 0, 0, 1, 2, 3, 1];

/// The configuration with UAS alone: its interface, and the endpoints of the pipes for commands, status, data-in and data-out, each with its
/// SuperSpeed companion and its pipe usage.
const UAS_CONFIGURATION: [u8; 86] = [
    9, 2, 86, 0, 1, 1, 0, 0xc0, 0, 9, 4, 0, 0, 4, 8, 6, 0x62, 0, 7, 5, 0x01, 2, 0, 4, 0, 6, 0x30,
    15, 0, 0, 0, 4, 0x24, 1, 0, 7, 5, 0x81, 2, 0, 4, 0, 6, 0x30, 15, 7, 0, 0, 4, 0x24, 2, 0, 7, 5,
    0x82, 2, 0, 4, 0, 6, 0x30, 15, 7, 0, 0, 4, 0x24, 3, 0, 7, 5, 0x02, 2, 0, 4, 0, 6, 0x30, 15, 7,
    0, 0, 4, 0x24, 4, 0,
];

/// The configuration with both: Bulk-Only's interface, with Bulk-In and Bulk-Out, and then that of UAS.
const BOTH_CONFIGURATION: [u8; 121] = [
    9, 2, 121, 0, 1, 1, 0, 0xc0, 0, 9, 4, 0, 0, 2, 8, 6, 0x50, 0, 7, 5, 0x82, 2, 0, 4, 0, 6, 0x30,
    15, 0, 0, 0, 7, 5, 0x02, 2, 0, 4, 0, 6, 0x30, 15, 0, 0, 0, 9, 4, 0, 1, 4, 8, 6, 0x62, 0, 7, 5,
    0x01, 2, 0, 4, 0, 6, 0x30, 15, 0, 0, 0, 4, 0x24, 1, 0, 7, 5, 0x81, 2, 0, 4, 0, 6, 0x30, 15, 7,
    0, 0, 4, 0x24, 2, 0, 7, 5, 0x82, 2, 0, 4, 0, 6, 0x30, 15, 7, 0, 0, 4, 0x24, 3, 0, 7, 5, 0x02,
    2, 0, 4, 0, 6, 0x30, 15, 7, 0, 0, 4, 0x24, 4, 0,
];

/// The binary object store: the USB 2.0 extension and SuperSpeed.
const BOS: [u8; 22] = [
    5, 15, 22, 0, 2, 7, 16, 2, 2, 0, 0, 0, 10, 16, 3, 0, 8, 0, 3, 0, 0, 0,
];

/// String 0, the languages: English (United States).
const LANGUAGES: [u8; 4] = [4, 3, 9, 4];

/// Types of descriptors (table 9-6).
const DEVICE_TYPE: u8 = 1;

const CONFIGURATION_TYPE: u8 = 2;

const STRING_TYPE: u8 = 3;

const BOS_TYPE: u8 = 15;

/// What is answered to GET_DESCRIPTOR of a type and an index.
pub(crate) fn described(
    settings: Settings,
    strings: &UsbStrings,
    setup: &Setup,
    kind: u8,
    index: u8,
) -> Answer
    ensures { result ≡ front_or_stall setup.now (descriptor_of settings strings.now kind index) }
{
    if kind == STRING_TYPE {
        return text_described(settings, strings, setup, index);
    }
    if index != 0 {
        return Answer::Stall;
    }
    match single_descriptor(settings, kind) {
        Some(bytes) => front(setup, bytes),
        None => Answer::Stall,
    }
}

fn text_described(settings: Settings, strings: &UsbStrings, setup: &Setup, index: u8) -> Answer
    ensures { result ≡ front_or_stall setup.now (string_descriptor settings strings.now index) }
{
    match index {
        0 => front(setup, &LANGUAGES),
        1 => front(setup, &string_of(&strings.manufacturer)),
        2 => front(setup, &string_of(&strings.product)),
        3 => serial_described(settings, strings, setup),
        _ => Answer::Stall,
    }
}

/// The serial number, of at least twelve digits where there is Bulk-Only.
fn serial_described(settings: Settings, strings: &UsbStrings, setup: &Setup) -> Answer
    ensures { result ≡ front setup.now (string_of (serial_string settings strings.now.serial)) }
{
    match settings {
        Settings::UasAlone => front(setup, &string_of(&strings.serial)),
        Settings::Both { .. } => front(setup, &string_of(&long_serial(&strings.serial))),
    }
}

fn long_serial(serial: &[u8; 8]) -> [u8; 12]
    ensures { result ≡ codes "0000" ++ serial.now }
{
    let mut long = *b"000000000000";
    long[4..].copy_from_slice(serial);
    long
}

fn configuration(settings: Settings) -> &'static [u8]
    ensures bytes { result.now ≡ configuration_descriptor settings }
    ensures most { length result.now ≤ 121 }
{
    match settings {
        Settings::UasAlone => &UAS_CONFIGURATION,
        Settings::Both { .. } => &BOTH_CONFIGURATION,
    }
}

fn single_descriptor(settings: Settings, kind: u8) -> Option<&'static [u8]>
    ensures bytes { option_map (λ bytes. bytes.now) result ≡ single_descriptor settings kind }
    ensures most { IfSome result (λ bytes. length bytes.now ≤ 121) }
{
    match kind {
        DEVICE_TYPE => Some(&DEVICE),
        CONFIGURATION_TYPE => Some(configuration(settings)),
        BOS_TYPE => Some(&BOS),
        _ => None,
    }
}
