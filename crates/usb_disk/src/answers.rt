//! What a request does and what it is answered with (USB 3.2, 9.4).
ghost use Rattle.std.specs.Prelude.{◌≡◌, ◌≤◌, [], ◌∷◌, length, take};
ghost use Rattle.usb_disk.specs.declared.Answer.{Answer};
ghost use Rattle.usb_disk.specs.declared.TheConstants.{MOST_ANSWER_BYTES};
ghost use Rattle.usb_disk.specs.Answers.{alternate_of, bit_of, both_disk, chosen, configured_disk, controlled, device_status, done, front, halted, has_pipe};
ghost use Rattle.usb_disk.specs.Answers.{in_bulk, reset_disk, reset_of, reset_with};

use crate::descriptors::described;
use crate::requests::request_in;
use crate::{Alternate, Answer, Halts, Request, Settings, Setup, UsbDisk, UsbStrings};
use arrayvec::ArrayVec;
use disk_units::eight_digits;
use host_commands::SerialNumber;
use uas_profile::Pipe;

impl UsbDisk {
    /// A disk that tells Bulk-Only and UAS, of the logical units up to this number, with the serial number of logical unit 0. It isn't
    /// configured, as a reset of the device leaves it.
    pub fn new(most_lun: u8, serial: SerialNumber) -> UsbDisk
        ensures { result ≡ both_disk most_lun serial }
    {
        let settings = Settings::Both {
            most_lun,
            alternate: Alternate::BulkOnly,
        };
        let strings = UsbStrings {
            serial: eight_digits(serial.number()),
            ..UsbStrings::usual()
        };
        UsbDisk::reset_of(settings, strings)
    }

    /// A disk that tells UAS alone, with the usual strings.
    pub fn uas_alone() -> UsbDisk
        ensures { result ≡ reset_disk }
    {
        UsbDisk::named(UsbStrings::usual())
    }

    /// The same with these strings.
    pub fn named(strings: UsbStrings) -> UsbDisk
        ensures { result ≡ reset_with strings }
    {
        UsbDisk::reset_of(Settings::UasAlone, strings)
    }

    fn reset_of(settings: Settings, strings: UsbStrings) -> UsbDisk
        ensures { result ≡ reset_of settings strings }
    {
        UsbDisk {
            configured: false,
            u1: false,
            u2: false,
            halts: Halts::none(),
            settings: settings.first(),
            strings,
        }
    }

    /// A reset of the device: it isn't configured now, is in its first setting, and keeps its strings.
    pub fn reset(&mut self)
        ensures { self.new ≡ reset_of self.old.settings self.old.strings }
    {
        *self = UsbDisk::reset_of(self.settings, self.strings);
    }

    /// What carries commands in the current setting.
    pub fn alternate(&self) -> Alternate
        ensures { result ≡ alternate_of self.now.settings }
    {
        self.settings.alternate()
    }

    /// Halts a pipe's endpoint: the device does (USB 3.2, 9.4.5).
    pub fn halt(&mut self, pipe: Pipe)
        ensures { self.new ≡ halted self.old pipe }
    {
        self.halts.set(pipe, true);
    }

    /// Does what a Setup packet asks and answers it. A request that isn't of this disk, and one of interface or endpoints before the
    /// device is configured, is refused by a stall and changes nothing (USB 3.2, 9.4).
    pub fn control(&mut self, setup: &Setup) -> Answer
        ensures disk { self.new ≡ (controlled self.old setup.now).0 }
        ensures answer { result ≡ (controlled self.old setup.now).1 }
    {
        match request_in(setup) {
            Some(request) => self.done(setup, request),
            None => Answer::Stall,
        }
    }

    fn done(&mut self, setup: &Setup, request: Request) -> Answer
        ensures disk { self.new ≡ (done self.old setup.now request).0 }
        ensures answer { result ≡ (done self.old setup.now request).1 }
    {
        match request {
            Request::DeviceStatus => front(setup, &self.device_status()),
            Request::DefaultPipeStatus => front(setup, &[0, 0]),
            Request::GetDescriptor(kind, index) => {
                described(self.settings, &self.strings, setup, kind, index)
            },
            Request::GetConfiguration => front(setup, &[u8::from(self.configured)]),
            Request::SetConfiguration(on) => self.restart(on),
            Request::SetExitLatency | Request::SetIsochDelay => Answer::Done,
            _ if !self.configured => Answer::Stall,
            Request::InterfaceStatus => front(setup, &[0, 0]),
            Request::PipeStatus(pipe) if self.has(pipe) => {
                front(setup, &[u8::from(self.halts.has(pipe)), 0])
            }
            Request::GetInterface => front(setup, &[self.settings.number()]),
            Request::SetInterface(second) => self.choose(second),
            Request::SuspendFunction => Answer::Done,
            Request::SetU1(on) => {
                self.u1 = on;
                Answer::Done
            }
            Request::SetU2(on) => {
                self.u2 = on;
                Answer::Done
            }
            Request::SetHalt(pipe, on) if self.has(pipe) => {
                self.halts.set(pipe, on);
                Answer::Done
            }
            Request::PipeStatus(_) | Request::SetHalt(_, _) => Answer::Stall,
            Request::GetMostLun => self.most_lun_told(setup),
            Request::ResetBulk => self.bulk_reset(),
        }
    }

    /// Whether a pipe's endpoint is one of the current setting.
    fn has(&self, pipe: Pipe) -> bool
        ensures { result ≡ has_pipe (alternate_of self.now.settings) pipe }
    {
        self.settings.alternate().has(pipe)
    }

    /// Get Max LUN, of Bulk-Only alone.
    fn most_lun_told(&self, setup: &Setup) -> Answer
        ensures { result ≡ in_bulk self.now (λ most_lun. front setup.now (most_lun ∷ [])) self.now.settings }
    {
        match self.settings {
            Settings::Both {
                most_lun,
                alternate: Alternate::BulkOnly,
            } => front(setup, &[most_lun]),
            Settings::UasAlone | Settings::Both { .. } => Answer::Stall,
        }
    }

    /// The reset of Bulk-Only alone.
    fn bulk_reset(&self) -> Answer
        ensures { result ≡ in_bulk self.now (λ most_lun. Answer.BulkReset) self.now.settings }
    {
        match self.settings {
            Settings::Both {
                alternate: Alternate::BulkOnly,
                ..
            } => Answer::BulkReset,
            Settings::UasAlone | Settings::Both { .. } => Answer::Stall,
        }
    }

    /// SET_INTERFACE: the first setting, or the second where there is one.
    fn choose(&mut self, second: bool) -> Answer
        ensures disk { self.new ≡ (chosen self.old second self.old.settings).0 }
        ensures answer { result ≡ (chosen self.old second self.old.settings).1 }
    {
        match (second, self.settings) {
            (false, _) => self.restart(true),
            (true, Settings::UasAlone) => Answer::Stall,
            (true, Settings::Both { most_lun, .. }) => {
                let answer = self.restart(true);
                self.settings = Settings::Both {
                    most_lun,
                    alternate: Alternate::Uas,
                };
                answer
            }
        }
    }

    /// Self-powered, and whether U1 and U2 are enabled.
    fn device_status(&self) -> [u8; 2]
        ensures { result ≡ device_status self.now }
    {
        [1 + 4 * u8::from(self.u1) + 8 * u8::from(self.u2), 0]
    }

    fn restart(&mut self, configured: bool) -> Answer
        ensures disk { self.new ≡ configured_disk self.old configured }
        ensures answer { result ≡ Answer.Restarted }
    {
        self.configured = configured;
        self.halts = Halts::none();
        self.settings = self.settings.first();
        Answer::Restarted
    }
}

/// The front of these bytes, as long as was asked for.
pub(crate) fn front(setup: &Setup, bytes: &[u8]) -> Answer
    requires { length bytes.now ≤ MOST_ANSWER_BYTES }
    ensures { result ≡ front setup.now bytes.now }
{
    let mut data = ArrayVec::new();
    data.try_extend_from_slice(&bytes[..bytes.len().min(usize::from(setup.length))])
        .unwrap();
    Answer::Data(data)
}
