//! The alternate settings, and what is of one of them.
ghost use Rattle.std.specs.Prelude.{◌≡◌};
ghost use Rattle.usb_disk.specs.Answers.{alternate_of, first_setting, has_pipe, setting_number};

use crate::{Alternate, Settings};
use uas_profile::Pipe;

impl Alternate {
    /// Whether a pipe's endpoint is one of this setting.
    pub(crate) fn has(self, pipe: Pipe) -> bool
        ensures { result ≡ has_pipe self pipe }
    {
        match (self, pipe) {
            (Alternate::BulkOnly, Pipe::Command | Pipe::Status) => false,
            (Alternate::BulkOnly, Pipe::DataIn | Pipe::DataOut) | (Alternate::Uas, _) => true,
        }
    }
}

impl Settings {
    /// In the first setting.
    pub(crate) fn first(self) -> Settings
        ensures { result ≡ first_setting self }
    {
        match self {
            Settings::UasAlone => Settings::UasAlone,
            Settings::Both { most_lun, .. } => Settings::Both {
                most_lun,
                alternate: Alternate::BulkOnly,
            },
        }
    }

    /// The transport of the current one.
    pub(crate) fn alternate(self) -> Alternate
        ensures { result ≡ alternate_of self }
    {
        match self {
            Settings::UasAlone => Alternate::Uas,
            Settings::Both { alternate, .. } => alternate,
        }
    }

    /// The number of the current one.
    pub(crate) fn number(self) -> u8
        ensures { result ≡ setting_number self }
    {
        match self {
            Settings::UasAlone
            | Settings::Both {
                alternate: Alternate::BulkOnly,
                ..
            } => 0,
            Settings::Both {
                alternate: Alternate::Uas,
                ..
            } => 1,
        }
    }
}
