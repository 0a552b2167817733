//! Row 1: what a controller is (xHCI 1.2, 5.3 and 7). Each step reads one register.
ghost use Rattle.std.specs.Prelude.{◌≡◌, ◌+◌};
ghost use Rattle.bring_up.specs.Surveys.{begun_survey, counts_read, list_begun, looked, page_read, parameters_read, runtime_read, survey_offset, survey_read, version_read};

use crate::capabilities::{contexts_in, has_room, list_ended, scratchpads_in, unknown};
use crate::controller::{Controller, MOST_CAPABILITIES, is_set};
use crate::options::Options;
use crate::why::Why;
use host_layout::PageSize;

/// The register that is read next.
#[derive(Clone, Copy)]
pub enum Reading {
    /// CAPLENGTH and HCIVERSION (5.3.1, 5.3.2).
    Version,
    /// HCSPARAMS1 and 2 (5.3.3, 5.3.4).
    Counts,
    Scratchpads,
    /// HCCPARAMS1 (5.3.6).
    Parameters,
    /// DBOFF and RTSOFF (5.3.7, 5.3.8); the list of capabilities begins at `list`, or is none for 0.
    Doorbells {
        list: u32,
    },
    Runtime {
        list: u32,
    },
    /// PAGESIZE (5.4.3).
    Page {
        list: u32,
    },
    /// An extended capability (7), and its ports (7.2).
    Capability(Capability),
    Ports {
        capability: Capability,
        behind: u8,
    },
    SlotType {
        capability: Capability,
        behind: u8,
        first: u8,
        count: u8,
    },
}

/// Where an extended capability stands, and how many more are looked at.
#[derive(Clone, Copy)]
pub struct Capability {
    pub at: u32,
    pub left: u8,
}

/// A survey, as far as it came.
#[derive(Clone, Copy)]
pub struct Survey {
    pub options: Options,
    pub controller: Controller,
    pub reading: Reading,
}

/// What a register that was read leads to.
#[derive(Clone, Copy)]
pub enum Surveyed {
    Refused(Why),
    On(Survey),
    Found(Controller),
}

/// So many bytes behind a place.
fn behind(at: u32, bytes: u8) -> u64
    ensures { result ≡ at + bytes }
{
    u64::from(at) + u64::from(bytes)
}

impl Survey {
    /// The survey of a controller of which nothing is known.
    pub(crate) fn begun(options: Options) -> Survey
        ensures { result ≡ begun_survey options }
    {
        Survey {
            options,
            controller: unknown(options.bar_bytes),
            reading: Reading::Version,
        }
    }

    /// Where its register is.
    pub(crate) fn offset(&self) -> u64
        ensures { result ≡ survey_offset self.now }
    {
        match self.reading {
            Reading::Version => 0,
            Reading::Counts => 4,
            Reading::Scratchpads => 8,
            Reading::Parameters => 0x10,
            Reading::Doorbells { .. } => 0x14,
            Reading::Runtime { .. } => 0x18,
            Reading::Page { .. } => behind(u32::from(self.controller.operational), 8),
            Reading::Capability(capability) => u64::from(capability.at),
            Reading::Ports { capability, .. } => behind(capability.at, 8),
            Reading::SlotType { capability, .. } => behind(capability.at, 12),
        }
    }

    /// What its register's value leads to.
    pub(crate) fn read(&self, value: u32) -> Surveyed
        ensures { result ≡ survey_read self.now value }
    {
        match self.reading {
            Reading::Version => self.version_read(value),
            Reading::Counts => self.counts_read(value),
            Reading::Scratchpads => self.looked(
                Controller {
                    scratchpads: scratchpads_in(value),
                    ..self.controller
                },
                Reading::Parameters,
            ),
            Reading::Parameters => self.parameters_read(value),
            Reading::Doorbells { list } => self.looked(
                Controller {
                    doorbells: value - value % 4,
                    ..self.controller
                },
                Reading::Runtime { list },
            ),
            Reading::Runtime { list } => self.runtime_read(value, list),
            Reading::Page { list } => self.page_read(value, list),
            Reading::Capability(capability) => self.capability_read(value, capability),
            Reading::Ports { capability, behind } => self.ports_read(value, capability, behind),
            Reading::SlotType {
                capability,
                behind,
                first,
                count,
            } => self.slot_type_read(value, capability, behind, first, count),
        }
    }

    /// Goes on with another register.
    pub(crate) fn looked(&self, controller: Controller, reading: Reading) -> Surveyed
        ensures { result ≡ looked self.now controller reading }
    {
        Surveyed::On(Survey {
            options: self.options,
            controller,
            reading,
        })
    }

    fn version_read(&self, value: u32) -> Surveyed
        ensures { result ≡ version_read self.now value }
    {
        if value >> 16 < 0x100 {
            return Surveyed::Refused(Why::TooOld);
        }
        self.looked(
            Controller {
                operational: (value / 4 % 64 * 4) as u8,
                ..self.controller
            },
            Reading::Counts,
        )
    }

    fn counts_read(&self, value: u32) -> Surveyed
        ensures { result ≡ counts_read self.now value }
    {
        let slots = (value % 256) as u8;
        let ports = (value >> 24) as u8;
        if slots == 0 {
            Surveyed::Refused(Why::NoSlots)
        } else if ports == 0 {
            Surveyed::Refused(Why::NoPorts)
        } else {
            self.looked(
                Controller {
                    slots,
                    ports,
                    ..self.controller
                },
                Reading::Scratchpads,
            )
        }
    }

    fn parameters_read(&self, value: u32) -> Surveyed
        ensures { result ≡ parameters_read self.now value }
    {
        let max_psa_size = (value >> 12 & 15) as u8;
        if max_psa_size == 0 || self.options.quirks.has_broken_streams {
            return Surveyed::Refused(Why::NoStreams);
        }
        self.looked(
            Controller {
                is_wide: is_set(value, 0) && !self.options.quirks.is_narrow,
                contexts: contexts_in(value),
                max_psa_size,
                ..self.controller
            },
            Reading::Doorbells {
                list: 4 * (value >> 16),
            },
        )
    }

    fn runtime_read(&self, value: u32, list: u32) -> Surveyed
        ensures { result ≡ runtime_read self.now value list }
    {
        let controller = Controller {
            runtime: value - value % 32,
            ..self.controller
        };
        if !has_room(&controller) {
            return Surveyed::Refused(Why::SmallBar);
        }
        self.looked(controller, Reading::Page { list })
    }

    fn page_read(&self, value: u32, list: u32) -> Surveyed
        ensures { result ≡ page_read self.now value list }
    {
        match PageSize::of(value) {
            None => Surveyed::Refused(Why::PageSize),
            Some(page) => self.list_begun(
                Controller {
                    page,
                    ..self.controller
                },
                list,
            ),
        }
    }

    fn list_begun(&self, controller: Controller, list: u32) -> Surveyed
        ensures { result ≡ list_begun self.now controller list }
    {
        if list == 0 {
            return list_ended(controller);
        }
        self.at_capability(controller, u64::from(list), MOST_CAPABILITIES)
    }
}
