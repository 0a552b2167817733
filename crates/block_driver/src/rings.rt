//! Where the next TDs of each tag stand: the thirds of its rings.
ghost use Rattle.std.specs.Prelude.{◌≡◌};
ghost use Rattle.block_driver.specs.Rings.{ring_on, spots_at, thirds_after, third_on, thirds_begun, thirds_from};

use crate::kinds::StreamPipe;
use disk_ready::{PipeRing, Spots, Way};
use disk_up::next_third;
use host_layout::Ring;

/// The thirds in which the next TDs of a tag stand.
#[derive(Clone, Copy, Debug, PartialEq, Eq)]
pub struct Thirds {
    pub data_in: u8,
    pub data_out: u8,
    pub status: u8,
}

impl Thirds {
    pub(crate) fn begun() -> Thirds
        ensures { result ≡ thirds_begun }
    {
        Thirds {
            data_in: 0,
            data_out: 0,
            status: 0,
        }
    }

    /// The third of a pipe's ring.
    pub(crate) fn on(self, pipe: StreamPipe) -> u8
        ensures { result ≡ third_on pipe self }
    {
        match pipe {
            StreamPipe::DataIn => self.data_in,
            StreamPipe::DataOut => self.data_out,
            StreamPipe::Status => self.status,
        }
    }

    /// The places of a command's TDs.
    pub(crate) fn spots(self, way: Way, pipe: PipeRing) -> Spots
        ensures { result ≡ spots_at self way pipe }
    {
        Spots {
            data_third: match way {
                Way::Nothing | Way::In => self.data_in,
                Way::Out => self.data_out,
            },
            status_third: self.status,
            pipe,
        }
    }

    /// Behind a command.
    pub(crate) fn after(self, way: Way) -> Thirds
        ensures { result ≡ thirds_after self way }
    {
        let status = next_third(self.status);
        match way {
            Way::Nothing => Thirds { status, ..self },
            Way::In => Thirds {
                data_in: next_third(self.data_in),
                status,
                ..self
            },
            Way::Out => Thirds {
                data_out: next_third(self.data_out),
                status,
                ..self
            },
        }
    }
}

/// The thirds of all tags once a disk got ready: its questions' TDs were on tag 1.
#[tactic(auto, unfolding(crate::specs::Rings::thirds_from))]
pub(crate) fn thirds_from(spots: Spots) -> [Thirds; 256]
    ensures { result ≡ thirds_from spots }
{
    let mut thirds = [Thirds::begun(); 256];
    thirds[1] = Thirds {
        data_in: spots.data_third,
        data_out: 0,
        status: spots.status_third,
    };
    thirds
}

/// The ring of a tag on a pipe.
pub(crate) fn ring_on(pipe: StreamPipe, tag: u8) -> Ring
    ensures { result ≡ ring_on pipe tag }
{
    match pipe {
        StreamPipe::DataIn => Ring::DataIn(tag),
        StreamPipe::DataOut => Ring::DataOut(tag),
        StreamPipe::Status => Ring::Status(tag),
    }
}
