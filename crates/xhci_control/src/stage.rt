//! Where a control transfer is.
ghost use Rattle.std.specs.Prelude.{◌≡◌};
ghost use Rattle.xhci_control.specs.Stages.{advanced, after_setup, behind_data, behind_data_if, directed, given_advanced, given_left, given_of, given_stalls, given_takes};
ghost use Rattle.xhci_control.specs.Stages.{is_data, is_setup, left, stalls, takes};

use arrayvec::ArrayVec;
use usb_disk::{Answer, MOST_ANSWER_BYTES};

/// The bytes of an answer that are still to go to the host.
pub type AnswerBytes = ArrayVec<u8, MOST_ANSWER_BYTES>;

/// Where a control transfer is.
#[derive(Debug, Drop)]
pub enum Stage {
    /// None is under way.
    Setup,
    /// Its Data Stage is to come, or has begun.
    Data { given: Given },
    /// Its Status Stage is to come.
    Status { stalls: bool },
}

/// What a Data Stage gives.
#[derive(Debug, Drop)]
pub enum Given {
    /// These bytes, of which so many have gone.
    Bytes { bytes: AnswerBytes, gone: usize },
    /// Nothing.
    Nothing,
    /// Nothing, and it takes whatever comes.
    Taken,
    /// A stall.
    Stall,
}

impl Given {
    fn of(answer: Answer) -> Given
        ensures { result ≡ given_of answer }
    {
        match answer {
            Answer::Data(bytes) => Given::Bytes { bytes, gone: 0 },
            Answer::Done | Answer::Restarted | Answer::BulkReset => Given::Nothing,
            Answer::Stall => Given::Stall,
        }
    }

    /// Whether it is a stall.
    fn stalls(&self) -> bool
        ensures { result ≡ given_stalls self.now }
    {
        matches!(self, Given::Stall)
    }

    /// Whether bytes to the device are taken.
    fn takes(&self) -> bool
        ensures { result ≡ given_takes self.now }
    {
        matches!(self, Given::Taken)
    }

    /// The bytes that are left.
    fn left(&self) -> &[u8]
        ensures { result.now ≡ given_left self.now }
    {
        match self {
            Given::Bytes { bytes, gone } => match bytes.get(*gone..) {
                Some(left) => left,
                None => &[],
            },
            Given::Nothing | Given::Taken | Given::Stall => &[],
        }
    }

    /// So many bytes more have gone.
    fn advance(&mut self, count: usize)
        ensures { self.new ≡ given_advanced self.old count }
    {
        match self {
            Given::Bytes { gone, .. } => *gone = gone.saturating_add(count),
            Given::Nothing | Given::Taken | Given::Stall => (),
        }
    }
}

impl Stage {
    /// Whether its Data or Status Stage is refused.
    pub(crate) fn stalls(&self) -> bool
        ensures { result ≡ stalls self.now }
    {
        match self {
            Stage::Setup => false,
            Stage::Data { given } => given.stalls(),
            Stage::Status { stalls } => *stalls,
        }
    }

    /// Behind a TRB of its Data Stage: the Status Stage is to come where that was the last one.
    pub(crate) fn pass_data(&mut self, chain: bool)
        ensures { self.new ≡ behind_data chain self.old }
    {
        if !chain {
            *self = Stage::Status { stalls: false };
        }
    }

    pub(crate) fn pass_data_if(&mut self, ends: bool, chain: bool)
        ensures { self.new ≡ behind_data_if ends chain self.old }
    {
        if ends {
            self.pass_data(chain);
        }
    }

    /// Its Data Stage takes whatever comes where it goes to the device.
    pub(crate) fn direct(&mut self, to_host: bool)
        ensures { self.new ≡ directed to_host self.old }
    {
        if !to_host {
            *self = Stage::Data {
                given: Given::Taken,
            };
        }
    }

    /// Whether a Setup Stage is to come.
    pub(crate) fn is_setup(&self) -> bool
        ensures { result ≡ is_setup self.now }
    {
        matches!(self, Stage::Setup)
    }

    /// Whether a Data Stage is to come, or has begun.
    pub(crate) fn is_data(&self) -> bool
        ensures { result ≡ is_data self.now }
    {
        matches!(self, Stage::Data { .. })
    }

    /// Whether its Data Stage takes bytes to the device.
    pub(crate) fn takes(&self) -> bool
        ensures { result ≡ takes self.now }
    {
        match self {
            Stage::Data { given } => given.takes(),
            Stage::Setup | Stage::Status { .. } => false,
        }
    }

    /// The bytes that its Data Stage still gives.
    pub(crate) fn left(&self) -> &[u8]
        ensures { result.now ≡ left self.now }
    {
        match self {
            Stage::Data { given } => given.left(),
            Stage::Setup | Stage::Status { .. } => &[],
        }
    }

    /// So many bytes more of them have gone.
    pub(crate) fn advance(&mut self, count: usize)
        ensures { self.new ≡ advanced self.old count }
    {
        match self {
            Stage::Data { given } => given.advance(count),
            Stage::Setup | Stage::Status { .. } => (),
        }
    }

    /// After a Setup Stage that is answered so, and asks for so many bytes of data.
    pub(crate) fn after_setup(answer: Answer, length: u16) -> Stage
        ensures { result ≡ after_setup answer length }
    {
        let given = Given::of(answer);
        if length == 0 {
            Stage::Status {
                stalls: given.stalls(),
            }
        } else {
            Stage::Data { given }
        }
    }
}
