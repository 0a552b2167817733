//! Rows 15 and 16: what a disk is asked, and what its answers lead to (SPC-4, SBC-3).
ghost use Rattle.std.specs.Prelude.{◌≡◌};
ghost use Rattle.disk_ready.specs.Questions.{asking_of, behind_inquiry, behind_long, behind_short, by_short, data_bytes, has_version_5, heard, inquiry_heard, is_as_short, is_attention, limits_heard, list_heard, long_heard, may_pass, nothing_learned, on, pages_next, paused_or, question_heard, short_heard, unit_heard, why_of};

use bring_up::Why;
use disk_requests::{
    Asking, BlockLimits, Capacity, DiskFault, InquiryData, Readiness, ShortCapacity, lists_page,
    read_capacity10, read_capacity16, read_inquiry, read_limits,
};

/// What a disk is asked before it is used.
#[derive(Clone, Copy, Debug, PartialEq, Eq)]
pub enum Question {
    Inquiry,
    UnitReady,
    StartUnit,
    ShortCapacity,
    LongCapacity,
    /// Page 00h, the list of pages, and B0h, Block Limits.
    PageList,
    Limits,
}

/// What was learned of a disk.
#[derive(Clone, Copy)]
pub struct Learned {
    pub inquiry: Option<InquiryData>,
    pub capacity: Option<Capacity>,
    pub limits: Option<BlockLimits>,
    /// UNIT ATTENTIONs that it told in this row.
    pub attentions: u8,
    /// It was started.
    pub is_started: bool,
}

/// What an answer leads to.
#[derive(Clone, Copy)]
pub enum Next {
    Ask(Question),
    /// The next row: how large it is.
    Size,
    /// A question again, a little later.
    Pause(Question),
    Refused(Why),
    /// The disk is ready.
    Ready,
}

/// What was learned, and what comes next.
#[derive(Clone, Copy)]
pub struct Heard {
    pub learned: Learned,
    pub next: Next,
}

/// The most UNIT ATTENTIONs that a disk tells in a row.
const MOST_ATTENTIONS: u8 = 10;

/// VERSION of SPC-3, from which on READ CAPACITY(16) and pages are asked.
const SPC_3: u8 = 5;

/// The page Block Limits.
const BLOCK_LIMITS: u8 = 0xb0;

impl Question {
    pub fn asking(self) -> Asking
        ensures { result ≡ asking_of self }
    {
        match self {
            Question::Inquiry => Asking::Inquiry {
                page: None,
                length: self.data_bytes(),
            },
            Question::UnitReady => Asking::TestUnitReady,
            Question::StartUnit => Asking::StartUnit,
            Question::ShortCapacity => Asking::ReadCapacity10,
            Question::LongCapacity => Asking::ReadCapacity16,
            Question::PageList => Asking::Inquiry {
                page: Some(0),
                length: self.data_bytes(),
            },
            Question::Limits => Asking::Inquiry {
                page: Some(BLOCK_LIMITS),
                length: self.data_bytes(),
            },
        }
    }

    /// The most bytes of its answer.
    pub fn data_bytes(self) -> u16
        ensures { result ≡ data_bytes self }
    {
        match self {
            Question::Inquiry => 36,
            Question::UnitReady | Question::StartUnit => 0,
            Question::ShortCapacity => 8,
            Question::LongCapacity => 32,
            Question::PageList => 255,
            Question::Limits => 64,
        }
    }
}

fn on(learned: Learned, next: Next) -> Heard
    ensures { result ≡ on learned next }
{
    Heard { learned, next }
}

impl Learned {
    pub(crate) fn nothing() -> Learned
        ensures { result ≡ nothing_learned }
    {
        Learned {
            inquiry: None,
            capacity: None,
            limits: None,
            attentions: 0,
            is_started: false,
        }
    }

    /// What an answer leads to: how the question ended, and the data that came.
    pub(crate) fn heard(self, question: Question, how: Readiness, bytes: &[u8]) -> Heard
        ensures { result ≡ heard self question how bytes.now }
    {
        if is_attention(how) && self.attentions < MOST_ATTENTIONS {
            let learned = Learned {
                attentions: self.attentions + 1,
                ..self
            };
            return on(learned, Next::Ask(question));
        }
        self.question_heard(question, how, bytes)
    }

    fn question_heard(self, question: Question, how: Readiness, bytes: &[u8]) -> Heard
        ensures { result ≡ question_heard question self how bytes.now }
    {
        match question {
            Question::Inquiry => self.inquiry_heard(how, bytes),
            Question::UnitReady => self.unit_heard(how),
            Question::StartUnit => on(self, Next::Ask(Question::UnitReady)),
            Question::ShortCapacity => self.short_heard(how, bytes),
            Question::LongCapacity => self.long_heard(how, bytes),
            Question::PageList => self.list_heard(how, bytes),
            Question::Limits => self.limits_heard(how, bytes),
        }
    }

    fn inquiry_heard(self, how: Readiness, bytes: &[u8]) -> Heard
        ensures { result ≡ inquiry_heard self how bytes.now }
    {
        match how {
            Readiness::Ready => self.behind_inquiry(read_inquiry(bytes)),
            _ => self.paused_or(Question::Inquiry, how, Why::NotADisk),
        }
    }

    /// What may pass is asked again a little later.
    fn paused_or(self, question: Question, how: Readiness, why: Why) -> Heard
        ensures { result ≡ paused_or self question how why }
    {
        if may_pass(how) {
            on(self, Next::Pause(question))
        } else {
            on(self, Next::Refused(why))
        }
    }

    fn behind_inquiry(self, read: Result<InquiryData, DiskFault>) -> Heard
        ensures { result ≡ behind_inquiry self read }
    {
        match read {
            Err(_) => on(self, Next::Refused(Why::NotADisk)),
            Ok(inquiry) => {
                let learned = Learned {
                    inquiry: Some(inquiry),
                    ..self
                };
                on(learned, Next::Ask(Question::UnitReady))
            }
        }
    }

    fn unit_heard(self, how: Readiness) -> Heard
        ensures { result ≡ unit_heard self how }
    {
        match how {
            Readiness::Ready => {
                let learned = Learned {
                    attentions: 0,
                    ..self
                };
                on(learned, Next::Size)
            }
            Readiness::Start if !self.is_started => {
                let learned = Learned {
                    is_started: true,
                    ..self
                };
                on(learned, Next::Ask(Question::StartUnit))
            }
            Readiness::Start | Readiness::Wait | Readiness::Busy | Readiness::Failed => on(
                self,
                Next::Pause(Question::UnitReady),
            ),
            Readiness::NoMedium => on(self, Next::Refused(Why::NoMedium)),
            Readiness::Again => on(self, Next::Refused(Why::NeverReady)),
        }
    }

    fn short_heard(self, how: Readiness, bytes: &[u8]) -> Heard
        ensures { result ≡ short_heard self how bytes.now }
    {
        match how {
            Readiness::Ready => self.behind_short(read_capacity10(bytes)),
            _ => self.paused_or(Question::ShortCapacity, how, Why::BadCapacity),
        }
    }

    fn behind_short(self, read: Result<ShortCapacity, DiskFault>) -> Heard
        ensures { result ≡ behind_short self read }
    {
        match read {
            Err(fault) => on(self, Next::Refused(why_of(fault))),
            Ok(ShortCapacity::AskLong) => on(self, Next::Ask(Question::LongCapacity)),
            Ok(ShortCapacity::Known(capacity)) => {
                let next = if has_version_5(self.inquiry) {
                    Next::Ask(Question::LongCapacity)
                } else {
                    Next::Ready
                };
                on(self.with_capacity(capacity), next)
            }
        }
    }

    fn with_capacity(self, capacity: Capacity) -> Learned
        ensures { result ≡ record self { capacity = Some capacity } }
    {
        Learned {
            capacity: Some(capacity),
            ..self
        }
    }

    fn long_heard(self, how: Readiness, bytes: &[u8]) -> Heard
        ensures { result ≡ long_heard self how bytes.now }
    {
        match how {
            Readiness::Ready => self.behind_long(read_capacity16(bytes)),
            _ => self.by_short(),
        }
    }

    fn behind_long(self, read: Result<Capacity, DiskFault>) -> Heard
        ensures { result ≡ behind_long self read }
    {
        match read {
            Err(fault) => on(self, Next::Refused(why_of(fault))),
            Ok(capacity) if is_as_short(self.capacity, capacity) => on(
                self.with_capacity(capacity),
                self.pages_next(),
            ),
            Ok(_) => on(self, Next::Refused(Why::BlockLength)),
        }
    }

    /// READ CAPACITY(16) told nothing: what the short one told counts.
    fn by_short(self) -> Heard
        ensures { result ≡ by_short self.capacity self }
    {
        match self.capacity {
            None => on(self, Next::Refused(Why::BadCapacity)),
            Some(_) => on(self, self.pages_next()),
        }
    }

    fn pages_next(self) -> Next
        ensures { result ≡ pages_next self }
    {
        if has_version_5(self.inquiry) {
            Next::Ask(Question::PageList)
        } else {
            Next::Ready
        }
    }

    fn list_heard(self, how: Readiness, bytes: &[u8]) -> Heard
        ensures { result ≡ list_heard self how bytes.now }
    {
        match how {
            Readiness::Ready if lists_page(bytes, BLOCK_LIMITS) => on(
                self,
                Next::Ask(Question::Limits),
            ),
            _ => on(self, Next::Ready),
        }
    }

    fn limits_heard(self, how: Readiness, bytes: &[u8]) -> Heard
        ensures { result ≡ limits_heard self how bytes.now }
    {
        match how {
            Readiness::Ready => {
                let learned = Learned {
                    limits: read_limits(bytes),
                    ..self
                };
                on(learned, Next::Ready)
            }
            _ => on(self, Next::Ready),
        }
    }
}

fn is_attention(how: Readiness) -> bool
    ensures { result ≡ is_attention how }
{
    matches!(how, Readiness::Again)
}

/// Whether a command that ended so may end otherwise a little later.
fn may_pass(how: Readiness) -> bool
    ensures { result ≡ may_pass how }
{
    match how {
        Readiness::Again | Readiness::Start | Readiness::Wait | Readiness::Busy => true,
        Readiness::Ready | Readiness::NoMedium | Readiness::Failed => false,
    }
}

/// Whether READ CAPACITY(16) tells blocks of as many bytes as the short one, where that told any.
fn is_as_short(short: Option<Capacity>, capacity: Capacity) -> bool
    ensures { result ≡ is_as_short short capacity }
{
    match short {
        Some(short) => capacity.block_bytes == short.block_bytes,
        None => true,
    }
}

/// Whether READ CAPACITY(16) and pages are asked.
fn has_version_5(inquiry: Option<InquiryData>) -> bool
    ensures { result ≡ has_version_5 inquiry }
{
    match inquiry {
        Some(inquiry) => inquiry.version >= SPC_3,
        None => false,
    }
}

/// Why a disk that tells such data isn't used.
fn why_of(fault: DiskFault) -> Why
    ensures { result ≡ why_of fault }
{
    match fault {
        DiskFault::NotADisk => Why::NotADisk,
        DiskFault::BadCapacity => Why::BadCapacity,
        DiskFault::BlockLength => Why::BlockLength,
    }
}
