//! What a transfer comes to (BOT 6.7, the thirteen cases).
ghost use Rattle.std.specs.Prelude.{◌≡◌, ◌≤◌, ◌-◌, ◌==◌};
ghost use Rattle.bulk_only.specs.Cases.{asked_of, case_in, case_of, compared, is_phase_error, moved, number_of, residue_of, some_data, status_of, verdict_of, whole_chunks};

use crate::CswStatus;

/// What a CBW expects.
#[derive(Clone, Copy, Debug, PartialEq, Eq)]
pub enum Asked {
    /// No data (Hn).
    Nothing,
    /// Data to the host (Hi).
    In,
    /// Data to the device (Ho).
    Out,
}

/// What the device does for the command. Of 0 bytes it is the same as `Nothing`.
#[derive(Clone, Copy, Debug, PartialEq, Eq)]
pub enum Done {
    /// It moves no data (Dn).
    Nothing,
    /// It gives so many bytes (Di).
    In { given: u64 },
    /// It takes so many bytes (Do). `whole` are those of the chunks that it got whole, which matter where it takes more than the host sends.
    Out { taken: u64, whole: u64 },
}

/// The cases of host and device, with their numbers in BOT 6.7.
#[derive(Clone, Copy, Debug, PartialEq, Eq)]
pub enum Case {
    /// 1, Hn = Dn: neither has data.
    NoData = 1,
    /// 2, Hn < Di: the device gives, and the host expects nothing.
    GivesUnasked,
    /// 3, Hn < Do: the device takes, and the host sends nothing.
    TakesUnasked,
    /// 4, Hi > Dn: the host expects data, and the device has none.
    GivesNothing,
    /// 5, Hi > Di: the device gives fewer bytes than the host expects.
    GivesFewer,
    /// 6, Hi = Di: it gives as many.
    GivesAll,
    /// 7, Hi < Di: it gives more.
    GivesMore,
    /// 8, Hi <> Do: the host expects data, and the device takes.
    TakesInstead,
    /// 9, Ho > Dn: the host sends data, and the device takes none.
    TakesNothing,
    /// 10, Ho <> Di: the host sends data, and the device gives.
    GivesInstead,
    /// 11, Ho > Do: the device takes fewer bytes than the host sends.
    TakesFewer,
    /// 12, Ho = Do: it takes as many.
    TakesAll,
    /// 13, Ho < Do: it takes more.
    TakesMore,
}

impl Case {
    /// The number of the case in BOT 6.7.
    pub fn number(self) -> u8
        ensures { result ≡ number_of self }
    {
        self as u8
    }
}

/// What a CBW of this length, in bytes, and direction expects: nothing for 0 bytes, whatever the direction.
pub fn asked_of(length: u32, is_in: bool) -> Asked
    ensures { result ≡ asked_of length is_in }
{
    match (length, is_in) {
        (0, _) => Asked::Nothing,
        (_, true) => Asked::In,
        (_, false) => Asked::Out,
    }
}

/// The case of a CBW of this length and direction and of what the device does.
pub fn case_of(length: u32, is_in: bool, done: Done) -> Case
    ensures { result ≡ case_of length is_in done }
{
    let length_asked = u64::from(length);
    match (asked_of(length, is_in), some_data(done)) {
        (Asked::Nothing, Done::Nothing) => Case::NoData,
        (Asked::Nothing, Done::In { .. }) => Case::GivesUnasked,
        (Asked::Nothing, Done::Out { .. }) => Case::TakesUnasked,
        (Asked::In, Done::Nothing) => Case::GivesNothing,
        (Asked::In, Done::In { given }) => compared(
            given,
            length_asked,
            Case::GivesFewer,
            Case::GivesAll,
            Case::GivesMore,
        ),
        (Asked::In, Done::Out { .. }) => Case::TakesInstead,
        (Asked::Out, Done::Nothing) => Case::TakesNothing,
        (Asked::Out, Done::In { .. }) => Case::GivesInstead,
        (Asked::Out, Done::Out { taken, .. }) => compared(
            taken,
            length_asked,
            Case::TakesFewer,
            Case::TakesAll,
            Case::TakesMore,
        ),
    }
}

/// What is done, where it moves bytes.
fn some_data(done: Done) -> Done
    ensures { result ≡ some_data done }
{
    match done {
        Done::In { given: 0 } | Done::Out { taken: 0, .. } => Done::Nothing,
        done => done,
    }
}

/// The case of fewer, as many or more bytes than the host expects.
fn compared(amount: u64, length: u64, fewer: Case, same: Case, more: Case) -> Case
    ensures { result ≡ compared amount length fewer same more }
{
    if amount < length {
        fewer
    } else if amount == length {
        same
    } else {
        more
    }
}

/// The status and the residue, in bytes, that the CSW tells for a CBW of this length and direction, what the device did, and whether its command
/// ended GOOD.
pub fn verdict_of(length: u32, is_in: bool, done: Done, is_good: bool) -> (CswStatus, u32)
    ensures verdict { result ≡ verdict_of length is_in done is_good }
    ensures few { result.1 ≤ length }
{
    let case = case_of(length, is_in, done);
    (status_of(case, is_good), residue_of(case, length, done))
}

fn status_of(case: Case, is_good: bool) -> CswStatus
    ensures { result ≡ status_of case is_good }
{
    if is_phase_error(case) {
        CswStatus::PhaseError
    } else if is_good {
        CswStatus::Passed
    } else {
        CswStatus::Failed
    }
}

fn is_phase_error(case: Case) -> bool
    ensures { result ≡ is_phase_error case }
{
    matches!(
        case,
        Case::GivesUnasked
            | Case::TakesUnasked
            | Case::GivesMore
            | Case::TakesInstead
            | Case::GivesInstead
            | Case::TakesMore
    )
}

fn residue_of(case: Case, length: u32, done: Done) -> u32
    ensures value { result ≡ residue_of case length done }
    ensures few { result ≤ length }
{
    match case {
        Case::NoData | Case::GivesUnasked | Case::TakesUnasked | Case::GivesMore => 0,
        Case::GivesNothing
        | Case::GivesFewer
        | Case::GivesAll
        | Case::TakesNothing
        | Case::TakesFewer
        | Case::TakesAll => left_of(length, moved(done)),
        Case::TakesInstead | Case::GivesInstead => length,
        Case::TakesMore => left_of(length, whole_chunks(done)),
    }
}

/// The bytes that the device gave or took.
fn moved(done: Done) -> u64
    ensures { result ≡ moved done }
{
    match done {
        Done::Nothing => 0,
        Done::In { given } => given,
        Done::Out { taken, .. } => taken,
    }
}

/// Those of them that it took in whole chunks.
fn whole_chunks(done: Done) -> u64
    ensures { result ≡ whole_chunks done }
{
    match done {
        Done::Out { whole, .. } => whole,
        Done::Nothing | Done::In { .. } => 0,
    }
}

/// What is left of a length behind so many bytes.
fn left_of(length: u32, amount: u64) -> u32
    ensures { result ≡ length - amount }
{
    u64::from(length).saturating_sub(amount) as u32
}
