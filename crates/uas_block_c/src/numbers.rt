//! The numbers by which C knows rows, refusals, losses and faults.
ghost use Rattle.std.specs.Prelude.{◌≡◌};
ghost use Rattle.uas_block_c.specs.Numbers.{lend_number, loss_number, row_number, submit_number, put_number, why_number};

use crate::faults::{
    BLOCK_ALIGNMENT, BLOCK_LENGTH, BLOCK_NO_FUA, BLOCK_NO_TAG, BLOCK_NO_UNMAP, BLOCK_NOT_ASKED,
    BLOCK_NOT_READY, BLOCK_OTHER_DISK, BLOCK_PIECES, BLOCK_RANGE, BLOCK_REACH, BLOCK_TOO_LONG,
};
use block_driver::{Fault, Loss};
use block_requests::SubmitFault;
use bring_up::{LendFault, Row, Why};

/// The table's row.
pub(crate) fn row_number(row: Row) -> u8
    ensures { result ≡ row_number row }
{
    match row {
        Row::Handoff => 3,
        Row::Halt => 4,
        Row::Reset => 5,
        Row::Program => 6,
        Row::Run => 7,
        Row::Ports => 8,
        Row::PortReset => 9,
        Row::EnableSlot => 10,
        Row::AddressDevice => 11,
        Row::DisableSlot => 12,
    }
}

pub(crate) fn why_number(why: Why) -> u8
    ensures { result ≡ why_number why }
{
    match why {
        Why::TooOld => 1,
        Why::SmallBar => 2,
        Why::BadList => 3,
        Why::NoSlots => 4,
        Why::NoPorts => 5,
        Why::NoStreams => 6,
        Why::PageSize => 7,
        Why::StillRuns => 8,
        Why::NoReset => 9,
        Why::NotSuperSpeed => 10,
        Why::NoAddress => 11,
        Why::Silent => 12,
        Why::BadDevice => 13,
        Why::Hub => 14,
        Why::LongConfiguration => 15,
        Why::BadDescriptor => 16,
        Why::NoUas => 17,
        Why::BadPipes => 18,
        Why::NoCompanion => 19,
        Why::BrokenUas => 20,
        Why::NotConfigured => 21,
        Why::NotADisk => 22,
        Why::NoMedium => 23,
        Why::NeverReady => 24,
        Why::BadCapacity => 25,
        Why::BlockLength => 26,
    }
}

pub(crate) fn loss_number(loss: Loss) -> u8
    ensures { result ≡ loss_number loss }
{
    match loss {
        Loss::Late => 1,
        Loss::Failed => 2,
        Loss::BadUnit => 3,
        Loss::Disabled => 4,
        Loss::Pulled => 5,
        Loss::Broken => 6,
        Loss::Gone => 7,
        Loss::Restarted => 8,
    }
}

pub(crate) fn lend_number(fault: LendFault) -> u8
    ensures { result ≡ lend_number fault }
{
    match fault {
        LendFault::NotAsked => BLOCK_NOT_ASKED,
        LendFault::Alignment => BLOCK_ALIGNMENT,
        LendFault::Reach => BLOCK_REACH,
    }
}

fn submit_number(fault: SubmitFault) -> u8
    ensures { result ≡ submit_number fault }
{
    match fault {
        SubmitFault::Range => BLOCK_RANGE,
        SubmitFault::TooLong => BLOCK_TOO_LONG,
        SubmitFault::NoUnmap => BLOCK_NO_UNMAP,
        SubmitFault::NoFua => BLOCK_NO_FUA,
        SubmitFault::Length => BLOCK_LENGTH,
        SubmitFault::Alignment => BLOCK_ALIGNMENT,
        SubmitFault::Reach => BLOCK_REACH,
        SubmitFault::Pieces => BLOCK_PIECES,
    }
}

pub(crate) fn put_number(fault: Fault) -> u8
    ensures { result ≡ put_number fault }
{
    match fault {
        Fault::NotReady => BLOCK_NOT_READY,
        Fault::OtherDisk => BLOCK_OTHER_DISK,
        Fault::Request(fault) => submit_number(fault),
        Fault::NoTag => BLOCK_NO_TAG,
    }
}
