//! What a step did.
ghost use Rattle.std.specs.Prelude.{◌≡◌};
ghost use Rattle.xhci_control.specs.Stages.{is_bulk_reset, is_restarted};
ghost use Rattle.xhci_control.specs.Steps.{told, told_done, worked};

use crate::Served;
use guest_pipes::Acted;
use usb_disk::Answer;

fn is_restarted(answer: &Answer) -> bool
    ensures { result ≡ is_restarted answer.now }
{
    matches!(answer, Answer::Restarted)
}

fn is_bulk_reset(answer: &Answer) -> bool
    ensures { result ≡ is_bulk_reset answer.now }
{
    matches!(answer, Answer::BulkReset)
}

pub(crate) fn idle(acted: Acted) -> Served
    ensures { result ≡ told acted }
{
    Served {
        acted,
        restarted: false,
        bulk_reset: false,
    }
}

pub(crate) fn worked() -> Served
    ensures { result ≡ worked }
{
    idle(Acted::Worked)
}

/// What a request that is answered so did.
pub(crate) fn worked_by(answer: &Answer) -> Served
    ensures { result ≡ told_done answer.now }
{
    Served {
        acted: Acted::Worked,
        restarted: is_restarted(answer),
        bulk_reset: is_bulk_reset(answer),
    }
}
