//! What a reply waits for: a law over the definitions.
ghost use Rattle.block_driver.specs.Laws.{AbortWaits, GoodHasAll, ReplyWaits};

/// Law: a reply waits for the data and the status of its command, or for both TDs to be taken off where it was aborted; one that is GOOD has all
/// bytes.
pub fn replies_are_whole()
    ensures waits { ReplyWaits }
    ensures aborts { AbortWaits }
    ensures good { GoodHasAll }
{}
