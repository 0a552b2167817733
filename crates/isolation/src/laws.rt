//! The headline, which holds of the shared machine's definitions.
ghost use Rattle.isolation.specs.Laws.{HeadlineHolds, WorldsAgree};

/// Isolation: a client's own labels are a run of the solo machine, with its own replies.
pub fn isolated()
    ensures { HeadlineHolds }
{}

/// Two clients that start alike and do alike, each in its world, are answered alike.
pub fn worlds_agree()
    ensures { WorldsAgree }
{}
