//! The headline of the program, as laws of its definitions.
ghost use Rattle.uas_replay.specs.Headline.{ScriptsAreReplays, OwnLabelsDecide, ReplyLinesShowOwn};

/// What a script tells is the replay of a list of steps, and what it says of a client's replies is what a disk that the
/// client had alone would.
pub fn scripts_are_replays()
    ensures { ScriptsAreReplays }
{
    bus_core::isolated();
    bus_core::opens_as_solo();
}

/// A client's own labels and its first unit decide what is said of its replies, and so the lines that are printed of them.
pub fn own_labels_decide()
    ensures said { OwnLabelsDecide }
    ensures printed { ReplyLinesShowOwn }
{}
