//! What a plain line asks for, as a law of the definitions.
ghost use Rattle.uas_words.specs.CommandLine.{PlainLinesAsk};

/// A plain line asks for what it says and isn't refused, so that a run of the program on its words ends in that, or for want of memory.
pub fn plain_lines_ask()
    ensures { PlainLinesAsk }
{}
