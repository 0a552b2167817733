//! What holds of every text in colours, as a law of the definitions.
ghost use Rattle.line_colours.specs.Colours.{ColoursLeaveTheText};

/// A text in colours is, without its escapes, that text.
pub fn colours_leave_the_text()
    ensures { ColoursLeaveTheText }
{}
