//! What holds of every text that is embedded, as laws of the definitions.
ghost use Rattle.draw_run.specs.page.Embedded.{EmbeddedReadsBack, EmbeddedStaysInside};

/// What is embedded reads as the bytes that were embedded.
pub fn embedded_reads_back()
    ensures { EmbeddedReadsBack }
{}

/// Nothing that is embedded ends the string or the element that it stands in.
pub fn embedded_stays_inside()
    ensures { EmbeddedStaysInside }
{}
