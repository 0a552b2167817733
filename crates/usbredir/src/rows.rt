//! Laws: packets byte by byte.

ghost use Rattle.usbredir.specs.Rows.{RowCancel, RowCancelled, RowCommand, RowCommandAnswer, RowEndpoints, RowHello, RowOut, RowOutAnswer};
ghost use Rattle.usbredir.specs.Rows.{RowRead, RowReadAnswer, RowStall, RowStatusAnswer, RowStatusRequest, RowStreams, RowStreamsStatus};

/// Law: these bytes are read as these packets of a guest.
pub fn rows_are_read()
    ensures streams { RowStreams }
    ensures status { RowStatusRequest }
    ensures command { RowCommand }
    ensures read { RowRead }
    ensures out { RowOut }
    ensures cancel { RowCancel }
{}

/// Law: these bytes are sent of these packets.
pub fn rows_are_written()
    ensures hello { RowHello }
    ensures streams { RowStreamsStatus }
    ensures command { RowCommandAnswer }
    ensures status { RowStatusAnswer }
    ensures read { RowReadAnswer }
    ensures out { RowOutAnswer }
    ensures stall { RowStall }
    ensures cancelled { RowCancelled }
    ensures endpoints { RowEndpoints }
{}
