//! What holds of wrappers and cases, as functions with empty bodies.
ghost use Rattle.bulk_only.specs.Laws.{CbwsAreReadBack, CbwsAreWrittenBack, CswsAreReadBack, CswsAreWrittenBack, PhaseErrors, ResiduesAreLeft, SixCases};
ghost use Rattle.bulk_only.specs.Rows.{RowCleared, RowFaults, RowGood, RowPhase, RowRead, RowReady, RowReserved, RowTakesMore, RowWrite};

/// Law: a CBW whose parts fit their places is read from the bytes that it is written as.
pub fn cbws_are_read_back()
    ensures { CbwsAreReadBack }
{}

/// Law: a CBW that is read is written as the bytes that it was read from, but for reserved bits and what stood behind the CDB, which are 0.
pub fn cbws_are_written_back()
    ensures { CbwsAreWrittenBack }
{}

/// Law: a CSW is read from the bytes that it is written as.
pub fn csws_are_read_back()
    ensures { CswsAreReadBack }
{}

/// Law: a CSW that is read is written as the bytes that it was read from.
pub fn csws_are_written_back()
    ensures { CswsAreWrittenBack }
{}

/// Law: a phase error is told in the cases 2, 3, 7, 8, 10 and 13; which is where the device moves more bytes than the host expects, or some in
/// the other direction.
pub fn phase_errors_are_six_cases()
    ensures six { SixCases }
    ensures unexpected { PhaseErrors }
{}

/// Law: where no phase error is told, the residue and the bytes that the device gave or took are H together.
pub fn residues_are_what_is_left()
    ensures { ResiduesAreLeft }
{}

/// Law: how these CBWs and CSWs are read, and what CDBs with a logical unit become.
pub fn rows_are_read()
    ensures read { RowRead }
    ensures ready { RowReady }
    ensures faults { RowFaults }
    ensures reserved { RowReserved }
    ensures cleared { RowCleared }
{}

/// Law: how these CBWs and CSWs are written, and what these transfers come to.
pub fn rows_are_told()
    ensures good { RowGood }
    ensures write { RowWrite }
    ensures phase { RowPhase }
    ensures takes_more { RowTakesMore }
{}
