//! What follows for texts, as functions with empty bodies.
ghost use Rattle.std.specs.Prelude.{◌≡◌, ℕ, ◌<◌, ◌≤◌, List, ◌++◌, None, Ok, drop, length, map, take};
ghost use Rattle.log_records.specs.Records.{records_text};
ghost use Rattle.uas_log.specs.declared.FirstUnit.{FirstUnit};
ghost use Rattle.kept_log.specs.declared.Entry.{Entry};
ghost use Rattle.kept_log.specs.declared.Body.TheVariants.{Step};
ghost use Rattle.kept_log.specs.Form.{AreKeepable, EntryFits, Kept, end_bodies, entry_text, front_sum, front_text, head_text, kept_text};
ghost use Rattle.kept_log.specs.Reading.{body_at};
ghost use Rattle.log_records.specs.checksum.Bytes.{AreBytes};
ghost use Rattle.kept_log.specs.Cuts.{IsHeadless, cut_log};
ghost use Rattle.kept_log.specs.LoadAt.{load_at};

/// The text of the first steps is the front of the text of all: the records of the others stand behind it.
pub fn texts_go_on()
    ensures { (tags : ℕ) (units : List FirstUnit) (entries more : List Entry)
        → front_text tags units (entries ++ more) ≡ front_text tags units entries ++ records_text (front_sum tags units entries) (map entry_text more) }
{}

/// A step that was written is read again from its record's body.
pub fn steps_are_read_again()
    ensures { (clients : ℕ) (entry : Entry) → 1 ≤ clients → clients ≤ 31 → EntryFits clients entry → body_at clients (entry_text entry) ≡ Ok (Step entry) }
{}

/// The text of a log's first steps is the front of the log's text: the records of the others stand behind it, and the end's.
pub fn texts_begin_alike()
    ensures { (kept : Kept) (count : ℕ)
        → kept_text kept ≡ front_text kept.tags kept.units (take count kept.entries)
        ++ records_text (front_sum kept.tags kept.units (take count kept.entries)) (map entry_text (drop count kept.entries) ++ end_bodies (length kept.entries) kept.ending) }
{}

/// The text of a log loads as that log.
pub fn kept_logs_load()
    ensures { (kept : Kept) → AreKeepable kept.tags kept.units kept.entries → AreBytes (kept_text kept)
        → load_at (kept_text kept) ≡ Ok (record { log = kept; torn = None }) }
{}

/// The front of a log's text loads as a beginning of the log: the steps whose records are whole, torn where the next record begins. One that
/// ends within the head is refused for its head.
pub fn cut_logs_load()
    ensures cut { (kept : Kept) (size : ℕ) → AreKeepable kept.tags kept.units kept.entries → AreBytes (kept_text kept)
        → length (head_text kept.tags kept.units) ≤ size → size < length (kept_text kept) → load_at (take size (kept_text kept)) ≡ Ok (cut_log size kept) }
    ensures headless { (kept : Kept) (size : ℕ) → AreKeepable kept.tags kept.units kept.entries → AreBytes (kept_text kept)
        → size < length (head_text kept.tags kept.units) → IsHeadless (take size (kept_text kept)) }
{}
