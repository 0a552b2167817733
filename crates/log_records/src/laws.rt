//! What follows for records, as functions with empty bodies.
ghost use Rattle.std.specs.Prelude.{◌≡◌, ℕ, ◌≤◌, ◌<◌, ◌^◌, List, ◌++◌, length, take};
ghost use Rattle.byte_numbers.specs.Bytes.{AreBytes};
ghost use Rattle.log_records.specs.declared.First.TheVariants.{Torn, Whole};
ghost use Rattle.log_records.specs.Finding.{behind, body_of, first_record};
ghost use Rattle.log_records.specs.Records.{last_sum, record_text, records_text, sum_after};

/// A record that was written is found, whatever follows it.
pub fn records_are_found()
    ensures { (before : ℕ) (body rest : List ℕ) → length body < 2 ^ 32 → AreBytes body
        → first_record before (record_text before body ++ rest) ≡ Whole (length body) (sum_after before body) }
{}

/// What is found is a record's text, and the rest behind it.
pub fn found_records_are_records()
    ensures { (before len sum : ℕ) (bytes : List ℕ) → AreBytes bytes → first_record before bytes ≡ Whole len sum
        → (bytes ≡ record_text before (body_of bytes) ++ behind bytes) × (length (body_of bytes) ≡ len) × (sum ≡ sum_after before (body_of bytes)) }
{}

/// A record that was cut off somewhere, at the end of bytes, is torn.
pub fn cut_records_are_torn()
    ensures { (before cut : ℕ) (body : List ℕ) → length body < 2 ^ 32 → 1 ≤ cut → cut < length (record_text before body)
        → first_record before (take cut (record_text before body)) ≡ Torn }
{}

/// More records stand behind the last checksum of those before.
pub fn records_go_on()
    ensures { (before : ℕ) (bodies more : List (List ℕ)) → records_text before (bodies ++ more) ≡ records_text before bodies ++ records_text (last_sum before bodies) more }
{}
