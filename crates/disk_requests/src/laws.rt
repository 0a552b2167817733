//! What follows, as functions with empty bodies.
ghost use Rattle.std.specs.Prelude.{◌≡◌, ℕ, ◌^◌, ◌<◌, ◌≤◌, List, Some, length};
ghost use Rattle.uas_iu.specs.declared.TheConstants.{MAX_SENSE_BYTES};
ghost use Rattle.disk_requests.specs.Units.{response_text, sense_text};
ghost use Rattle.disk_requests.specs.Statuses.{status_in};
ghost use Rattle.disk_requests.specs.declared.StatusKind.TheVariants as kind;
ghost use Rattle.disk_requests.specs.Rows.{RowAbort, RowAskLong, RowAttention, RowBlockLength, RowBlocks, RowCapacity, RowFarWrite, RowInquiry};
ghost use Rattle.disk_requests.specs.Rows.{RowLongCapacity, RowNoUnit, RowPage, RowRead, RowReadiness, RowResponse, RowShortRead, RowShortSense, RowUnmap, RowUnmapList};

/// Law: these bytes are sent of these requests, commands and task management functions.
pub fn rows_are_written()
    ensures read { RowRead }
    ensures short_read { RowShortRead }
    ensures far_write { RowFarWrite }
    ensures unmap { RowUnmap }
    ensures unmap_list { RowUnmapList }
    ensures page { RowPage }
    ensures capacity { RowCapacity }
    ensures abort { RowAbort }
{}

/// Law: these bytes are read as these answers.
pub fn rows_are_read()
    ensures attention { RowAttention }
    ensures response { RowResponse }
    ensures short_sense { RowShortSense }
    ensures blocks { RowBlocks }
    ensures ask_long { RowAskLong }
    ensures long_capacity { RowLongCapacity }
    ensures block_length { RowBlockLength }
    ensures readiness { RowReadiness }
    ensures inquiry { RowInquiry }
    ensures no_unit { RowNoUnit }
{}

/// Law: the units that a device writes by the grammar of `uas_iu` are read as what they say.
pub fn units_are_read()
    ensures sense { (tag status : ℕ) (sense : List ℕ) → tag < 2 ^ 16 → length sense ≤ MAX_SENSE_BYTES
        → status_in (sense_text tag status sense) ≡ Some (record { tag = tag; kind = kind.Sense status (record { items = sense }) }) }
    ensures response { (tag code : ℕ) → tag < 2 ^ 16 → status_in (response_text tag code) ≡ Some (record { tag = tag; kind = kind.Response code }) }
{}
