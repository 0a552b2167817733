//! Laws of sense data.
ghost use Rattle.host_sense.specs.Laws.{PlainIsKept, SenseTellsItsLength};

/// Law: byte 7 says how many bytes follow it; and in the fixed format without a detail the bytes are those of `scsi_cmd`.
pub fn sense_tells_its_length()
    ensures length { SenseTellsItsLength }
    ensures plain { PlainIsKept }
{}
