//! The long and the short form of a command ask for the same.
ghost use Rattle.std.specs.Prelude.{◌≡◌, ℕ};
ghost use Rattle.scsi_cmd.specs.Meaning.{op_fault};
ghost use Rattle.scsi_cmd.specs.Work.{work_of};
ghost use Rattle.scsi_cmd.specs.declared.Op.{Op};

/// Law: READ(16) of the numbers of a READ(10) is the same work, and has the same first fault.
pub fn long_reads_are_reads(lba: u32, count: u16, fua: bool)
    ensures work { (blocks : ℕ) → work_of (Op.Read16 lba count fua) blocks ≡ work_of (Op.Read lba count fua) blocks }
    ensures fault { (blocks : ℕ) → op_fault (Op.Read16 lba count fua) blocks ≡ op_fault (Op.Read lba count fua) blocks }
{}

/// Law: WRITE(16) of the numbers of a WRITE(10) is the same work, and has the same first fault.
pub fn long_writes_are_writes(lba: u32, count: u16, fua: bool)
    ensures work { (blocks : ℕ) → work_of (Op.Write16 lba count fua) blocks ≡ work_of (Op.Write lba count fua) blocks }
    ensures fault { (blocks : ℕ) → op_fault (Op.Write16 lba count fua) blocks ≡ op_fault (Op.Write lba count fua) blocks }
{}
