//! The faults of the calls of a driver, by number; those of the other parts stand in c_common and uas_xhci_c.
ghost use Rattle.std.specs.Prelude.{◌≡◌, ◌∷◌, [], not, true};
ghost use Rattle.std.specs.List.{list_all};
ghost use Rattle.c_common.specs.faults.Faults.{all_faults, are_different, is_among};
ghost use Rattle.uas_block_c.specs.Numbers.{block_faults};

/// No such call, no such kind of request, or too little room for what a call tells.
pub const BLOCK_CALL: u8 = 176;

/// Options that can't be asked.
pub const BLOCK_OPTIONS: u8 = 177;

/// Nothing was told that is answered, or no memory is wanted.
pub const BLOCK_NOT_ASKED: u8 = 178;

/// Other bytes than were asked for, or than a request moves.
pub const BLOCK_LENGTH: u8 = 179;

/// Memory that isn't at a multiple of 65,536, or a segment that isn't of whole 512 bytes at a multiple of 512.
pub const BLOCK_ALIGNMENT: u8 = 180;

/// Memory that the controller doesn't reach.
pub const BLOCK_REACH: u8 = 181;

/// No disk is used.
pub const BLOCK_NOT_READY: u8 = 182;

/// Another disk is used.
pub const BLOCK_OTHER_DISK: u8 = 183;

/// A block isn't on the disk.
pub const BLOCK_RANGE: u8 = 184;

/// More blocks than one request can have.
pub const BLOCK_TOO_LONG: u8 = 185;

/// The disk can't unmap blocks.
pub const BLOCK_NO_UNMAP: u8 = 186;

/// The disk has no forced unit access.
pub const BLOCK_NO_FUA: u8 = 187;

/// More pieces than the data of a command can have.
pub const BLOCK_PIECES: u8 = 188;

/// As many commands are out as can be.
pub const BLOCK_NO_TAG: u8 = 189;

/// No command is out on the tag.
pub const BLOCK_NO_SUCH_TAG: u8 = 190;

/// Law: each fault has its number, no two have the same one, and none has a number of another part's.
pub fn numbers_are_different()
    ensures pinned { block_faults ≡ 176 ∷ 177 ∷ 178 ∷ 179 ∷ 180 ∷ 181 ∷ 182 ∷ 183 ∷ 184 ∷ 185 ∷ 186 ∷ 187 ∷ 188 ∷ 189 ∷ 190 ∷ [] }
    ensures different { are_different block_faults ≡ true }
    ensures apart { list_all (λ number. not (is_among number all_faults)) block_faults ≡ true }
{}
