//! The faults of the library for C, by number. Each number stands here once and means one thing, whatever call answers it; 0 is no fault.
//! The crates above name a fault, in code and in definitions, by its name here. C has the same names behind `UAS_`.

ghost use Rattle.std.specs.Prelude.{◌≡◌, ◌∷◌, [], true, false};
ghost use Rattle.c_common.specs.faults.Faults.{all_faults, are_different, is_among};

/// There is no memory for what was asked. Nothing has changed.
pub const NO_MEMORY: u8 = 1;

// TRBs.

/// A TRB of another type.
pub const TRB_UNKNOWN_TYPE: u8 = 16;

/// A Normal TRB of more than 65,536 bytes.
pub const TRB_LENGTH_OVER: u8 = 17;

/// A reserved bit of a TRB is set.
pub const TRB_RESERVED_SET: u8 = 18;

/// A field of a TRB doesn't fit its bits.
pub const TRB_UNFIT: u8 = 19;

// Information units.

/// An information unit of another identifier.
pub const UNIT_UNKNOWN_ID: u8 = 32;

/// Too few bytes for the identifier.
pub const UNIT_SHORT: u8 = 33;

/// Too many bytes for it.
pub const UNIT_LONG: u8 = 34;

/// A reserved byte is set.
pub const UNIT_RESERVED_SET: u8 = 35;

/// A length field that doesn't fit the bytes.
pub const UNIT_LENGTH_FIELD: u8 = 36;

/// A Sense of more than 96 bytes of sense data.
pub const UNIT_UNFIT: u8 = 37;

/// Too little room for an information unit's bytes.
pub const UNIT_NO_ROOM: u8 = 38;

// Commands.

/// A CDB that is answered with CHECK CONDITION.
pub const CDB_CHECK: u8 = 48;

/// No operation has this code.
pub const CDB_UNKNOWN_OPCODE: u8 = 49;

/// A field of an operation doesn't fit its CDB.
pub const CDB_UNFIT: u8 = 50;

/// A logical unit of no blocks has no capacity.
pub const CAPACITY_NO_BLOCKS: u8 = 51;

// The logical units of which a device, a controller or a bus is made.

/// No logical unit, or more than there can be: 31, or as many clients as a bus has room for with these tags.
pub const UNITS: u8 = 56;

/// A logical unit of no block, or of more than 65,536.
pub const BLOCKS: u8 = 57;

/// An image that isn't as long as the blocks of all logical units.
pub const IMAGE: u8 = 58;

/// A bad block of a logical unit that isn't there, or beyond its last block.
pub const BAD_BLOCK: u8 = 59;

/// Another number of tags of each client than 2 to 16.
pub const TAGS: u8 = 60;

// The device.

/// No such call of a device.
pub const DEVICE_CALL: u8 = 64;

/// The tag of a received information unit has a task.
pub const DEVICE_OVERLAP: u8 = 65;

/// The task of the tag isn't at this.
pub const DEVICE_PHASE: u8 = 66;

/// Not as many bytes as the call moves.
pub const DEVICE_LENGTH: u8 = 67;

/// No such logical unit.
pub const DEVICE_UNIT: u8 = 68;

/// Blocks beyond the last one.
pub const DEVICE_RANGE: u8 = 69;

// The controller.

/// No such call of a controller.
pub const CONTROLLER_CALL: u8 = 80;

/// No such ring.
pub const CONTROLLER_RING: u8 = 81;

/// The ring is full.
pub const CONTROLLER_FULL: u8 = 82;

/// No such step.
pub const CONTROLLER_STEP: u8 = 83;

/// Nothing stands at this address, or not all of it.
pub const CONTROLLER_ADDRESS: u8 = 84;

/// No such tag.
pub const CONTROLLER_TAG: u8 = 85;

/// Not as many bytes as the call moves.
pub const CONTROLLER_LENGTH: u8 = 86;

/// The tag has a buffer that is lent.
pub const CONTROLLER_LENT: u8 = 87;

/// The tag has no buffer that is lent.
pub const CONTROLLER_NOT_LENT: u8 = 88;

/// The controller hasn't consumed what is to be reclaimed.
pub const CONTROLLER_NOT_CONSUMED: u8 = 89;

/// No such logical unit.
pub const CONTROLLER_UNIT: u8 = 90;

/// Blocks beyond the last one.
pub const CONTROLLER_RANGE: u8 = 91;

// What clients ask of a driver and of a bus.

/// The tag isn't the client's, or no tag for commands.
pub const CLIENT_NOT_YOURS: u8 = 96;

/// The tag is in use.
pub const CLIENT_IN_USE: u8 = 97;

/// The buffer isn't as long as the operation says.
pub const CLIENT_BAD_LENGTH: u8 = 98;

/// The operation moves more than a buffer holds.
pub const CLIENT_TOO_LONG: u8 = 99;

/// The ticket is below the least that may come.
pub const CLIENT_OUT_OF_TURN: u8 = 100;

/// The tag of a task management function has no command.
pub const CLIENT_NO_SUCH_TASK: u8 = 101;

/// No such call of a driver or of a bus.
pub const CLIENT_CALL: u8 = 102;

/// No such operation.
pub const CLIENT_OPERATION: u8 = 103;

/// A ticket of 2^60 or more.
pub const CLIENT_TICKET: u8 = 104;

/// Not as many bytes as the call moves.
pub const CLIENT_LENGTH: u8 = 105;

/// No such task management function.
pub const CLIENT_FUNCTION: u8 = 106;

// The driver.

/// No client, or more than 15.
pub const DRIVER_CLIENTS: u8 = 112;

/// A ring has too little room.
pub const DRIVER_ROOM: u8 = 113;

/// Nothing stands at this address, or not all of it.
pub const DRIVER_ADDRESS: u8 = 114;

/// No such ring or stream.
pub const DRIVER_RING: u8 = 115;

/// No such event.
pub const DRIVER_EVENT: u8 = 116;

/// No such state of an endpoint.
pub const DRIVER_STATE: u8 = 117;

// The bus.

/// No such step.
pub const BUS_STEP: u8 = 128;

/// No such client.
pub const BUS_CLIENT: u8 = 129;

/// Blocks beyond the last one.
pub const BUS_RANGE: u8 = 130;

// The device without blocks.

/// No such call, or no such outcome of a request.
pub const TASKS_CALL: u8 = 144;

/// The tag of an information unit has a task.
pub const TASKS_OVERLAP: u8 = 145;

/// The tag doesn't want this now.
pub const TASKS_PHASE: u8 = 146;

/// More bytes than the tag wants, or other ones than the request's blocks have.
pub const TASKS_LENGTH: u8 = 147;

/// No request of this number is out.
pub const TASKS_NOT_OUT: u8 = 148;

/// The blocks of a logical unit have neither 512 nor 4,096 bytes.
pub const TASKS_BLOCK_BYTES: u8 = 149;

/// A serial number of more than eight decimal digits.
pub const TASKS_SERIAL: u8 = 150;

/// No such command set, or a maximum transfer length that is no multiple of 8 from 8 to 65,528.
pub const TASKS_SET: u8 = 151;

/// A chunk of no blocks, or of more than 128.
pub const TASKS_CHUNK: u8 = 152;

/// A record of a logical unit that has fewer than 16 bytes, isn't whole, or has unknown bytes that aren't 0.
pub const TASKS_SIZE: u8 = 153;

/// A field of such a record that can't be told of a logical unit, or isn't served.
pub const TASKS_DISK: u8 = 154;

/// A block or a byte that isn't one of the request's.
pub const TASKS_PLACE: u8 = 155;

/// Law: each fault has its number, no two have the same one, and none has 0, which is no fault's.
pub fn numbers_are_different()
    ensures pinned { all_faults ≡
        1 ∷ 16 ∷ 17 ∷ 18 ∷ 19 ∷ 32 ∷ 33 ∷ 34 ∷ 35 ∷ 36 ∷ 37 ∷ 38 ∷ 48 ∷ 49 ∷ 50 ∷ 51 ∷ 56 ∷ 57 ∷ 58 ∷ 59 ∷ 60 ∷ 64 ∷ 65 ∷ 66 ∷ 67 ∷
        68 ∷ 69 ∷ 80 ∷ 81 ∷ 82 ∷ 83 ∷ 84 ∷ 85 ∷ 86 ∷ 87 ∷ 88 ∷ 89 ∷ 90 ∷ 91 ∷ 96 ∷ 97 ∷ 98 ∷ 99 ∷ 100 ∷ 101 ∷ 102 ∷ 103 ∷ 104 ∷
        105 ∷ 106 ∷ 112 ∷ 113 ∷ 114 ∷ 115 ∷ 116 ∷ 117 ∷ 128 ∷ 129 ∷ 130 ∷ 144 ∷ 145 ∷ 146 ∷ 147 ∷ 148 ∷
        149 ∷ 150 ∷ 151 ∷ 152 ∷ 153 ∷ 154 ∷ 155 ∷ [] }
    ensures different { are_different all_faults ≡ true }
    ensures none_is_no_fault { is_among 0 all_faults ≡ false }
{}
