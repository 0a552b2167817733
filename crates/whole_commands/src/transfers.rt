//! Whole transfers: what all chunks of a READ or a WRITE come to.
//!
//! The device server moves data chunk by chunk, each on the blocks of its own moment, and the machine of one client and the device of
//! all are made of its chunks. So a chunk that began one block off would be one in all of them. Here it is said of the chunks in turn,
//! in the words of the commands (SBC, READ and WRITE): the blocks from the LBA on, in full and in order.
//!
//! These are laws alone, over the definitions of device_server and block_unit.

ghost use Rattle.whole_commands.specs.transfers.Transfers.{ReadsGiveAll, ReadsStopAtBad, ReadsAdvance, WritesTakeAll, WritesStopAtBad, WritesAdvance};

/// Law: on blocks that don't change and of which none is bad, the chunks of a READ in turn give the blocks from its LBA on, in full,
/// and it is GOOD behind the last. At a bad block the chunks before it have given theirs, and it ends with MEDIUM ERROR.
pub fn reads_give_all()
    ensures all { ReadsGiveAll }
    ensures advance { ReadsAdvance }
    ensures bad { ReadsStopAtBad }
{}

/// Law: the chunks of a WRITE in turn leave the blocks from its LBA on as the bytes that were handed in, and all others as they
/// were; with FUA the medium alike, else the medium stays. At a bad block the chunks before it stand, and it ends with MEDIUM ERROR.
pub fn writes_take_all()
    ensures all { WritesTakeAll }
    ensures advance { WritesAdvance }
    ensures bad { WritesStopAtBad }
{}
