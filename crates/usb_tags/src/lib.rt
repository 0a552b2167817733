//! The USB disk that a usbredir session drives, as a machine without files: packets in, requests of blocks and answers out.
//!
//! ```text
//!   a packet --receive--> UsbTags --next--> Asks: a request of blocks, which `answered` answers
//!                                           Sends: a packet
//!                                           Moved: call again
//!                                           Quiet: nothing is left to do for the packet
//! ```
//!
//! A *place* is a pipe with streams (81h, 82h, 02h) and a stream of it, 1 to 128, which is the tag of a task. A transfer is *held* at its
//! place until its task ends it. The last answer of a place is *kept*, and told again where the guest lost it (`usb_places`).
//!
//! A bulk packet, the first that holds:
//!
//! 1. There is no such endpoint, or the device isn't configured: invalid. The endpoint is halted: stall.
//! 2. Its place keeps an answer that is lost, to a transfer of the same id and length, of a command with the same bytes: that answer is told
//!    again, and the device hears nothing.
//! 3. A command: success, with its length. Its unit, the first 1,024 bytes, is dropped where it is shorter than 4 or its tag has no place.
//!    Else the answer is kept, the device receives the unit, and its tag is served. Where the tag has a task, a held transfer of its status
//!    is first answered by Response 0Ah. An ABORT TASK forgets what is kept of the tag that it names, a LOGICAL UNIT RESET all.
//! 4. Its stream has no place, a data-out is longer than 524,288 bytes or comes where a held data-in was given bytes, or its place holds a
//!    transfer: stall.
//! 5. No bytes: success, and what its place kept is forgotten. Else it is held, and its tag is served.
//!
//! Serving a tag, one step at a time, the first that holds:
//!
//! | When | Step |
//! |---|---|
//! | a data-in is held that has all its bytes | it ends |
//! | a data-out is held that is used up | it ends, with all of it |
//! | the task asks | the request is asked |
//! | the task gives, and a data-in is held | at most 4,096 bytes go into it, or it ends where a held data-out left it no room |
//! | the task takes, and a data-out is held | it takes from it |
//! | the task has ended | a held data-in ends, then a held data-out, then a held status takes the unit |
//!
//! All these ends are success, but for a status transfer that is shorter than the unit: it ends by babble, and the unit stays due. A data-in
//! takes at most 524,288 bytes, however long it is. The bytes of a Read that is done go straight into a held data-in that has room for all
//! of them.
//!
//! The packets about the whole device are requests of endpoint 0 (`usb_disk`). One that restarts the disk ends every task and forgets what
//! is kept; a reset does so too; both leave what is held. Streams are all there at any time, so that their packets only forget what is kept.
//! A cancel takes away each transfer that is held under its id; where none is, it loses the answers that are kept under it.
//!
//! What is promised: each call makes of the disk, a record of five parts, what the definition of its name in specs/Calls.antt says, and
//! answers so: [`UsbTags::receive`] is `received`, [`UsbTags::next`] `next_of`, [`UsbTags::answered`] `answered`. What the parts do is in
//! specs/Device.antt, specs/Bulk.antt and specs/Serving.antt; specs/Fixed.antt has what is sent of the disk itself.
//!
//! Two laws over these definitions: each data packet is answered exactly once, under its id, and the answer of a held transfer is that of its
//! place, which then holds none (`each_is_answered_once`, `each_is_owed`).
//!
//! It stands on `uas_tasks` for the tasks, `usb_places` for what is held and kept, `usb_disk` for endpoint 0 and `usbredir` for the packets.
//! [`UsbTags::new`] takes all memory.
#![tactic(auto)]

mod bulk;
mod calls;
mod device;
mod fixed;
mod laws;
mod serving;

use arrayvec::ArrayVec;
pub use fixed::{device_connect, endpoint_info, interface_info};
pub use laws::{each_is_answered_once, each_is_owed};
use uas_profile::STATUS_BYTES;
use uas_tasks::{Request, Tasks};
use usb_disk::{MOST_ANSWER_BYTES, UsbDisk};
use usb_places::Places;
use usbredir::DevicePacket;

/// The data of an answer.
#[derive(Debug, Drop)]
pub enum AnswerData {
    Nothing,
    /// What endpoint 0 answers.
    Control(ArrayVec<u8, MOST_ANSWER_BYTES>),
    /// An information unit.
    Unit(ArrayVec<u8, STATUS_BYTES>),
    /// The bytes that a tag was given, which [`UsbTags::given`] has.
    Given(u16),
}

/// A packet to send: the id in its head, its fields, and its data.
#[derive(Debug, Drop)]
pub struct Answer {
    pub id: u64,
    pub packet: DevicePacket,
    pub body: AnswerData,
}

/// What is to be sent of the last packet, before anything else is done for it.
#[derive(Debug, Drop)]
pub enum Sending {
    Nothing,
    /// This answer.
    Last(Answer),
    /// What endpoints there are, and then this answer.
    Endpoints(Answer),
    /// What interfaces and endpoints there are, and then this answer.
    Interfaces(Answer),
}

/// What is then to be done for it.
#[derive(Clone, Copy, Debug, PartialEq, Eq)]
pub enum Rest {
    Nothing,
    /// The transfers held under this id go.
    Cancels(u64),
    /// A unit came on this tag, which had a task: the transfer that waits for its status learns of it.
    Overlaps(u16),
    /// This tag's task goes on.
    Serves(u16),
}

/// What the session does next.
#[derive(Debug, Drop)]
pub enum Next {
    /// Nothing is to be done for the last packet any more.
    Quiet,
    /// Something moved inside; call again.
    Moved,
    /// Do this request, and answer its number by [`UsbTags::answered`].
    Asks { number: u64, request: Request },
    /// Send this.
    Sends(Answer),
}

/// The disk: what endpoint 0 keeps, the tasks, the transfers that are held and the answers that are kept, and what is left to do for
/// the last packet.
#[derive(Debug, Drop)]
pub struct UsbTags {
    disk: UsbDisk,
    tasks: Tasks,
    places: Places,
    sending: Sending,
    rest: Rest,
}
