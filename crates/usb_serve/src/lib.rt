//! A usbredir session: hellos, packets and answers, and how it ends.
//!
//! ```text
//!   guest --hello--> greet; our hello --> guest
//!   what the disk is --> guest
//!   guest --packet--> UsbTags::receive, and UsbTags::next until nothing is left:
//!                       Asks: a request, done at once on the file of its logical unit, and answered
//!                       Sends: an answer, gathered
//!                     what was gathered --> guest, by one write, before the next packet is read; by several where it is more than 131,072
//!                     bytes
//! ```
//!
//! [`run_usb`] lends a disk ([`UsbTags`](usb_tags::UsbTags)) whose blocks are in files ([`UnitFile`]) to a guest. A packet's data are taken
//! where the disk has a use for them, 1,024 bytes of a command and at most 524,288 of a data-out, and dropped otherwise. Requests are done by
//! one thread, in order. When the session ends, all files are synced, but where memory is wanting.
//!
//! What is promised: a session's bytes are specs/Sessions.antt. What was read are the guest's hello and packets (specs/Greeting.antt,
//! specs/Packets.antt); what was written is our hello, what the disk is, and for each packet what the steps of the disk send
//! (specs/Steps.antt, specs/Sending.antt); up to a fault it is a beginning of that. A step is what `usb_tags` says is done next, and a request
//! is answered by what its file holds then (specs/Files.antt): it touches the blocks of its file and nothing else, and once a sync of a file
//! failed none is done. What a fault's cause is, and its line, is specs/Faults.antt.
//!
//! The steps of a packet end by a bound, 2^32 - 1, that no packet reaches; behind it, and behind 2^64 - 1 packets, the session ends by a
//! fault, and only there (`IsEndless`). So does it where an answer says other than how many data it has, and only there (`IsMisstated`);
//! that none does isn't proved.
//!
//! It stands on `usb_tags` for the disk, on the packets of `usbredir`, on `file_disk` for files, and on readers and writers. It takes memory
//! before it greets, and none later.
#![tactic(auto)]

mod fault;
mod files;
mod greeting;
mod link;
mod packets;
mod sending;
mod session;

pub use fault::UsbFault;
pub use files::UnitFile;
pub use greeting::greet;
pub use session::run_usb;
