//! The run `serve`: a file of any length as a disk for any client of NBD, over a reader and a writer.
//!
//! [`run_serve`] greets the client, answers its options, and then its requests in their order ([`transmit`]), each by a
//! [`FileDisk`](file_disk::FileDisk) over the file, of which nothing is read into memory but what a request names.
//!
//! What a request is refused for is specs/Serves.antt, the bytes of the handshake specs/Handshake.antt. What a request is told, and what the
//! file is then, is specs/Filed.antt: a READ that is done is given what the file holds there, a WRITE that is done changes the file just
//! there, and a FLUSH, or a WRITE with FUA, makes safe what it holds. EIO is told only where the file can fail. The bytes that a session
//! reads and writes are specs/Sessions.antt. With status 0 what the file holds in the end is safe; where the file can't fail, that is so
//! whatever ends the session.
//!
//! What a session is that a fault ends is specs/Broken.antt; what it told is a beginning of what it tells, and its requests were done
//! ([`broken_sessions_begin`]). What a fault's cause is, and its line, is specs/Faults.antt.
//!
//! It stands on the disk over a file, on the messages of `nbd`, and on readers and writers.
#![tactic(auto)]

mod fault;
mod handshake;
mod link;
mod messages;
mod serve;
mod transmission;

pub use fault::ServeFault;
pub use serve::{broken_sessions_begin, run_serve};
pub use transmission::{serve_request, transmit};
