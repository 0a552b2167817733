//! A log, saved in a file of its own.
//!
//! [`begin_file`] creates the file of a name, so that a fault of it is told before there is a log; [`save_begun`] writes the log's text
//! (`file_text` in specs/FileText.antt) and closes it, so that the name has the whole text or what it had before. A log of clients of 16
//! tags has a text of the second version, without its refused steps; one of any other number a text of the third, with all of them and its
//! end. The text is never in memory as a whole: its parts wait for the file until there are enough of them, and then go out together.
//!
//! ```text
//!     name, version, units ---> waiting ---+
//!     each step, reply     ---> waiting ---+---> 64 KiB or more: the file
//!     or record            ---> waiting ---+
//! ```
//!
//! What is promised: after an `Ok` the file holds exactly the text of the log, where the host tells what its files hold; after an `Err`
//! every file holds what it held; it is a fault of the file only where the file can fail, and one of the limits only where the third
//! version has no text of the log. It stands on log_text, log_keeper and byte_io.
#![tactic(auto)]

mod pieces;
mod records;
mod saving;

pub use saving::{begin_file, save_begun};
