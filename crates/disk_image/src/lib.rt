//! Image files, whose bytes are a unit's blocks in their order: made, told, and read and written by one command alone.
//!
//! [`run_make`] writes an image of zeroed blocks and [`run_info`] tells how many blocks one has (specs/Images.antt). [`run_dump`] and
//! [`run_fill`] make a unit of an image and submit one READ or WRITE to it, as the only client of a bus of its own; what they tell, and
//! what the file holds after it, is that command's answer (specs/Alone.antt). With the exit status 0 that answer is a GOOD, and then the
//! lines show the image's own blocks, and the file holds the image with these blocks filled (their clauses `blocks`). When each may give
//! up is specs/Stops.antt. It stands on the bus, on files and writers, on what `uas_replay` makes of a request and of a sense, and on
//! `whole_commands` for what a GOOD means.
#![tactic(auto)]

mod alone;
mod dump;
mod fill;
mod image;
mod make;

pub use dump::run_dump;
pub use fill::run_fill;
pub use image::{MAX_IMAGE_BYTES, blocks_in, read_image, run_info, write_image};
pub use make::run_make;
