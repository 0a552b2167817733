//! The library for C, its part of a driver for any xHCI controller and one UAS disk behind it: `uas_block` as a static archive.
//!
//! | File | Exports |
//! |---|---|
//! | options.rt | `uas_block_quirks` |
//! | making.rt | `uas_block_new` |
//! | handle.rt | `uas_block_call`, `uas_block_put`, `uas_block_close` |
//!
//! What is promised: `uas_block_new` answers the first fault of its options, and at 0 has handed out a driver of those options
//! (specs/Made.antt), which is the caller's. A call through the door is as `Called` of specs/BlockCall.antt says, by its number: what it answers,
//! and what it makes of the driver, the door and the bytes, is the definition of block_driver's call of that name, told in numbers (specs/Told.antt,
//! specs/Numbers.antt). A command is put as `Put` of specs/Puts.antt says. No access that is told is outside the registers or
//! the memory that was lent (`IsWithin`).
//!
//! What a caller upholds stands in the head of include/uas.h; nothing here tests it. It takes memory in `uas_block_new` alone. It stands on
//! `c_common`, `block_driver`, `block_requests`, `bring_up`, `disk_ready`, `disk_requests`, `host_layout` and `arrayvec` by their contracts.
#![tactic(auto)]

mod door;
mod faults;
mod handle;
mod making;
mod numbers;
mod options;
mod puts;
mod told;
