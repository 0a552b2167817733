//! The library for C, its part of a device without blocks: `uas_tasks` as a static archive.
//!
//! | File | Exports |
//! |---|---|
//! | cdb.rt | `uas_tasks_cdb_parse`, `uas_tasks_cdb_data` (SPC and SBC) |
//! | making.rt | `uas_tasks_new` |
//! | handle.rt | `uas_tasks_call`, `uas_tasks_close` |
//!
//! What is promised: `uas_tasks_new` answers the first fault of what is asked for (`making_fault` of c_tasks, specs/Making.antt), and at 0
//! has handed out that very device (`made_tasks`), which is the caller's. A call through the door is `after_call` of specs/TasksCall.antt:
//! what it makes of the device, the door and the bytes, for every number of a call. A fault is a number of `c_common::faults`, 0 for none,
//! and a refused call changes nothing.
//!
//! What a caller upholds stands in the head of include/uas.h; nothing here tests it.
//!
//! It takes memory in `uas_tasks_new` alone. It stands on `c_common`, `c_tasks`, `host_commands`, `uas_tasks` and `uas_iu` by their
//! contracts, and needs the C library's memory functions.
#![tactic(auto)]

mod cdb;
mod door;
mod handle;
mod making;
