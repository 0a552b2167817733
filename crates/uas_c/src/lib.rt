//! The library for C, its part with a driver: the driver and the bus as a static archive beside `uas_device_c`, which has the codecs, the
//! device and the controller.
//!
//! | File | Exports |
//! |---|---|
//! | driver/handle.rt | `uas_driver_new`, `uas_driver_call`, `uas_driver_close` |
//! | bus/handle.rt | `uas_bus_new`, `uas_bus_open`, `uas_bus_call`, `uas_bus_close` |
//!
//! What is promised: each export does what the crate below it does, and its contract says so again, over records in place of enums and
//! numbers in place of faults. A fault is a number of `c_common::faults`, 0 for none, and a refused call changes nothing. What can be
//! tested of a caller's promises is tested: operations and lengths, the kind of a call, the ticket. A call of a handle goes through a
//! *door*, a record with the call's number, its arguments and its answers: `driver_answer` (specs/DriverCall.antt) and `bus_answer`
//! (specs/BusCall.antt) say what it makes of the driver or the bus, of the door and of the bytes, exactly.
//!
//! What a caller upholds stands in the head of include/uas.h; nothing here tests it.
//!
//! It takes memory in `new` and `open` and for the buffer of each submission. It stands on `c_common`, `scsi_cmd`, `uas_driver` and
//! `bus_core`, by their contracts alone, and needs the C library's memory functions.
#![tactic(auto)]

mod bus;
mod client;
mod driver;
