//! The library for C, its part that needs no driver: codecs, the device and the controller as a static archive.
//!
//! | File | Exports |
//! |---|---|
//! | trb.rt | `uas_trb_encode`, `uas_trb_decode` (xHCI 1.2, 6.4) |
//! | unit.rt | `uas_unit_read`, `uas_unit_write` (INCITS 471, information units) |
//! | scsi.rt | `uas_cdb_parse`, `uas_cdb_write`, `uas_sense_data`, `uas_inquiry_data`, `uas_capacity_data`, `uas_long_capacity_data` (SPC and SBC) |
//! | device/handle.rt | `uas_device_new`, `uas_device_open`, `uas_device_call`, `uas_device_close` |
//! | controller/handle.rt | `uas_controller_new`, `uas_controller_open`, `uas_controller_call`, `uas_controller_close` |
//!
//! What is promised: each export does what the crate below it does, and its contract says so again, over records in place of
//! enums and numbers in place of faults (specs/; of TRBs, operations and units in `c_common`). A fault is a number of
//! `c_common::faults`, 0 for none, and a refused call changes nothing. What can be tested of a caller's promises is tested: types, fields and
//! lengths, the kind of a call, its phase, tag and blocks. A call of a handle goes through a *door*, a record with the call's number, its
//! arguments and its answers: `after_call` (specs/DeviceCall.antt) and `controller_answer` (specs/ControllerCall.antt) say what it makes of
//! the device or the controller, of the door and of the bytes, exactly. A received information unit is told with the tags whose tasks it
//! ended (`mask_of`).
//!
//! What a caller upholds stands in the head of include/uas.h; nothing here tests it.
//!
//! It takes memory in `new` and `open` and for each loan to a controller. It stands on `c_common`, `xhci_trb`, `uas_iu`, `scsi_cmd`,
//! `uas_target` and `uas_controller`, by their contracts alone, and needs the C library's memory functions. The library `uas_c` has the
//! driver and the bus; the two are linked together or this one alone.
#![tactic(auto)]

mod controller;
mod device;
mod scsi;
mod trb;
mod unit;
