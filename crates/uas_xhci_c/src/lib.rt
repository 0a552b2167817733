//! The library for C, its part of an xHCI controller over a caller's memory: `uas_xhci` as a static archive.
//!
//! | File | Exports |
//! |---|---|
//! | making.rt | `uas_xhci_new`, `uas_xhci_new_disks` |
//! | handle.rt | `uas_xhci_call`, `uas_xhci_close` |
//! | turn.rt | `uas_xhci_take_turn` |
//! | wants.rt | `uas_xhci_look` |
//! | saving.rt | `uas_xhci_take_state` |
//! | asking.rt | `uas_xhci_take_asking` |
//!
//! What is promised: `uas_xhci_new` answers the first fault of what is asked for, as `uas_tasks_new` does, and at 0 has handed out a controller
//! after a reset, with that very disk plugged in (specs/Made.antt), which is the caller's. A call through the door is
//! `after_call` of specs/XhciCall.antt: what it makes of the controller, the door and the bytes, for every number of a call, any register
//! access and any bytes. A refused call changes nothing, and REQUEST tells of a request exactly where a tag's is to be asked
//! (specs/CallLaws.antt). `uas_xhci_take_turn` works over up to 64 regions as one memory, whose bytes are those of `held lent_in regions`, as
//! `IsWorked` of xhci_machine has it (`HasWorked`); it answers the first fault of the regions (specs/Regions.antt), and then nothing has changed
//! (specs/Turned.antt). What it tells are the ranges of the writes that made the regions' bytes, in their order and as far as there is room, and
//! whether there were more (`AreTold`). `uas_xhci_look` changes neither controller nor regions, and answers what the next step lacks, as `wanted`
//! of xhci_machine has it (specs/Looked.antt); `uas_xhci_take_asking` does both up to the first step that lacks memory, as its `IsAsked` has it
//! (specs/Asked.antt). That memory is given back, and that there was none where NO_MEMORY is told, is tested.
//!
//! What a caller upholds stands in the head of include/uas.h; nothing here tests it. The memory that a call is lent is written by nobody else
//! while it runs, or what the controller reads of it may be of two moments: each TRB, context and information unit is read once.
//!
//! It takes memory in `uas_xhci_new` and `uas_xhci_new_disks` alone. It stands on `c_common`, `c_tasks` and `xhci_machine` by their contracts.
#![tactic(auto)]

mod asking;
mod door;
mod handle;
mod making;
mod regions;
mod saving;
mod turn;
mod wants;
