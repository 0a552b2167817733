// The TRB types of control bits 15:10 (xHCI 1.2, 6.4.6).

pub(crate) const NORMAL: u32 = 1;

pub(crate) const LINK: u32 = 6;

pub(crate) const STOP_ENDPOINT: u32 = 15;

pub(crate) const SET_DEQUEUE: u32 = 16;

pub(crate) const TRANSFER_EVENT: u32 = 32;

pub(crate) const COMMAND_EVENT: u32 = 33;
