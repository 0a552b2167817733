//! The contexts of a device in a driver's memory, and what the commands on contexts make of them (xHCI 1.2, 4.6 and 6.2).
//!
//! A driver describes what it wants in an *input context*: flags of what is dropped and added, a slot context, and endpoint contexts. The
//! controller answers in the *device context*: the same contexts, with states. Each context has 32 bytes. The device here is a USB Attached
//! SCSI disk behind root hub port 2, with endpoint 0 and four pipes:
//!
//! | Index | Endpoint | Type, bytes a packet |
//! |---|---|---|
//! | 1 | 0 | control, 512 |
//! | 2, 4 | commands, data-out | bulk OUT, 1,024 |
//! | 3, 5 | status, data-in | bulk IN, 1,024 |
//!
//! The rules of 4.6: Address Device takes slot and endpoint 0 of the input, Configure Endpoint drops before it adds, Evaluate Context takes a
//! few fields alone, and Reset Device and Disable Slot disable the pipes. State fields and reserved bits of an input context are ignored.
//! A flag or value that isn't the disk's is bad ([`InputContext::is_bad_address`] and its like); a command tests it before it changes
//! anything.
//!
//! What is promised: reading and writing are `device_at`, `input_at` and `device_written`, and each command is the definition of its name
//! in specs/contexts/Commands.antt, for any bytes in memory. Whether the slot's state lets a command run is its caller's question. It takes
//! no memory.

mod commands;
mod contexts;
mod inputs;

/// The slot context: its first four words (6.2.2).
#[derive(Clone, Copy, Debug, PartialEq, Eq)]
pub struct SlotContext {
    /// Route string, speed, and Context Entries in bits 31:27.
    pub route: u32,
    /// Max Exit Latency 15:0, Root Hub Port Number 23:16.
    pub port: u32,
    /// Interrupter Target 31:22.
    pub target: u32,
    /// USB Device Address 7:0, Slot State 31:27.
    pub state: u32,
}

/// An endpoint context (6.2.3).
#[derive(Clone, Copy, Debug, PartialEq, Eq)]
pub struct EndpointContext {
    /// EP State 2:0, MaxPStreams 14:10, LSA 15.
    pub state: u32,
    /// EP Type 5:3, Max Packet Size 31:16.
    pub kind: u32,
    /// The dequeue pointer with DCS, or the pointer to the stream array.
    pub dequeue: u64,
    /// Average TRB Length.
    pub average: u32,
}

/// A device context, as far as the disk has endpoints.
#[derive(Clone, Copy, Debug, PartialEq, Eq)]
pub struct DeviceContext {
    pub slot: SlotContext,
    pub control: EndpointContext,
    pub command: EndpointContext,
    pub status: EndpointContext,
    pub data_out: EndpointContext,
    pub data_in: EndpointContext,
}

/// An input context: the flags of what is dropped and added, and the contexts (6.2.5).
#[derive(Clone, Copy, Debug, PartialEq, Eq)]
pub struct InputContext {
    pub drops: u32,
    pub adds: u32,
    pub device: DeviceContext,
}

/// The state of a slot that is given out (table 6-7).
#[derive(Clone, Copy, Debug, PartialEq, Eq)]
pub enum SlotState {
    Enabled,
    Default,
    Addressed,
    Configured,
}

/// The state of an endpoint (table 6-8).
#[derive(Clone, Copy, Debug, PartialEq, Eq)]
pub enum EndpointState {
    Disabled,
    Running,
    Halted,
    Stopped,
    Error,
}

/// An endpoint of the disk.
#[derive(Clone, Copy, Debug, PartialEq, Eq)]
pub enum Number {
    ControlPipe,
    CommandPipe,
    StatusPipe,
    DataOutPipe,
    DataInPipe,
}

/// What an endpoint of the disk is.
#[derive(Clone, Copy, Debug, PartialEq, Eq)]
pub enum EndpointKind {
    Control,
    BulkOut,
    BulkIn,
}
