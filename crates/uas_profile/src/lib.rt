//! The numbers of the profile, and the words that host, controller and device have in common: how many clients, tags, streams, blocks and places there are, how long units and buffers are, and
//! where in memory rings and buffers lie.
//!
//! Each number stands here once. Every crate above reads it by its name, in code, definitions and proofs, so that another profile
//! is a change of this file alone. The greatest tag of a client ([`GREATEST_TAG`], tags times clients) and the streams that have
//! rings and buffers ([`STREAMS`]) are two numbers: the streams above that tag have no client.
//!
//! ```text
//! client c owns LUN c and the tags TAGS c + 1 to TAGS c + TAGS, the last of them for task management; a tag's stream is the tag
//!
//! 0x1000_0000 + 0x100 t              command buffer of tag t
//! 0x2000_0000 + 0x100 t              status buffer of tag t
//! 0x4000_0000 + 0x100_0000 p + 0x1000 s   ring of pipe p's stream s (0 for the command pipe)
//! 0x5000_0000, 0x6000_0000           the controller's command ring, the event ring
//! 0x1_0000_0000 + 0x1_0000 t         data window of tag t
//! ```
#![tactic(auto)]

mod pipes;
mod states;
mod tags;

pub use pipes::doorbell;
pub use tags::{client_of, most_clients, slot_of, tag_laws, tag_of, task_slot};

/// The fewest tags of a client: one for commands and one for task management.
pub const LEAST_TAGS: usize = 2;

/// The most tags of a client, and so the places of an array by slot: the slots from a machine's number of tags on stay empty.
pub const MOST_TAGS: usize = 16;

/// Tags of a client where nobody says another number: those for commands and one for task management.
pub const TAGS: usize = MOST_TAGS;

/// The slot (index less 1) of the tag for task management; those below it are for commands.
pub const TASK_SLOT: usize = TAGS - 1;

/// The most clients of a bus; with t tags each there are at most 248 div t (`STREAMS`).
pub const MAX_CLIENTS: usize = 31;

/// The most clients of 16 tags (`TAGS`).
pub const USUAL_CLIENTS: usize = 15;

/// The most logical units of a disk that has no bus of its own.
pub const MAX_UNITS: usize = 15;

/// The greatest tag of clients of 16 tags.
pub const GREATEST_TAG: u16 = (TAGS * USUAL_CLIENTS) as u16;

/// Streams that have a ring on each pipe with streams, and tags that have buffers: 1 to this number.
pub const STREAMS: u16 = 248;

const _: () = prove!(GREATEST_TAG <= STREAMS);

/// Entries of a stream array (MaxPStreams 7, xHCI 4.12).
pub const STREAM_ENTRIES: usize = 256;

const _: () = prove!((STREAMS as usize) < STREAM_ENTRIES);

/// Places of a stream's ring, the last a Link.
pub const STREAM_RING_PLACES: usize = 20;

/// Places of the command pipe's ring, the last a Link.
pub const COMMAND_RING_PLACES: usize = 256;

/// Places of the controller's command ring, the last a Link.
pub const ENGINE_RING_PLACES: usize = 16;

/// Places of the event ring's one segment.
pub const EVENT_RING_PLACES: usize = 1024;

/// The most events that the event ring holds.
pub const MOST_EVENTS: usize = EVENT_RING_PLACES - 1;

/// The most messages that can wait in the command pipe's ring at once: one for each tag.
pub const MOST_MESSAGES: usize = STREAMS as usize;

/// The most events that can be pending at once: three for each tag, and one of the controller's commands.
pub const MOST_EVENTS_PENDING: usize = 3 * MOST_MESSAGES + 1;

/// Bytes of a block.
pub const BLOCK_BYTES: usize = 512;

/// The most blocks of a logical unit.
pub const MAX_BLOCKS: u32 = 65_536;

/// The most blocks of one READ or WRITE.
pub const MOST_BLOCKS_MOVED: u16 = 128;

/// The most blocks that move in one step.
pub const CHUNK_BLOCKS: u16 = 8;

/// The most bytes that move in one step, and so the bytes of a data TRB but a TD's last one.
pub const CHUNK_BYTES: usize = CHUNK_BLOCKS as usize * BLOCK_BYTES;

/// Bytes of a Command unit, and of a command buffer.
pub const COMMAND_BYTES: usize = 32;

/// Bytes of a status buffer: the longest unit that a device answers with.
pub const STATUS_BYTES: usize = 112;

/// The most bytes of a lent vector, and so of one transfer.
pub const WINDOW_BYTES: usize = MOST_BLOCKS_MOVED as usize * BLOCK_BYTES;

/// The most TRBs of a data TD.
pub const MOST_DATA_TRBS: usize = WINDOW_BYTES / CHUNK_BYTES;

/// Where the pipes' rings would begin for a pipe 0.
pub const RINGS: u64 = 0x4000_0000;

/// The bytes from one pipe's rings to the next pipe's.
pub const PIPE_SPAN: u64 = 0x0100_0000;

/// The bytes from one stream's ring to the next stream's.
pub const STREAM_SPAN: u64 = 0x1000;

/// Where the controller's command ring begins.
pub const ENGINE_RING: u64 = 0x5000_0000;

/// Where the event ring begins.
pub const EVENT_RING: u64 = 0x6000_0000;

/// Where the command buffer of a tag 0 would begin.
pub const COMMAND_BUFFERS: u64 = 0x1000_0000;

/// Where the status buffer of a tag 0 would begin.
pub const STATUS_BUFFERS: u64 = 0x2000_0000;

/// The bytes from one tag's small buffer to the next tag's.
pub const BUFFER_SPAN: u64 = 0x100;

/// Where the data window of a tag 0 would begin.
pub const WINDOWS: u64 = 0x1_0000_0000;

/// The bytes from one tag's data window to the next tag's.
pub const WINDOW_SPAN: u64 = 0x1_0000;

/// The slot of the device (xHCI 4.5.3).
pub const SLOT: u8 = 1;

/// Endpoint IDs of the four pipes (xHCI 4.5.1): the endpoint of their events, and the target of their doorbells (5.6).
pub const COMMAND_ENDPOINT: u8 = 2;

pub const STATUS_ENDPOINT: u8 = 3;

pub const DATA_OUT_ENDPOINT: u8 = 4;

pub const DATA_IN_ENDPOINT: u8 = 5;

/// Completion codes of events (xHCI 6.4.5).
pub const SUCCESS: u8 = 1;

pub const TRB_ERROR: u8 = 5;

pub const SHORT_PACKET: u8 = 13;

pub const CONTEXT_STATE_ERROR: u8 = 19;

pub const INVALID_STREAM_ID: u8 = 34;

// Each number once more, so that none changes unseen: a change of the profile is a change of its line above and of its line here.
const _: () = prove!(LEAST_TAGS == 2 && MOST_TAGS == 16);

const _: () = prove!(TAGS == 16 && TASK_SLOT == 15 && USUAL_CLIENTS == 15 && GREATEST_TAG == 240);

const _: () = prove!(MAX_CLIENTS == 31 && MAX_UNITS == 15 && STREAMS as usize == 31 * 8);

const _: () = prove!(STREAMS == 248 && STREAM_ENTRIES == 256 && STREAM_RING_PLACES == 20);

const _: () = prove!(
    COMMAND_RING_PLACES == 256 && ENGINE_RING_PLACES == 16 && EVENT_RING_PLACES == 1024
);

const _: () = prove!(MOST_MESSAGES == 248 && MOST_EVENTS_PENDING == 745 && MOST_EVENTS == 1023);

const _: () = prove!(
    MOST_MESSAGES <= COMMAND_RING_PLACES - 2 && MOST_EVENTS_PENDING <= MOST_EVENTS
);

const _: () = prove!(BLOCK_BYTES == 512 && MAX_BLOCKS == 65_536 && MOST_BLOCKS_MOVED == 128);

const _: () = prove!(CHUNK_BLOCKS == 8 && CHUNK_BYTES == 4096);

const _: () = prove!(COMMAND_BYTES == 32 && STATUS_BYTES == 112 && WINDOW_BYTES == 65_536);

const _: () = prove!(MOST_DATA_TRBS == 16 && MOST_DATA_TRBS <= STREAM_RING_PLACES - 2);

const _: () = prove!(RINGS == 0x4000_0000 && PIPE_SPAN == 0x0100_0000 && STREAM_SPAN == 0x1000);

const _: () = prove!(ENGINE_RING == 0x5000_0000 && EVENT_RING == 0x6000_0000);

const _: () = prove!(COMMAND_BUFFERS == 0x1000_0000 && STATUS_BUFFERS == 0x2000_0000);

const _: () = prove!(WINDOWS == 0x1_0000_0000 && WINDOW_SPAN == 0x1_0000 && BUFFER_SPAN == 0x100);

const _: () = prove!(SLOT == 1 && COMMAND_ENDPOINT == 2 && STATUS_ENDPOINT == 3);

const _: () = prove!(DATA_OUT_ENDPOINT == 4 && DATA_IN_ENDPOINT == 5);

const _: () = prove!(SUCCESS == 1 && TRB_ERROR == 5 && SHORT_PACKET == 13);

const _: () = prove!(CONTEXT_STATE_ERROR == 19 && INVALID_STREAM_ID == 34);

/// The four pipes of a UAS interface.
#[derive(Clone, Copy, PartialEq, Eq, Debug)]
pub enum Pipe {
    Command,
    Status,
    DataIn,
    DataOut,
}

/// A pipe with streams: whether its endpoint runs, and which streams were rung since its last stop.
#[derive(Clone, Copy, Debug, PartialEq, Eq)]
pub struct PipeState {
    pub runs: bool,
    pub rung: [bool; STREAM_ENTRIES],
}

/// A client and a slot, the index of a tag less 1.
#[derive(Clone, Copy, Debug, PartialEq, Eq)]
pub struct Place {
    pub client: usize,
    pub slot: usize,
}

/// How far the host is with a TD (xHCI 4.11).
#[derive(Clone, Copy, Debug, PartialEq, Eq)]
pub enum TdState {
    /// The host waits for its event.
    Pending,
    /// The host has seen its event.
    Seen,
    /// Its event can't come any more, and its TRBs may still be on their ring.
    LeftOver,
    /// It was left over, and its TRBs were taken off their ring.
    Retired,
}

/// Which way an operation moves data.
#[derive(Clone, Copy, Debug, PartialEq, Eq)]
pub enum Direction {
    /// No data.
    Nothing,
    /// From the device to the host.
    ToHost,
    /// From the host to the device.
    ToDevice,
}
