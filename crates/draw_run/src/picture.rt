//! A trace as a picture: a lane for each client, the host, the rings, the controller and the device, and arrows between them as time
//! runs downwards.
//!
//! A trace is the text that `uas_trace` writes: a line for each step, and below it what the step wrote. [`mark_of`] says of what kind a
//! line is ([`Mark`]). Each line that has a word is a row; at which row it stands, of whose step it is and which pipe is held there is a
//! [`Point`], which the lines before it decide. [`picture`] draws each line at its point, between a head and a foot, as SVG: an arrow
//! from lane to lane or a dot on one, with the line's own words, in the colour of the client whose step it is.
//!
//! What a line is, is specs/picture/Marks.antt, where it stands specs/picture/Points.antt, how it is drawn specs/picture/Drawn.antt (of the
//! elements in specs/picture/Elements.antt), and what is around the rows specs/picture/Frame.antt; so the bytes of a picture are a function
//! of the trace's text, the number of clients and the number of their tags (specs/picture/Picture.antt).
//!
//! It stands on the words of a text and the numbers of the profile; it knows no bus.

mod draw;
mod elements;
mod frame;
mod marking;
mod painter;
mod points;

pub use marking::mark_of;
pub use painter::picture;

/// Of what kind a line of a trace is.
#[derive(Clone, Copy, Debug, PartialEq, Eq)]
pub enum Mark {
    /// It has no word.
    Blank,
    /// A client hands in a command or a task management.
    Handed(u8),
    /// A client takes a reply.
    Taken(u8),
    /// A step of a tag of this client.
    OfClient(u8),
    /// The retirement of the TD of a tag of this client on a pipe begins: the pipe is held.
    Hold { pipe: u8, client: u8 },
    /// The host hears the oldest event that it hasn't heard.
    Heard,
    /// Another step.
    Step,
    /// A TRB was put on a ring.
    Put,
    /// A doorbell was rung.
    Doorbell,
    /// An information unit was written, by the host or by the device.
    Unit { is_hosts: bool },
    /// Bytes were moved, to the host or to the device.
    Chunk { is_in: bool },
    /// An event was posted.
    Event,
    /// The front of a ring was moved: the event behind it releases the pipe that is held.
    Release,
    /// What a client was told.
    Told(u8),
    /// Another line.
    Other,
}

/// Who has a lane.
#[derive(Clone, Copy, Debug, PartialEq, Eq)]
pub enum Lane {
    /// The client of a number.
    Client(u8),
    Host,
    Rings,
    Controller,
    Device,
}

/// What a row has beside its words.
#[derive(Clone, Copy, Debug, PartialEq, Eq)]
pub enum Shape {
    /// An arrow from lane to lane.
    Arrow { from: Lane, to: Lane },
    /// A dot on a lane.
    Dot(Lane),
    /// Its words alone.
    Nothing,
}

/// A pipe that is held.
#[derive(Clone, Copy, Debug, PartialEq, Eq)]
pub struct Held {
    /// Its number.
    pub pipe: u8,
    /// The row of the step by which it is.
    pub since: u32,
    /// The number of the event that releases it, once it is to be posted.
    pub until: Option<u64>,
}

/// Where a line stands.
#[derive(Clone, Copy, Debug, PartialEq, Eq)]
pub struct Point {
    /// How many rows are above it.
    pub row: u32,
    /// The client whose step it is.
    pub client: Option<u8>,
    /// How many events were posted.
    pub posted: u64,
    /// How many events the host heard.
    pub heard: u64,
    /// The pipe that is held.
    pub held: Option<Held>,
}
