//! Where a line stands: its row, whose step it is, and the pipe that is held.

ghost use Rattle.std.specs.Prelude.{◌≡◌};
ghost use Rattle.draw_run.specs.picture.Points.{after, event_heard, event_posted, held_by, released, released_by, start, with_client};

use crate::picture::{Held, Mark, Point};

/// Before the first line.
pub fn start() -> Point
    ensures { result ≡ start }
{
    Point {
        row: 0,
        client: None,
        posted: 0,
        heard: 0,
        held: None,
    }
}

impl Point {
    /// Where the next line stands, behind one of this kind.
    #[tactic(auto, unfolding(crate::specs::picture::Points::after))]
    pub fn after(self, mark: Mark) -> Point
        ensures { result ≡ after self mark }
    {
        match mark {
            Mark::Blank => self,
            Mark::Handed(client)
            | Mark::Taken(client)
            | Mark::OfClient(client)
            | Mark::Told(client) => self.with_client(Some(client)),
            Mark::Hold { pipe, client } => self.held_by(pipe).with_client(Some(client)),
            Mark::Heard => self.event_heard().with_client(None),
            Mark::Step => self.with_client(None),
            Mark::Event => self.event_posted().with_client(self.client),
            Mark::Release => self.released_by().with_client(self.client),
            Mark::Put | Mark::Doorbell | Mark::Unit { .. } | Mark::Chunk { .. } | Mark::Other =>
                self.with_client(self.client),
        }
    }

    /// A row more, of a step of this client.
    #[tactic(auto, unfolding(crate::specs::picture::Points::with_client))]
    fn with_client(self, client: Option<u8>) -> Point
        ensures { result ≡ with_client self client }
    {
        Point {
            row: self.row.saturating_add(1),
            client,
            ..self
        }
    }

    /// A pipe is held.
    #[tactic(auto, unfolding(crate::specs::picture::Points::held_by))]
    fn held_by(self, pipe: u8) -> Point
        ensures { result ≡ held_by self pipe }
    {
        Point {
            held: Some(Held {
                pipe,
                since: self.row,
                until: None,
            }),
            ..self
        }
    }

    /// An event is posted.
    #[tactic(auto, unfolding(crate::specs::picture::Points::event_posted))]
    fn event_posted(self) -> Point
        ensures { result ≡ event_posted self }
    {
        Point {
            posted: self.posted.saturating_add(1),
            ..self
        }
    }

    /// The next event that is posted releases the pipe that is held.
    #[tactic(auto, unfolding(crate::specs::picture::Points::released_by))]
    fn released_by(self) -> Point
        ensures { result ≡ released_by self }
    {
        match self.held {
            Some(held) => Point {
                held: Some(Held {
                    until: Some(self.posted),
                    ..held
                }),
                ..self
            },
            None => self,
        }
    }

    /// The host hears an event.
    #[tactic(auto, unfolding(crate::specs::picture::Points::event_heard))]
    fn event_heard(self) -> Point
        ensures { result ≡ event_heard self }
    {
        Point {
            heard: self.heard.saturating_add(1),
            held: released(self.held, self.heard),
            ..self
        }
    }
}

/// The pipe that is held still, once the event of this number is heard.
#[tactic(auto, unfolding(crate::specs::picture::Points::released))]
fn released(held: Option<Held>, number: u64) -> Option<Held>
    ensures { result ≡ released held number }
{
    match held {
        Some(
            Held {
                until: Some(event),
                ..
            },
        ) if event == number => None,
        _ => held,
    }
}
