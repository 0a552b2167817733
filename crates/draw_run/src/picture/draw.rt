//! How a line is drawn: an arrow between lanes or a dot on one, with the line's words.

ghost use Rattle.std.specs.Prelude.{◌≡◌, ◌++◌, ◌<◌, ◌^◌, OnOk};
ghost use Rattle.draw_run.specs.picture.Drawn.{bar, colour_of, drawn_as, ended_bar, is_row, is_step, kind_of, lane_x, row_start, row_text, row_y};
ghost use Rattle.draw_run.specs.picture.Drawn.{rule_if, shape_of, shape_text, width_of, words_text};

use crate::picture::elements::{push_arrow, push_bar_at, push_dot, push_rule_at, push_words_at};
use crate::picture::{Held, Lane, Mark, Point, Shape};
use std::alloc::AllocError;

/// Where a row is, from the top.
#[tactic(auto, unfolding(crate::specs::picture::Drawn::row_y))]
pub(crate) fn row_y(row: u32) -> u64
    ensures place { result ≡ row_y row }
    ensures small { result < 2 ^ 40 }
{
    80 + 20 * u64::from(row)
}

/// How wide a picture of so many clients is.
#[tactic(auto, unfolding(crate::specs::picture::Drawn::width_of))]
pub(crate) fn width_of(clients: u8) -> u64
    ensures { result ≡ width_of clients }
{
    Lane::Device.x(clients) + 80
}

impl Lane {
    /// Where it is, from the left, in a picture of so many clients.
    #[tactic(auto, unfolding(crate::specs::picture::Drawn::lane_x))]
    pub(crate) fn x(self, clients: u8) -> u64
        ensures place { result ≡ lane_x clients self }
        ensures small { result < 2 ^ 20 }
    {
        let host = 56 + 74 * u64::from(clients);
        match self {
            Lane::Client(client) => 40 + 74 * u64::from(client),
            Lane::Host => host,
            Lane::Rings => host + 350,
            Lane::Controller => host + 480,
            Lane::Device => host + 610,
        }
    }
}

impl Mark {
    /// The name of what its row has.
    #[tactic(auto, unfolding(crate::specs::picture::Drawn::kind_of))]
    fn kind(self) -> &'static str
        ensures { result.now ≡ kind_of self }
    {
        match self {
            Mark::Handed(_) => "submit",
            Mark::Told(_) => "reply",
            Mark::Put => "put",
            Mark::Doorbell => "bell",
            Mark::Unit { .. } => "unit",
            Mark::Chunk { .. } => "chunk",
            Mark::Event => "event",
            Mark::Release => "context",
            Mark::Taken(_) | Mark::OfClient(_) | Mark::Hold { .. } | Mark::Heard | Mark::Step => {
                "step"
            }
            Mark::Blank | Mark::Other => "other",
        }
    }

    /// Whether its line is a row: where it has a word.
    #[tactic(auto, unfolding(crate::specs::picture::Drawn::is_row))]
    fn is_row(self) -> bool
        ensures { result ≡ is_row self }
    {
        !matches!(self, Mark::Blank)
    }

    /// Whether it is a step's line.
    #[tactic(auto, unfolding(crate::specs::picture::Drawn::is_step))]
    fn is_step(self) -> bool
        ensures { result ≡ is_step self }
    {
        matches!(
            self,
            Mark::Handed(_)
                | Mark::Taken(_)
                | Mark::OfClient(_)
                | Mark::Hold { .. }
                | Mark::Heard
                | Mark::Step
        )
    }

    /// What its row has: an arrow from who writes to where it is written, or a dot on the lane of who acts.
    #[tactic(auto, unfolding(crate::specs::picture::Drawn::shape_of))]
    pub fn shape(self) -> Shape
        ensures { result ≡ shape_of self }
    {
        let (from, to) = match self {
            Mark::Handed(client) => (Lane::Client(client), Lane::Host),
            Mark::Told(client) => (Lane::Host, Lane::Client(client)),
            Mark::Put => (Lane::Host, Lane::Rings),
            Mark::Doorbell => (Lane::Host, Lane::Controller),
            Mark::Unit { is_hosts: true } => (Lane::Host, Lane::Device),
            Mark::Unit { is_hosts: false } => (Lane::Device, Lane::Host),
            Mark::Chunk { is_in: true } => (Lane::Device, Lane::Rings),
            Mark::Chunk { is_in: false } => (Lane::Rings, Lane::Device),
            Mark::Event => (Lane::Controller, Lane::Host),
            Mark::Release => (Lane::Controller, Lane::Rings),
            Mark::Taken(_) | Mark::Hold { .. } | Mark::Heard => return Shape::Dot(Lane::Host),
            Mark::OfClient(_) | Mark::Step => return Shape::Dot(Lane::Controller),
            Mark::Blank | Mark::Other => return Shape::Nothing,
        };
        Shape::Arrow { from, to }
    }
}

/// Draws a line that stands at a point.
pub(crate) fn push_drawn(
    text: &mut Vec<u8>,
    clients: u8,
    point: Point,
    mark: Mark,
    line: &[u8],
) -> Result<(), AllocError>
    ensures { OnOk result (text.new.items ≡ text.old.items ++ drawn_as clients point mark line.now) }
{
    if mark.is_row() {
        push_row(text, clients, point, mark, line)?;
    }
    Ok(())
}

/// Draws a row, in the colour of the client whose step it is.
#[tactic(auto, unfolding(crate::specs::picture::Drawn::row_text))]
fn push_row(
    text: &mut Vec<u8>,
    clients: u8,
    point: Point,
    mark: Mark,
    line: &[u8],
) -> Result<(), AllocError>
    ensures { OnOk result (text.new.items ≡ text.old.items ++ row_text clients point mark line.now) }
{
    let y = row_y(point.row);
    let here = point.after(mark);
    let shape = mark.shape();
    push_row_start(text, mark.kind(), here.client)?;
    push_rule(text, mark, width_of(clients), y)?;
    push_ended_bar(text, clients, point, here)?;
    push_shape(text, clients, shape, y)?;
    push_words(text, clients, shape, point.row, line)?;
    text.extend_from_slice(b"</g>\n")?;
    Ok(())
}

/// Begins a row of a kind, of a client's step.
#[tactic(auto, unfolding(crate::specs::picture::Drawn::row_start))]
fn push_row_start(text: &mut Vec<u8>, kind: &str, client: Option<u8>) -> Result<(), AllocError>
    ensures { OnOk result (text.new.items ≡ text.old.items ++ row_start kind.now client) }
{
    text.extend_from_slice(b"<g class=\"")?;
    text.extend_from_slice(kind.as_bytes())?;
    text.extend_from_slice(b" ")?;
    push_colour(text, client)?;
    text.extend_from_slice(b"\">")
}

/// Adds the name of a client's colour.
#[tactic(auto, unfolding(crate::specs::picture::Drawn::colour_of))]
pub(crate) fn push_colour(text: &mut Vec<u8>, client: Option<u8>) -> Result<(), AllocError>
    ensures { OnOk result (text.new.items ≡ text.old.items ++ colour_of client) }
{
    match client {
        Some(client) => {
            let colour = format!(in *text.allocator(); "c{client}")?;
            text.extend_from_slice(colour.as_bytes())
        }
        None => text.extend_from_slice(b"none"),
    }
}

/// A thin line above a step.
fn push_rule(text: &mut Vec<u8>, mark: Mark, width: u64, y: u64) -> Result<(), AllocError>
    ensures { OnOk result (text.new.items ≡ text.old.items ++ rule_if mark width y) }
{
    if mark.is_step() {
        push_rule_at(text, width, y.saturating_sub(15))?;
    }
    Ok(())
}

/// The bar of a pipe that is held before a line, and not behind it.
#[tactic(auto, unfolding(crate::specs::picture::Drawn::ended_bar))]
fn push_ended_bar(
    text: &mut Vec<u8>,
    clients: u8,
    before: Point,
    behind: Point,
) -> Result<(), AllocError>
    ensures { OnOk result (text.new.items ≡ text.old.items ++ ended_bar clients before behind) }
{
    match (before.held, behind.held) {
        (Some(held), None) => push_bar(text, clients, held, before.row),
        _ => Ok(()),
    }
}

/// The bar of a pipe that is held up to a row.
#[tactic(auto, unfolding(crate::specs::picture::Drawn::bar))]
pub(crate) fn push_bar(
    text: &mut Vec<u8>,
    clients: u8,
    held: Held,
    row: u32,
) -> Result<(), AllocError>
    ensures { OnOk result (text.new.items ≡ text.old.items ++ bar clients held row) }
{
    let x = Lane::Rings.x(clients).saturating_sub(4);
    let y = row_y(held.since);
    let height = row_y(row).saturating_sub(y);
    push_bar_at(text, x, y, height)?;
    let pipe = held.pipe;
    let name = format!(in *text.allocator(); "<title>pipe {pipe} is held</title></rect>")?;
    text.extend_from_slice(name.as_bytes())
}

/// Draws an arrow or a dot.
#[tactic(auto, unfolding(crate::specs::picture::Drawn::shape_text))]
fn push_shape(text: &mut Vec<u8>, clients: u8, shape: Shape, y: u64) -> Result<(), AllocError>
    ensures { OnOk result (text.new.items ≡ text.old.items ++ shape_text clients shape y) }
{
    match shape {
        Shape::Arrow { from, to } => push_arrow(text, from.x(clients), to.x(clients), y),
        Shape::Dot(lane) => push_dot(text, lane.x(clients), y),
        Shape::Nothing => Ok(()),
    }
}

/// Adds the words of a row: over an arrow from its left end on, or beside a dot.
#[tactic(auto, unfolding(crate::specs::picture::Drawn::words_text))]
fn push_words(
    text: &mut Vec<u8>,
    clients: u8,
    shape: Shape,
    row: u32,
    line: &[u8],
) -> Result<(), AllocError>
    ensures { OnOk result (text.new.items ≡ text.old.items ++ words_text clients shape (row_y row) line.now) }
{
    let y = row_y(row);
    match shape {
        Shape::Arrow { from, to } => {
            let left = from.x(clients).min(to.x(clients)) + 10;
            push_words_at(text, left, y.saturating_sub(5), line)
        }
        Shape::Dot(lane) => push_words_at(text, lane.x(clients) + 8, y + 3, line),
        Shape::Nothing => push_words_at(text, 10, y + 3, line),
    }
}
