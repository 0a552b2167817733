//! The picture of a trace.

ghost use Rattle.std.specs.Prelude.{◌≡◌, ◌++◌, IfOk, OnOk, map};
ghost use Rattle.uas_profile.specs.Tags.{AreTags};
ghost use Rattle.draw_run.specs.picture.Drawn.{drawn};
ghost use Rattle.draw_run.specs.picture.Picture.{after_line, last, picture_of, rows_of};

use crate::picture::draw::push_drawn;
use crate::picture::frame::{push_foot, push_head};
use crate::picture::points::start;
use crate::picture::{Point, mark_of};
use byte_io::pieces;
use std::alloc::{AllocError, Global};

/// The picture of a trace of so many clients with so many tags each.
#[tactic(auto, unfolding(crate::specs::picture::Picture::picture_of))]
pub fn picture(alloc: Global, clients: u8, tags: usize, trace: &[u8]) -> Result<Vec<u8>, AllocError>
    requires { AreTags tags }
    ensures { IfOk result (λ picture. picture.items ≡ picture_of clients tags trace.now) }
{
    let lines = pieces(alloc, trace)?;
    let mut rows = Vec::new(alloc);
    let last = push_rows(&mut rows, clients, tags, &lines)?;
    let mut picture = Vec::new(alloc);
    push_head(&mut picture, clients, last.row)?;
    picture.extend_from_slice(&rows)?;
    push_foot(&mut picture, clients, last)?;
    Ok(picture)
}

/// Draws each line where it stands, and answers where the picture ends.
#[tactic(auto, unfolding(crate::specs::picture::Picture::last, crate::specs::picture::Picture::rows_of))]
fn push_rows(
    text: &mut Vec<u8>,
    clients: u8,
    tags: usize,
    lines: &[&[u8]],
) -> Result<Point, AllocError>
    requires { AreTags tags }
    ensures rows { OnOk result (text.new.items ≡ text.old.items ++ rows_of clients tags (map (λ line. line.now) lines.now)) }
    ensures last { IfOk result (λ point. point ≡ last tags (map (λ line. line.now) lines.now)) }
{
    let mut point = start();
    for line in lines {
        point = push_line(text, clients, tags, point, line)?;
    }
    Ok(point)
}

/// Draws a line where it stands, and answers where the next one stands.
#[tactic(auto, unfolding(crate::specs::picture::Drawn::drawn))]
fn push_line(
    text: &mut Vec<u8>,
    clients: u8,
    tags: usize,
    point: Point,
    line: &[u8],
) -> Result<Point, AllocError>
    requires { AreTags tags }
    ensures row { OnOk result (text.new.items ≡ text.old.items ++ drawn clients tags point line.now) }
    ensures next { IfOk result (λ next. next ≡ after_line tags point line.now) }
{
    let mark = mark_of(*text.allocator(), tags, line)?;
    push_drawn(text, clients, point, mark, line)?;
    Ok(point.after(mark))
}
