//! What is around the rows of a picture: its size, what it is, its colours and its lanes.

ghost use Rattle.std.specs.Prelude.{◌≡◌, ◌++◌, OnOk};
ghost use Rattle.draw_run.specs.picture.Frame.{client_lanes, device_lanes, foot, head, lane_line, lane_name, lane_start, lane_text, more_colours, size, style, title};

use crate::picture::draw::{push_bar, push_colour, row_y, width_of};
use crate::picture::elements::{push_attribute, push_text_at};
use crate::picture::{Lane, Point};
use std::alloc::AllocError;
use uas_profile::USUAL_CLIENTS;

/// What a picture shows, for readers who can't see it.
pub const ABOUT: &str =
    "<desc>Lanes from left to right: each client, the host, the rings, the controller, the device. Time runs downwards, a row for each line of the run's trace, with its words. Arrows: a command handed in, client to host; a reply, host to client; a unit, between host and device; a TRB, host to rings; a doorbell, host to controller; a chunk, between device and rings; a context, controller to rings; an event, controller to host. A dot is a step of the host or the controller. A bar on the rings is a pipe that is held.</desc>\n";

/// How texts and lines look.
pub const STYLE: &str = "<style>
text{font-family:monospace;font-size:10px;stroke:none}
.lane text{font-family:sans-serif;font-size:12px;font-weight:bold;text-anchor:middle}
.lane path{stroke:#bbb}
.step text,.submit text{font-weight:bold}
.rule{fill:#e4e4e4;stroke:none}
.held{fill:#f0a000;fill-opacity:.5;stroke:none}
";

/// The colour of each of 15 clients, and of what has none.
pub const COLOURS: &str = ".none{fill:#444;stroke:#444}
.c0{fill:#0b57d0;stroke:#0b57d0}
.c1{fill:#b3261e;stroke:#b3261e}
.c2{fill:#146c2e;stroke:#146c2e}
.c3{fill:#7b1fa2;stroke:#7b1fa2}
.c4{fill:#9a4f00;stroke:#9a4f00}
.c5{fill:#006874;stroke:#006874}
.c6{fill:#ad1457;stroke:#ad1457}
.c7{fill:#4f6300;stroke:#4f6300}
.c8{fill:#4338ca;stroke:#4338ca}
.c9{fill:#7a3b2e;stroke:#7a3b2e}
.c10{fill:#00695c;stroke:#00695c}
.c11{fill:#8e24aa;stroke:#8e24aa}
.c12{fill:#b04400;stroke:#b04400}
.c13{fill:#37517e;stroke:#37517e}
.c14{fill:#7a5f00;stroke:#7a5f00}
";

/// The colours of the clients from 15 on.
pub const MORE_COLOURS: &str = ".c15{fill:#c2185b;stroke:#c2185b}
.c16{fill:#1a4f8b;stroke:#1a4f8b}
.c17{fill:#3f7d20;stroke:#3f7d20}
.c18{fill:#6a1b9a;stroke:#6a1b9a}
.c19{fill:#bf360c;stroke:#bf360c}
.c20{fill:#00737d;stroke:#00737d}
.c21{fill:#880e4f;stroke:#880e4f}
.c22{fill:#6d6a00;stroke:#6d6a00}
.c23{fill:#283593;stroke:#283593}
.c24{fill:#a52a2a;stroke:#a52a2a}
.c25{fill:#1f7a63;stroke:#1f7a63}
.c26{fill:#a100c2;stroke:#a100c2}
.c27{fill:#8a5a00;stroke:#8a5a00}
.c28{fill:#455a64;stroke:#455a64}
.c29{fill:#5d3fd3;stroke:#5d3fd3}
.c30{fill:#1b5e20;stroke:#1b5e20}
";

/// The end of the style, and a white ground.
pub const GROUND: &str = "</style>
<rect width=\"100%\" height=\"100%\" fill=\"#fff\"/>\n";

/// Begins a picture of so many clients and rows.
pub(crate) fn push_head(text: &mut Vec<u8>, clients: u8, rows: u32) -> Result<(), AllocError>
    ensures { OnOk result (text.new.items ≡ text.old.items ++ head clients rows) }
{
    let bottom = row_y(rows);
    push_size(text, width_of(clients), bottom)?;
    push_title(text, clients)?;
    push_style(text, clients)?;
    push_client_lanes(text, clients, bottom)?;
    push_device_lanes(text, clients, bottom)?;
    Ok(())
}

fn push_size(text: &mut Vec<u8>, width: u64, height: u64) -> Result<(), AllocError>
    ensures { OnOk result (text.new.items ≡ text.old.items ++ size width height) }
{
    text.extend_from_slice(b"<svg xmlns=\"http://www.w3.org/2000/svg\" role=\"img\"")?;
    push_attribute(text, "width", width)?;
    push_attribute(text, "height", height)?;
    text.extend_from_slice(b">\n")?;
    Ok(())
}

#[tactic(auto, unfolding(crate::specs::picture::Frame::title))]
fn push_title(text: &mut Vec<u8>, clients: u8) -> Result<(), AllocError>
    ensures { OnOk result (text.new.items ≡ text.old.items ++ title clients) }
{
    let title = format!(in *text.allocator();
        "<title>A run step by step, clients: {clients}</title>\n"
    )?;
    text.extend_from_slice(title.as_bytes())
}

/// Adds what the picture shows, how it looks, and a ground.
fn push_style(text: &mut Vec<u8>, clients: u8) -> Result<(), AllocError>
    ensures { OnOk result (text.new.items ≡ text.old.items ++ style clients) }
{
    text.extend_from_slice(ABOUT.as_bytes())?;
    text.extend_from_slice(STYLE.as_bytes())?;
    text.extend_from_slice(COLOURS.as_bytes())?;
    push_more_colours(text, clients)?;
    text.extend_from_slice(GROUND.as_bytes())?;
    Ok(())
}

/// Adds the colours of the clients from 15 on, where there are so many.
#[tactic(auto, unfolding(crate::specs::picture::Frame::more_colours))]
fn push_more_colours(text: &mut Vec<u8>, clients: u8) -> Result<(), AllocError>
    ensures { OnOk result (text.new.items ≡ text.old.items ++ more_colours clients) }
{
    if usize::from(clients) > USUAL_CLIENTS {
        text.extend_from_slice(MORE_COLOURS.as_bytes())?;
    }
    Ok(())
}

/// Draws the lanes of the clients.
fn push_client_lanes(text: &mut Vec<u8>, clients: u8, bottom: u64) -> Result<(), AllocError>
    ensures { OnOk result (text.new.items ≡ text.old.items ++ client_lanes clients bottom clients) }
{
    for client in 0..clients {
        push_lane(text, clients, bottom, Lane::Client(client))?;
    }
    Ok(())
}

/// Draws the lanes of host, rings, controller and device.
#[tactic(auto, unfolding(crate::specs::picture::Frame::device_lanes))]
fn push_device_lanes(text: &mut Vec<u8>, clients: u8, bottom: u64) -> Result<(), AllocError>
    ensures { OnOk result (text.new.items ≡ text.old.items ++ device_lanes clients bottom) }
{
    push_lane(text, clients, bottom, Lane::Host)?;
    push_lane(text, clients, bottom, Lane::Rings)?;
    push_lane(text, clients, bottom, Lane::Controller)?;
    push_lane(text, clients, bottom, Lane::Device)
}

/// Draws a lane, with its name on top.
#[tactic(auto, unfolding(crate::specs::picture::Frame::lane_text))]
fn push_lane(text: &mut Vec<u8>, clients: u8, bottom: u64, lane: Lane) -> Result<(), AllocError>
    ensures { OnOk result (text.new.items ≡ text.old.items ++ lane_text clients bottom lane) }
{
    let x = lane.x(clients);
    push_lane_start(text, lane)?;
    push_lane_line(text, x, bottom)?;
    push_text_at(text, x, 30)?;
    push_lane_name(text, lane)?;
    text.extend_from_slice(b"</text></g>\n")
}

/// Begins a lane, in the colour of its client.
#[tactic(auto, unfolding(crate::specs::picture::Frame::lane_start))]
fn push_lane_start(text: &mut Vec<u8>, lane: Lane) -> Result<(), AllocError>
    ensures { OnOk result (text.new.items ≡ text.old.items ++ lane_start lane) }
{
    let client = match lane {
        Lane::Client(client) => Some(client),
        Lane::Host | Lane::Rings | Lane::Controller | Lane::Device => None,
    };
    text.extend_from_slice(b"<g class=\"lane ")?;
    push_colour(text, client)?;
    text.extend_from_slice(b"\">")
}

#[tactic(auto, unfolding(crate::specs::picture::Frame::lane_line))]
fn push_lane_line(text: &mut Vec<u8>, x: u64, bottom: u64) -> Result<(), AllocError>
    ensures { OnOk result (text.new.items ≡ text.old.items ++ lane_line x bottom) }
{
    let line = format!(in *text.allocator(); "<path d=\"M{x} 40V{bottom}")?;
    text.extend_from_slice(line.as_bytes())?;
    text.extend_from_slice(b"\"/>")
}

/// Adds the name of a lane.
#[tactic(auto, unfolding(crate::specs::picture::Frame::lane_name))]
fn push_lane_name(text: &mut Vec<u8>, lane: Lane) -> Result<(), AllocError>
    ensures { OnOk result (text.new.items ≡ text.old.items ++ lane_name lane) }
{
    match lane {
        Lane::Client(client) => {
            let name = format!(in *text.allocator(); "client {client}")?;
            text.extend_from_slice(name.as_bytes())
        }
        Lane::Host => text.extend_from_slice(b"host"),
        Lane::Rings => text.extend_from_slice(b"rings"),
        Lane::Controller => text.extend_from_slice(b"controller"),
        Lane::Device => text.extend_from_slice(b"device"),
    }
}

/// Ends a picture: with the bar of the pipe that is held still, if one is.
#[tactic(auto, unfolding(crate::specs::picture::Frame::foot))]
pub(crate) fn push_foot(text: &mut Vec<u8>, clients: u8, point: Point) -> Result<(), AllocError>
    ensures { OnOk result (text.new.items ≡ text.old.items ++ foot clients point) }
{
    if let Some(held) = point.held {
        push_bar(text, clients, held, point.row)?;
    }
    text.extend_from_slice(b"</svg>\n")
}
