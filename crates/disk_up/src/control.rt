//! A control transfer on endpoint 0's ring (xHCI 1.2, 4.11.2.2): alone in its third, its Link behind it.
ghost use Rattle.std.specs.Prelude.{◌≡◌};
ghost use Rattle.byteorder.specs.Endian.{little_bytes};
ghost use Rattle.disk_up.specs.Controls.{behind_completion, event_seen, is_at, last_stored, left_of, link_place, link_to, next_third, send_access, send_after, status_place, trb_in, trb_stored};

use crate::requests::Request;
use bring_up::{Access, Controller, Stored, later, store_in, write_at};
use byteorder::{ByteOrder, LittleEndian};
use host_layout::{Fixed, Layout, Ring, RingPlace};
use host_trbs::{Completion, DataStage, Event, LinkTrb, Words};

/// How a transfer is put.
#[derive(Clone, Copy)]
pub enum Sending {
    /// The whole next third is zeroed.
    Zeros,
    /// The Setup Stage, not yet the controller's; the Data Stage, the Status Stage and the Link.
    Setup,
    Data,
    Status,
    Link,
    /// The Setup Stage's last word, with its Cycle bit.
    Last,
    /// The doorbell of endpoint 0 is rung.
    Bell,
}

/// What an event says of a transfer.
#[derive(Clone, Copy)]
pub enum Seen {
    /// Nothing of it.
    Other,
    /// So many of its bytes came.
    Moved(u16),
    Done,
    /// The device refuses it.
    Stalled,
    Failed,
}

/// The bytes of a third of endpoint 0's ring.
const THIRD_BYTES: u16 = 64;

/// The device context index of endpoint 0.
const CONTROL_ENDPOINT: u8 = 1;

/// Where a TRB of a third stands.
pub(crate) fn trb_in(layout: &Layout, third: u8, place: u8) -> Option<u64>
    ensures { result ≡ trb_in layout.now third place }
{
    layout.trb(RingPlace {
        ring: Ring::Control,
        segment: third,
        place,
    })
}

/// The third behind a third.
pub fn next_third(third: u8) -> u8
    ensures { result ≡ next_third third }
{
    match third {
        0 => 1,
        1 => 2,
        _ => 0,
    }
}

/// Where the Status Stage stands, and the Link behind it.
fn status_place(request: Request) -> u8
    ensures { result ≡ status_place request }
{
    if request.packet().length == 0 { 1 } else { 2 }
}

fn link_place(request: Request) -> u8
    ensures { result ≡ link_place request }
{
    if request.packet().length == 0 { 2 } else { 3 }
}

/// A TRB is stored.
fn trb_stored(at: Option<u64>, words: Words) -> Access
    ensures { result ≡ trb_stored at words }
{
    store_in(at, Stored::Sixteen(words.bytes()))
}

/// The four bytes of a word, low byte first.
fn word_bytes(word: u32) -> [u8; 4]
    ensures { result ≡ little_bytes 4 word }
{
    let mut bytes = [0; 4];
    LittleEndian::write_u32(&mut bytes, word);
    bytes
}

/// The last word of a TRB is stored.
fn last_stored(at: Option<u64>, words: Words) -> Access
    ensures { result ≡ last_stored at words }
{
    match at {
        Some(at) => store_in(Some(later(at, 12)), Stored::Four(word_bytes(words.control))),
        None => Access::Rest(0),
    }
}

/// An access of putting a transfer into a third.
pub(crate) fn send_access(
    c: &Controller,
    layout: &Layout,
    slot: u8,
    third: u8,
    request: Request,
    at: Sending,
) -> Access
    ensures { result ≡ send_access c.now layout.now slot third request at }
{
    let packet = request.packet();
    match at {
        Sending::Zeros => store_in(
            trb_in(layout, next_third(third), 0),
            Stored::Zeros(THIRD_BYTES),
        ),
        Sending::Setup => trb_stored(trb_in(layout, third, 0), packet.words(false)),
        Sending::Data => {
            let stage = DataStage {
                at: layout.fixed(Fixed::Buffer),
                length: packet.length,
                is_in: true,
            };
            trb_stored(trb_in(layout, third, 1), stage.words(true))
        }
        Sending::Status => trb_stored(
            trb_in(layout, third, status_place(request)),
            packet.status_words(true),
        ),
        Sending::Link => trb_stored(
            trb_in(layout, third, link_place(request)),
            link_to(trb_in(layout, next_third(third), 0)).words(true),
        ),
        Sending::Last => last_stored(trb_in(layout, third, 0), packet.words(true)),
        Sending::Bell => write_at(c.doorbell(slot), u32::from(CONTROL_ENDPOINT)),
    }
}

/// The Link to the next third.
fn link_to(at: Option<u64>) -> LinkTrb
    ensures { result ≡ link_to at }
{
    LinkTrb {
        to: match at {
            Some(at) => at,
            None => 0,
        },
        toggles: false,
    }
}

/// What of a transfer is put next; None where its events are awaited.
pub(crate) fn send_after(request: Request, at: Sending) -> Option<Sending>
    ensures { result ≡ send_after request at }
{
    match at {
        Sending::Zeros => Some(Sending::Setup),
        Sending::Setup if request.packet().length == 0 => Some(Sending::Status),
        Sending::Setup => Some(Sending::Data),
        Sending::Data => Some(Sending::Status),
        Sending::Status => Some(Sending::Link),
        Sending::Link => Some(Sending::Last),
        Sending::Last => Some(Sending::Bell),
        Sending::Bell => None,
    }
}

/// What an event says of the transfer in a third.
pub(crate) fn event_seen(layout: &Layout, third: u8, request: Request, event: Event) -> Seen
    ensures { result ≡ event_seen layout.now third request event }
{
    match event {
        Event::Transfer {
            trb,
            residual,
            code,
            endpoint,
            ..
        } if endpoint == CONTROL_ENDPOINT => behind_completion(
            request,
            Completion::of_transfer(code, residual),
            residual,
            is_at(trb_in(layout, third, 1), trb),
            is_at(trb_in(layout, third, status_place(request)), trb),
        ),
        _ => Seen::Other,
    }
}

/// Whether a TRB stands there.
pub fn is_at(place: Option<u64>, trb: u64) -> bool
    ensures { result ≡ is_at place trb }
{
    match place {
        Some(at) => at == trb,
        None => false,
    }
}

/// By completion; and where the TRB is the one behind the Setup Stage, and the Status Stage.
fn behind_completion(
    request: Request,
    completion: Completion,
    residual: u32,
    is_second: bool,
    is_status: bool,
) -> Seen
    ensures { result ≡ behind_completion request completion residual is_second is_status }
{
    match completion {
        Completion::Stall => Seen::Stalled,
        Completion::Transaction | Completion::Failed => Seen::Failed,
        Completion::Success if is_status => Seen::Done,
        Completion::ShortPacket if is_status => Seen::Done,
        Completion::ShortPacket if is_second => Seen::Moved(left_of(request, residual)),
        _ => Seen::Other,
    }
}

/// The bytes that came where so many didn't.
fn left_of(request: Request, residual: u32) -> u16
    ensures { result ≡ left_of request residual }
{
    u32::from(request.packet().length).saturating_sub(residual) as u16
}
