//! The blocks of a pcapng file and the options in them.

ghost use Rattle.std.specs.Prelude.{◌≡◌, ◌+◌, ◌++◌, ◌≤◌, length, OnOk};
ghost use Rattle.capture_run.specs.format.Pcapng.{block, interface, option, packet, section};
ghost use Rattle.capture_run.specs.declared.format.TheConstants.{MOST_COMMENT};

use crate::format::MOST_COMMENT;
use crate::format::fields::{push_long, push_padded, push_short, push_word};
use std::alloc::{AllocError, Global};

/// The kinds of blocks.
const SECTION_HEADER: u32 = 0x0a0d_0d0a;

const INTERFACE: u32 = 1;

const PACKET: u32 = 6;

/// What a section begins with, by which a reader tells that it is little endian.
const BYTE_ORDER: u32 = 0x1a2b_3c4d;

/// The link type of records with usbmon's header of 64 bytes.
const USBMON: u16 = 220;

/// The most bytes of a packet.
const MOST_PACKET: u32 = 262_144;

/// The codes of options.
const END: u16 = 0;

const COMMENT: u16 = 1;

const NAME: u16 = 2;

const RESOLUTION: u16 = 9;

/// The numbers that a word can have.
const WORD: u64 = 1 << 32;

/// Adds a block: its kind, its length, what stands in it, and its length again.
#[tactic(auto, unfolding(crate::specs::format::Pcapng::block))]
fn push_block(bytes: &mut Vec<u8>, kind: u32, body: &[u8]) -> Result<(), AllocError>
    requires { length body.now ≤ 1000000 }
    ensures { OnOk result (bytes.new.items ≡ bytes.old.items ++ block kind body.now) }
{
    let length = body.len() as u32 + 12;
    push_word(bytes, kind)?;
    push_word(bytes, length)?;
    bytes.extend_from_slice(body)?;
    push_word(bytes, length)
}

/// Adds an option: its code, its length, and its value.
#[tactic(auto, unfolding(crate::specs::format::Pcapng::option))]
fn push_option(bytes: &mut Vec<u8>, code: u16, value: &[u8]) -> Result<(), AllocError>
    requires { length value.now ≤ MOST_COMMENT }
    ensures bytes { OnOk result (bytes.new.items ≡ bytes.old.items ++ option code value.now) }
    ensures longer { OnOk result (length bytes.new.items ≤ length bytes.old.items + length value.now + 7) }
{
    push_short(bytes, code)?;
    push_short(bytes, value.len() as u16)?;
    push_padded(bytes, value)
}

/// Adds the section header.
#[tactic(auto, unfolding(crate::specs::format::Pcapng::section))]
pub(crate) fn push_section(alloc: Global, bytes: &mut Vec<u8>) -> Result<(), AllocError>
    ensures { OnOk result (bytes.new.items ≡ bytes.old.items ++ section) }
{
    let mut body = Vec::new(alloc);
    push_word(&mut body, BYTE_ORDER)?;
    push_short(&mut body, 1)?;
    push_short(&mut body, 0)?;
    push_long(&mut body, u64::MAX)?;
    push_block(bytes, SECTION_HEADER, &body)
}

/// Adds the interface.
#[tactic(auto, unfolding(crate::specs::format::Pcapng::interface))]
pub(crate) fn push_interface(alloc: Global, bytes: &mut Vec<u8>) -> Result<(), AllocError>
    ensures { OnOk result (bytes.new.items ≡ bytes.old.items ++ interface) }
{
    let mut body = Vec::new(alloc);
    push_short(&mut body, USBMON)?;
    push_short(&mut body, 0)?;
    push_word(&mut body, MOST_PACKET)?;
    push_option(&mut body, NAME, b"uas0")?;
    push_option(&mut body, RESOLUTION, &[6])?;
    push_option(&mut body, END, b"")?;
    push_block(bytes, INTERFACE, &body)
}

/// Adds a packet with a comment, of a time in microseconds.
#[tactic(auto, unfolding(crate::specs::format::Pcapng::packet))]
pub(crate) fn push_packet(
    alloc: Global,
    bytes: &mut Vec<u8>,
    time: u64,
    payload: &[u8],
    comment: &[u8],
) -> Result<(), AllocError>
    requires payload { length payload.now ≤ 65600 }
    requires comment { length comment.now ≤ MOST_COMMENT }
    ensures { OnOk result (bytes.new.items ≡ bytes.old.items ++ packet time payload.now comment.now) }
{
    let mut body = Vec::new(alloc);
    push_word(&mut body, 0)?;
    push_word(&mut body, (time / WORD) as u32)?;
    push_word(&mut body, (time % WORD) as u32)?;
    push_word(&mut body, payload.len() as u32)?;
    push_word(&mut body, payload.len() as u32)?;
    push_padded(&mut body, payload)?;
    push_option(&mut body, COMMENT, comment)?;
    push_option(&mut body, END, b"")?;
    push_block(bytes, PACKET, &body)
}
