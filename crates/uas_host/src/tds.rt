// The TDs of a command and of a task management as TRBs, and their way onto the rings.
ghost use Rattle.std.specs.Prelude.{◌≡◌, ◌+◌, ◌-◌, ◌*◌, ◌<◌, ◌≤◌, ◌^◌, [], ◌∷◌, length, take};
ghost use Rattle.uas_profile.specs.declared.TheConstants.{STREAMS, WINDOW_BYTES};
ghost use Rattle.uas_profile.specs.declared.Direction.{Direction};
ghost use Rattle.xhci_trb.specs.declared.Trb.TheVariants as Trb;
ghost use Rattle.uas_profile.specs.Pipes.{HasStreams};
ghost use Rattle.stream_array.specs.Map.{HasRing, places_of};
ghost use Rattle.stream_array.specs.Rings.{ring_of};
ghost use Rattle.uas_host.specs.Tds.{command_td, data_td, data_trb, data_trb_count, packets_left, pushed_task, put_on, status_td, task_td};
ghost use Rattle.uas_host.specs.Tds.{window_of, with_data_td, HasDataRoom, HasRoom, HasTaskRoom, IsOnData};

use scsi_cmd::Direction;
use stream_array::{Lines, Pipe};
use uas_iu::TASK_BYTES;
use uas_profile::{
    BUFFER_SPAN, CHUNK_BYTES, COMMAND_BUFFERS, COMMAND_BYTES, MOST_DATA_TRBS, STATUS_BUFFERS,
    STATUS_BYTES, WINDOW_SPAN, WINDOWS,
};
use xhci_trb::{Trb, TrbFlags};

/// Bytes of a packet (xHCI 4.11.2.4, TD Size).
const PACKET_BYTES: usize = 1024;

/// The greatest TD Size.
const MOST_PACKETS: usize = 31;

const _: () = prove!(PACKET_BYTES == 1024 && MOST_PACKETS == 31 && TASK_BYTES == 16);

const _: () = prove!(COMMAND_BUFFERS <= STATUS_BUFFERS && COMMAND_BYTES <= STATUS_BYTES);

/// ISP and IOC.
const STATUS_FLAGS: TrbFlags = TrbFlags(TrbFlags::ISP.0 + TrbFlags::IOC.0);

const _: () = prove!(TrbFlags::CH.0 == 8 && TrbFlags::IOC.0 == 16 && STATUS_FLAGS.0 == 18);

/// The TRB of a TD that is the unit in a tag's buffer, of those that begin here.
#[inline(always)]
fn unit_trb(buffers: u64, tag: u16, bytes: usize, flags: TrbFlags) -> [Trb; 1]
    requires buffers { buffers ≤ STATUS_BUFFERS }
    requires bytes { bytes ≤ STATUS_BYTES }
    ensures { result ≡ Trb.Normal (buffers + BUFFER_SPAN * tag) bytes 0 flags ∷ [] }
{
    [Trb::Normal {
        pointer: buffers + BUFFER_SPAN * u64::from(tag),
        length: bytes as u32,
        td_size: 0,
        flags,
    }]
}

/// The TRB of a status TD: room for the longest unit.
fn status_trb(tag: u16) -> [Trb; 1]
    ensures { result ≡ status_td tag }
{
    unit_trb(STATUS_BUFFERS, tag, STATUS_BYTES, STATUS_FLAGS)
}

/// The TRB of a command TD: the Command unit.
fn command_trb(tag: u16) -> [Trb; 1]
    ensures { result ≡ command_td tag }
{
    unit_trb(COMMAND_BUFFERS, tag, COMMAND_BYTES, TrbFlags::IOC)
}

/// The TRB of the command TD of a task management: the Task Management unit.
fn task_trb(tag: u16) -> [Trb; 1]
    ensures { result ≡ task_td tag }
{
    unit_trb(COMMAND_BUFFERS, tag, TASK_BYTES, TrbFlags::IOC)
}

/// How many packets so many bytes make, at most 31.
fn packets(bytes: usize) -> u8
    requires { bytes ≤ WINDOW_BYTES }
    ensures { result ≡ packets_left bytes }
{
    bytes.div_ceil(PACKET_BYTES).min(MOST_PACKETS) as u8
}

/// One TRB of a data TD at this address, with so many bytes of the TD left from it on and so many TRBs
/// behind it.
fn data_trb_at(pointer: u64, left: usize, more: usize) -> Trb
    requires { left ≤ WINDOW_BYTES }
    ensures { result ≡ data_trb pointer left more }
{
    Trb::Normal {
        pointer,
        length: left.min(CHUNK_BYTES) as u32,
        td_size: packets(left.saturating_sub(CHUNK_BYTES)),
        flags: if more == 0 {
            TrbFlags::IOC
        } else {
            TrbFlags::CH
        },
    }
}

/// The address of a tag's window.
fn window_of(tag: u16) -> u64
    requires { tag ≤ STREAMS }
    ensures { result ≡ window_of tag }
{
    WINDOWS + WINDOW_SPAN * u64::from(tag)
}

/// The TRBs of a data TD, in the first places of the array.
fn data_trbs_of(tag: u16, bytes: usize) -> [Trb; MOST_DATA_TRBS]
    requires last_tag { tag ≤ STREAMS }
    requires most { bytes ≤ WINDOW_BYTES }
    ensures { take (data_trb_count bytes) result ≡ data_td tag bytes }
{
    let window = window_of(tag);
    let count = bytes.div_ceil(CHUNK_BYTES);
    let mut trbs = [data_trb_at(window, bytes, 0); MOST_DATA_TRBS];
    for k in 0..count {
        let before = CHUNK_BYTES * k;
        trbs[k] = data_trb_at(window + before as u64, bytes - before, count - 1 - k);
    }
    trbs
}

/// Pushes a data TD of more than one TRB on a pipe. Asks room for its TRBs.
#[inline(never)]
fn push_chunks(lines: &mut Lines, pipe: Pipe, tag: u16, bytes: usize)
    requires ring { HasRing pipe tag }
    requires streams { HasStreams pipe }
    requires last_tag { tag ≤ STREAMS }
    requires some { 0 < bytes }
    requires most { bytes ≤ WINDOW_BYTES }
    requires room { HasRoom lines.old pipe tag (data_trb_count bytes) }
    ensures { lines.new ≡ put_on lines.old pipe tag (data_td tag bytes) }
{
    let trbs = data_trbs_of(tag, bytes);
    let count = bytes.div_ceil(CHUNK_BYTES);
    lines.push_td(pipe, tag, &trbs[..count]).unwrap();
}

/// Pushes a data TD on a pipe. Asks at least one byte and room for its TRBs.
#[inline(always)]
fn push_data(lines: &mut Lines, pipe: Pipe, tag: u16, bytes: usize)
    requires ring { HasRing pipe tag }
    requires streams { HasStreams pipe }
    requires last_tag { tag ≤ STREAMS }
    requires some { 0 < bytes }
    requires most { bytes ≤ WINDOW_BYTES }
    requires room { HasRoom lines.old pipe tag (data_trb_count bytes) }
    ensures { lines.new ≡ put_on lines.old pipe tag (data_td tag bytes) }
{
    if bytes <= CHUNK_BYTES {
        let trb = [data_trb_at(window_of(tag), bytes, 0)];
        lines.push_td(pipe, tag, &trb).unwrap();
    } else {
        push_chunks(lines, pipe, tag, bytes);
    }
}

/// Pushes the data TD on the pipe of its direction, where there is one.
fn push_data_td(lines: &mut Lines, direction: Direction, tag: u16, bytes: usize)
    requires some_tag { 0 < tag }
    requires last_tag { tag ≤ STREAMS }
    requires some { IsOnData direction bytes }
    requires room { HasDataRoom lines.old direction tag bytes }
    ensures put { lines.new ≡ with_data_td lines.old direction tag bytes }
    ensures command { ring_of lines.new Pipe.Command 0 ≡ ring_of lines.old Pipe.Command 0 }
    ensures status { ring_of lines.new Pipe.Status tag ≡ ring_of lines.old Pipe.Status tag }
{
    match direction {
        Direction::Nothing => {}
        Direction::ToHost => push_data(lines, Pipe::DataIn, tag, bytes),
        Direction::ToDevice => push_data(lines, Pipe::DataOut, tag, bytes),
    }
}

/// Pushes the TDs of a command that moves so many bytes this way: data (where bytes move), status, command. Asks room for them.
#[inline(always)]
pub(crate) fn push_tds(lines: &mut Lines, tag: u16, direction: Direction, bytes: usize)
    requires some_tag { 0 < tag }
    requires last_tag { tag ≤ STREAMS }
    requires some { IsOnData direction bytes }
    requires on_data { HasDataRoom lines.old direction tag bytes }
    requires on_status { HasRoom lines.old Pipe.Status tag 1 }
    requires on_command { HasRoom lines.old Pipe.Command 0 1 }
    ensures { lines.new ≡ put_on (put_on (with_data_td lines.old direction tag bytes) Pipe.Status tag (status_td tag)) Pipe.Command 0 (command_td tag) }
{
    push_data_td(lines, direction, tag, bytes);
    lines.push_td(Pipe::Status, tag, &status_trb(tag)).unwrap();
    lines.push_td(Pipe::Command, 0, &command_trb(tag)).unwrap();
}

/// Pushes the TDs of a task management: status, command. Asks room for them.
pub(crate) fn push_task(lines: &mut Lines, tag: u16)
    requires some_tag { 0 < tag }
    requires last_tag { tag ≤ STREAMS }
    requires room { HasTaskRoom lines.old tag }
    ensures { lines.new ≡ pushed_task lines.old tag }
{
    lines.push_td(Pipe::Status, tag, &status_trb(tag)).unwrap();
    lines.push_td(Pipe::Command, 0, &task_trb(tag)).unwrap();
}
