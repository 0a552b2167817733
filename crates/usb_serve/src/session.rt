//! The run `usb`.

ghost use Rattle.std.specs.Prelude.{◌≡◌, ◌≢◌, ◌⊎◌, ℕ, length, map, slice_get, IfErr, IfOk, IfSome, IsTrue, OnErr, OnOk};
ghost use Rattle.usb_serve.specs.Files.{filed};
ghost use Rattle.usb_serve.specs.Rooms.{HasRooms, IsIdle};
ghost use Rattle.usb_serve.specs.Sessions.{Ended, Failed, Fails, ServeBroken, ServedAll, TalkBroken, Talked};
ghost use Rattle.usb_serve.specs.Steps.{Goes, IsAnswered, IsBroken, IsSent, Misstates, StepsFail, Stops, brought_by, world};

use crate::fault::UsbFault;
use crate::files::{MOST_REQUEST_BYTES, UnitFile, do_on, sync_all};
use crate::greeting::greet;
use crate::packets::read_packet;
use crate::sending::{MOST_GATHERED_BYTES, gather_answer, send_disk, send_gathered};
use byte_io::{Output, Source};
use file_disk::Blocks;
use std::alloc::{AllocError, Global};
use uas_tasks::Request;
use usb_places::MOST_TRANSFER_BYTES;
use usb_tags::{Next, UsbTags};

/// The status of a session that the guest ended.
const DONE: u8 = 0;

/// The memory of a session: for a packet's data, for what is sent, and for a request's blocks.
#[derive(Drop)]
pub(crate) struct Rooms {
    bytes: Vec<u8>,
    gathered: Vec<u8>,
    buffer: Vec<u8>,
}

impl Rooms {
    fn new(alloc: Global) -> Result<Rooms, AllocError>
        ensures { IfOk result IsIdle }
    {
        Ok(Rooms {
            bytes: Vec::with_capacity(alloc, MOST_TRANSFER_BYTES)?,
            gathered: Vec::with_capacity(alloc, MOST_GATHERED_BYTES)?,
            buffer: vec![in alloc; 0; MOST_REQUEST_BYTES]?,
        })
    }
}

/// The run `usb`: lends `usb`, whose logical unit k has file k, to the guest at `input` and `output`. When the guest leaves, or a fault
/// ends the session, what the files hold is made safe. It answers the exit status: 0 where the guest left, 4 for want of memory, else 3.
/// A fault has its line on `faults`.
pub fn run_usb<B: Blocks, S: Source, O: Output, F: Output>(
    alloc: Global,
    usb: &mut UsbTags,
    units: &mut [UnitFile<B>],
    input: &mut S,
    output: &mut O,
    faults: &mut F,
) -> u8
    ensures statuses { (result ≡ 0) ⊎ ((result ≡ 3) ⊎ (result ≡ 4)) }
    // What was read are the guest's hello and packets, and what was written is our hello, what the disk is, and what was sent of each packet.
    ensures ended { result ≡ 0 → Ended (world usb.old (map (filed B.tells B.can_fail B.holds B.synced B.is_spoiled) units.old))
        (world usb.new (map (filed B.tells B.can_fail B.holds B.synced B.is_spoiled) units.new))
        (S.left input.old) (S.left input.new) (O.written output.old) (O.written output.new) }
    // What the files hold in the end is safe.
    ensures safe { result ≡ 0 → ((k : ℕ) → IfSome (slice_get units.new k) (λ unit.
        IsTrue (B.tells unit.file) → B.synced unit.file ≡ B.holds unit.file)) }
    // A fault has its cause and its line: what was written is a beginning of that.
    ensures fails { result ≢ 0 → Fails result (S.can_fail input.old) (O.can_fail output.old) (F.can_fail faults.old)
        (world usb.old (map (filed B.tells B.can_fail B.holds B.synced B.is_spoiled) units.old))
        (world usb.new (map (filed B.tells B.can_fail B.holds B.synced B.is_spoiled) units.new))
        (S.left input.old) (S.left input.new) (O.written output.old) (O.written output.new)
        (F.written faults.old) (F.written faults.new) }
    ensures quiet { result ≡ 0 → F.written faults.new ≡ F.written faults.old }
{
    match serve(alloc, usb, units, input, output) {
        Ok(()) => DONE,
        Err(fault) => fault.tell(faults),
    }
}

fn serve<B: Blocks, S: Source, O: Output>(
    alloc: Global,
    usb: &mut UsbTags,
    units: &mut [UnitFile<B>],
    input: &mut S,
    output: &mut O,
) -> Result<(), UsbFault>
    ensures ended { OnOk result (Ended (world usb.old (map (filed B.tells B.can_fail B.holds B.synced B.is_spoiled) units.old))
        (world usb.new (map (filed B.tells B.can_fail B.holds B.synced B.is_spoiled) units.new))
        (S.left input.old) (S.left input.new) (O.written output.old) (O.written output.new)) }
    ensures safe { OnOk result ((k : ℕ) → IfSome (slice_get units.new k) (λ unit.
        IsTrue (B.tells unit.file) → B.synced unit.file ≡ B.holds unit.file)) }
    ensures failed { IfErr result (λ reason. Failed reason (S.can_fail input.old) (O.can_fail output.old)
        (world usb.old (map (filed B.tells B.can_fail B.holds B.synced B.is_spoiled) units.old))
        (world usb.new (map (filed B.tells B.can_fail B.holds B.synced B.is_spoiled) units.new))
        (S.left input.old) (S.left input.new) (O.written output.old) (O.written output.new)) }
{
    let Ok(mut rooms) = Rooms::new(alloc) else {
        return Err(UsbFault::NoMemory);
    };
    let talked = talk(usb, units, &mut rooms, input, output);
    let synced = sync_all(units);
    talked?;
    synced
}

/// Greets the guest, tells what the disk is, and serves packets until the guest leaves.
fn talk<B: Blocks, S: Source, O: Output>(
    usb: &mut UsbTags,
    units: &mut [UnitFile<B>],
    rooms: &mut Rooms,
    input: &mut S,
    output: &mut O,
) -> Result<(), UsbFault>
    requires { IsIdle rooms.old }
    ensures talked { OnOk result (Talked
        (world usb.old (map (filed B.tells B.can_fail B.holds B.synced B.is_spoiled) units.old))
        (world usb.new (map (filed B.tells B.can_fail B.holds B.synced B.is_spoiled) units.new))
        (S.left input.old) (S.left input.new) (O.written output.old) (O.written output.new)) }
    ensures broken { IfErr result (λ reason. TalkBroken reason (S.can_fail input.old) (O.can_fail output.old)
        (world usb.old (map (filed B.tells B.can_fail B.holds B.synced B.is_spoiled) units.old))
        (world usb.new (map (filed B.tells B.can_fail B.holds B.synced B.is_spoiled) units.new))
        (S.left input.old) (S.left input.new) (O.written output.old) (O.written output.new)) }
{
    if !greet(input, output)? {
        return Ok(());
    }
    send_disk(&mut rooms.gathered, output)?;
    serve_packets(usb, units, rooms, input, output)
}

/// Reads packets and serves them, each before the next one is read, until the guest leaves, or a fault ends that.
fn serve_packets<B: Blocks, S: Source, O: Output>(
    usb: &mut UsbTags,
    units: &mut [UnitFile<B>],
    rooms: &mut Rooms,
    input: &mut S,
    output: &mut O,
) -> Result<(), UsbFault>
    requires { IsIdle rooms.old }
    ensures served { OnOk result (ServedAll
        (world usb.old (map (filed B.tells B.can_fail B.holds B.synced B.is_spoiled) units.old))
        (world usb.new (map (filed B.tells B.can_fail B.holds B.synced B.is_spoiled) units.new))
        (S.left input.old) (S.left input.new) (O.written output.old) (O.written output.new)) }
    ensures broken { IfErr result (λ reason. ServeBroken reason (S.can_fail input.old) (O.can_fail output.old)
        (world usb.old (map (filed B.tells B.can_fail B.holds B.synced B.is_spoiled) units.old))
        (world usb.new (map (filed B.tells B.can_fail B.holds B.synced B.is_spoiled) units.new))
        (S.left input.old) (S.left input.new) (O.written output.old) (O.written output.new)) }
{
    for turn in 0..u64::MAX {
        let Some(came) = read_packet(input, &mut rooms.bytes)? else {
            return Ok(());
        };
        usb.receive(came.id, &came.packet, &mut rooms.bytes);
        serve_packet(usb, units, rooms, output)?;
    }
    Err(UsbFault::TooMany)
}

/// Does all that is left to do for a packet, and sends what it caused.
fn serve_packet<B: Blocks, O: Output>(
    usb: &mut UsbTags,
    units: &mut [UnitFile<B>],
    rooms: &mut Rooms,
    output: &mut O,
) -> Result<(), UsbFault>
    requires { IsIdle rooms.old }
    ensures sent { OnOk result (IsSent
        (world usb.old (map (filed B.tells B.can_fail B.holds B.synced B.is_spoiled) units.old))
        (world usb.new (map (filed B.tells B.can_fail B.holds B.synced B.is_spoiled) units.new))
        (O.written output.old) (O.written output.new)) }
    ensures broken { OnErr result (IsBroken
        (world usb.old (map (filed B.tells B.can_fail B.holds B.synced B.is_spoiled) units.old))
        (world usb.new (map (filed B.tells B.can_fail B.holds B.synced B.is_spoiled) units.new))
        (O.written output.old) (O.written output.new)) }
    ensures rooms { OnOk result (IsIdle rooms.new) }
    ensures cause { IfErr result (λ reason. StepsFail reason (O.can_fail output.old)
        (world usb.old (map (filed B.tells B.can_fail B.holds B.synced B.is_spoiled) units.old))
        (world usb.new (map (filed B.tells B.can_fail B.holds B.synced B.is_spoiled) units.new))) }
    ensures same { O.can_fail output.new ≡ O.can_fail output.old }
{
    for turn in 0..u32::MAX {
        if !step(usb, units, rooms, output)? {
            return send_gathered(&mut rooms.gathered, output);
        }
    }
    Err(UsbFault::TooMany)
}

/// Does what the disk does next, and gathers what is sent of it; `false` where nothing is left to do.
fn step<B: Blocks, O: Output>(
    usb: &mut UsbTags,
    units: &mut [UnitFile<B>],
    rooms: &mut Rooms,
    output: &mut O,
) -> Result<bool, UsbFault>
    requires { HasRooms rooms.old }
    ensures goes { IfOk result (λ goes. Goes goes
        (world usb.old (map (filed B.tells B.can_fail B.holds B.synced B.is_spoiled) units.old))
        (world usb.new (map (filed B.tells B.can_fail B.holds B.synced B.is_spoiled) units.new))
        rooms.old.gathered.items rooms.new.gathered.items (O.written output.old) (O.written output.new)) }
    ensures stops { OnErr result (Stops
        (world usb.old (map (filed B.tells B.can_fail B.holds B.synced B.is_spoiled) units.old))
        (world usb.new (map (filed B.tells B.can_fail B.holds B.synced B.is_spoiled) units.new))
        rooms.old.gathered.items (O.written output.old) (O.written output.new)) }
    ensures rooms { HasRooms rooms.new }
    ensures cause { IfErr result (λ reason. ((reason ≡ UsbFault.Stream) × IsTrue (O.can_fail output.old))
        ⊎ ((reason ≡ UsbFault.Answer) × Misstates
        (world usb.old (map (filed B.tells B.can_fail B.holds B.synced B.is_spoiled) units.old))
        (world usb.new (map (filed B.tells B.can_fail B.holds B.synced B.is_spoiled) units.new)))) }
    ensures same { O.can_fail output.new ≡ O.can_fail output.old }
{
    match usb.next() {
        Next::Quiet => return Ok(false),
        Next::Moved => (),
        Next::Asks { number, request } => {
            ask(usb, units, &mut rooms.buffer, number, &request);
        }
        Next::Sends(answer) => gather_answer(usb, &answer, &mut rooms.gathered, output)?,
    }
    Ok(true)
}

/// Does a request on the file of its logical unit, and answers it.
fn ask<B: Blocks>(
    usb: &mut UsbTags,
    units: &mut [UnitFile<B>],
    buffer: &mut [u8],
    number: u64,
    request: &Request,
)
    requires { length buffer.old ≡ MOST_REQUEST_BYTES }
    ensures answered { IsAnswered number request.now
        (world usb.old (map (filed B.tells B.can_fail B.holds B.synced B.is_spoiled) units.old))
        (world usb.new (map (filed B.tells B.can_fail B.holds B.synced B.is_spoiled) units.new)) }
    ensures len { length buffer.new ≡ length buffer.old }
{
    let did = do_on(units, request, brought_by(usb, number), buffer);
    let _ = usb.answered(number, did.outcome, &buffer[..did.given]);
}

/// The bytes that a request brings.
fn brought_by(usb: &UsbTags, number: u64) -> &[u8]
    ensures { result.now ≡ brought_by usb.now number }
{
    match usb.request_bytes(number) {
        Some(bytes) => bytes,
        None => &[],
    }
}
