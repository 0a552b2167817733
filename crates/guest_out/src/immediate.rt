//! The bytes of a TRB of an OUT pipe.
ghost use Rattle.std.specs.Prelude.{◌≡◌, ◌+◌, ◌-◌, ◌<◌, ◌≤◌, ◌^◌, ◌++◌, length as list_length, take, drop, Some, None, OnOk, OnErr, option_map, true, false};
ghost use Rattle.guest_memory.specs.Bytes.{bytes_from};
ghost use Rattle.guest_out.specs.Immediate.{bytes_out, immediate_bytes, is_immediate, tallied};

use guest_memory::{GuestMemory, Outside};
use guest_pipes::Progress;
use guest_tags::{Buffer, Gather};

/// Whether the bytes are in the TRB itself (Immediate Data).
pub fn is_immediate(buffer: Buffer) -> bool
    ensures { result ≡ is_immediate buffer }
{
    buffer.flags.idt && buffer.length <= 8
}

/// Gathers so many bytes of the TRB itself.
#[tactic(auto, using(crate::proofs::Drawn::drop_front, crate::proofs::Drawn::immediate_length))]
fn put_immediate(taken: &mut Gather, buffer: Buffer, moved: usize, count: usize)
    requires room { list_length taken.old + count ≤ 4096 }
    requires within { moved + count ≤ 8 }
    ensures taken { taken.new ≡ taken.old ++ immediate_bytes buffer moved count }
{
    let bytes = buffer.pointer.to_le_bytes();
    taken.put(&bytes[moved..moved + count]);
}

/// Gathers so many bytes from an address so far ahead of another on.
#[tactic(auto, using(crate::proofs::Drawn::drawn_bytes, crate::proofs::Drawn::drawn_taken, crate::proofs::Drawn::drawn_length, crate::proofs::Drawn::none_from))]
fn draw_ahead<M: GuestMemory>(
    memory: &M,
    taken: &mut Gather,
    pointer: u64,
    moved: u32,
    count: usize,
) -> Result<(), Outside>
    requires room { list_length taken.old + count ≤ 4096 }
    requires some { 1 ≤ count }
    ensures bytes { OnOk result (bytes_from (M.contents memory.now) (pointer + moved) count ≡ Some (drop (list_length taken.old) taken.new)) }
    ensures taken { OnOk result (taken.new ≡ taken.old ++ drop (list_length taken.old) taken.new) }
    ensures len { OnOk result (list_length (drop (list_length taken.old) taken.new) ≡ count) }
    ensures outside { OnErr result (bytes_from (M.contents memory.now) (pointer + moved) count ≡ None) }
    ensures as_before { OnErr result (taken.new ≡ taken.old) }
{
    match pointer.checked_add(u64::from(moved)) {
        Some(at) => {
            taken.draw(memory, at, count)?;
            Ok(())
        }
        None => Err(Outside),
    }
}

/// Gathers so many bytes of a TRB behind those that were moved. Refused where one of them isn't there, and then nothing changes.
#[tactic(auto, using(crate::proofs::Drawn::drop_front, crate::proofs::Drawn::immediate_length, crate::proofs::Drawn::none_drawn, crate::proofs::Drawn::none_taken, crate::proofs::Drawn::none_length), unfolding(crate::specs::Immediate::bytes_out))]
pub fn draw<M: GuestMemory>(
    memory: &M,
    taken: &mut Gather,
    buffer: Buffer,
    moved: u32,
    count: usize,
) -> Result<(), Outside>
    requires room { list_length taken.old + count ≤ 4096 }
    requires within { moved + count ≤ buffer.length }
    ensures bytes { OnOk result (bytes_out (M.contents memory.now) buffer moved count ≡ Some (drop (list_length taken.old) taken.new)) }
    ensures taken { OnOk result (taken.new ≡ taken.old ++ drop (list_length taken.old) taken.new) }
    ensures len { OnOk result (list_length (drop (list_length taken.old) taken.new) ≡ count) }
    ensures outside { OnErr result (bytes_out (M.contents memory.now) buffer moved count ≡ None) }
    ensures as_before { OnErr result (taken.new ≡ taken.old) }
{
    if is_immediate(buffer) {
        put_immediate(taken, buffer, moved as usize, count);
        return Ok(());
    }
    if count == 0 {
        return Ok(());
    }
    draw_ahead(memory, taken, buffer.pointer, moved, count)
}

/// So many bytes were moved of a TRB whose place in the TD isn't looked at again.
pub(crate) fn tally(progress: Progress, count: u32) -> Progress
    ensures { result ≡ tallied progress count }
{
    Progress {
        moved: progress.moved,
        ending: progress.ending,
        edtla: ((u64::from(progress.edtla) + u64::from(count)) % 16_777_216) as u32,
        begun: true,
        fed: progress.fed,
    }
}
