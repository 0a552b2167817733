//! The disk: reads, writes and flushes of any bytes.

ghost use Rattle.std.specs.Prelude.{◌≡◌, ◌+◌, ◌*◌, ◌/◌, ◌%◌, ◌^◌, ◌<◌, ◌≤◌, length, take, drop, IsTrue, IfOk, OnOk, OnErr, false, true};
ghost use Rattle.file_disk.specs.Written.{written_over};
ghost use Rattle.file_disk.specs.Device.{IsReady};
ghost use Rattle.file_disk.specs.Pieces.{IsPiece};

use crate::device::{COMMAND_BYTES, Device};
use crate::{Blocks, DiskFault};
use std::alloc::{AllocError, Global};
use std::marker::Model;
use uas_profile::BLOCK_BYTES;

/// A disk of blocks of 512 bytes, which are in a file. Contracts see how many blocks it has.
#[derive(Drop)]
pub struct FileDisk {
    device: Device,
}

impl Model for FileDisk {
    ghost use Rattle.std.specs.Prelude.{ℕ};
    ghost use Rattle.file_disk.specs.Device.{IsReady};

    ghost Value = { ℕ };

    ghost view = { λ disk. disk.device.blocks };

    ghost invariant = { λ disk. IsReady disk.device.blocks disk.device.tasks };
}

impl FileDisk {
    /// A disk of 1 to 2^48 blocks. The error is want of memory.
    pub fn new(alloc: Global, blocks: u64) -> Result<FileDisk, AllocError>
        requires some { 1 ≤ blocks }
        requires most { blocks ≤ 2 ^ 48 }
        ensures { IfOk result (λ disk. disk ≡ blocks) }
    {
        let device = Device::new(alloc, blocks)?;
        Ok(FileDisk { device })
    }

    /// How many bytes it has.
    pub fn size(&self) -> u64
        ensures size { result ≡ 512 * self.now }
        ensures most { result ≤ 2 ^ 57 }
    {
        BLOCK_BYTES as u64 * self.device.blocks
    }

    /// Fills `into` with the bytes from byte `offset` on. At a fault `into` says nothing.
    pub fn read<B: Blocks>(
        &mut self,
        file: &B,
        offset: u64,
        into: &mut [u8],
    ) -> Result<(), DiskFault>
        requires fits { offset + length into.old ≤ 512 * self.old }
        requires file { IsTrue (B.tells file.now) → length (B.holds file.now) ≡ 512 * self.old }
        ensures disk { self.new ≡ self.old }
        ensures bytes { OnOk result (IsTrue (B.tells file.now) → into.new ≡ take (length into.new) (drop offset (B.holds file.now))) }
        ensures fault { OnErr result (IsTrue (B.can_fail file.now)) }
    {
        read_all(&mut self.device, file, offset, into)
    }

    /// Writes bytes from byte `offset` on. Until a flush they may not be safe.
    pub fn write<B: Blocks>(
        &mut self,
        file: &mut B,
        offset: u64,
        bytes: &[u8],
    ) -> Result<(), DiskFault>
        requires fits { offset + length bytes.now ≤ 512 * self.old }
        requires file { IsTrue (B.tells file.old) → length (B.holds file.old) ≡ 512 * self.old }
        ensures disk { self.new ≡ self.old }
        ensures bytes { OnOk result (IsTrue (B.tells file.old) → B.holds file.new ≡ written_over (B.holds file.old) offset bytes.now) }
        ensures len { IsTrue (B.tells file.old) → length (B.holds file.new) ≡ length (B.holds file.old) }
        ensures safe { B.synced file.new ≡ B.synced file.old }
        ensures fault { OnErr result (IsTrue (B.can_fail file.old)) }
        ensures told { B.tells file.new ≡ B.tells file.old }
        ensures same { B.can_fail file.new ≡ B.can_fail file.old }
        ensures spoiled { B.is_spoiled file.new ≡ B.is_spoiled file.old }
    {
        write_all(&mut self.device, file, offset, bytes)
    }

    /// Makes safe what the file holds.
    pub fn flush<B: Blocks>(&mut self, file: &mut B) -> Result<(), DiskFault>
        ensures disk { self.new ≡ self.old }
        ensures safe { OnOk result (IsTrue (B.tells file.old) → B.synced file.new ≡ B.holds file.new) }
        ensures kept { OnErr result (IsTrue (B.tells file.old) → B.synced file.new ≡ B.synced file.old) }
        ensures bytes { OnOk result (IsTrue (B.tells file.old) → B.holds file.new ≡ B.holds file.old) }
        ensures len { IsTrue (B.tells file.old) → length (B.holds file.new) ≡ length (B.holds file.old) }
        ensures fault { OnErr result (IsTrue (B.can_fail file.old)) }
        ensures told { B.tells file.new ≡ B.tells file.old }
        ensures same { B.can_fail file.new ≡ B.can_fail file.old }
        ensures sound { OnOk result ((B.is_spoiled file.old ≡ false) × (B.is_spoiled file.new ≡ false)) }
        ensures spoiled { OnErr result (B.is_spoiled file.new ≡ true) }
    {
        self.device.synchronize(file)
    }
}

/// Reads bytes, one command after the other.
fn read_all<B: Blocks>(
    device: &mut Device,
    file: &B,
    offset: u64,
    into: &mut [u8],
) -> Result<(), DiskFault>
    requires ready { IsReady device.old.blocks device.old.tasks }
    requires fits { offset + length into.old ≤ 512 * device.old.blocks }
    requires file { IsTrue (B.tells file.now) → length (B.holds file.now) ≡ 512 * device.old.blocks }
    ensures ready { IsReady device.new.blocks device.new.tasks }
    ensures blocks { device.new.blocks ≡ device.old.blocks }
    ensures bytes { OnOk result (IsTrue (B.tells file.now) → into.new ≡ take (length into.new) (drop offset (B.holds file.now))) }
    ensures fault { OnErr result (IsTrue (B.can_fail file.now)) }
{
    let mut done = 0;
    while done < into.len() {
        let at = offset + done as u64;
        let end = done + piece_bytes(at, into.len() - done);
        read_piece(device, file, at, &mut into[done..end])?;
        done = end;
    }
    Ok(())
}

/// Writes bytes, one command after the other.
fn write_all<B: Blocks>(
    device: &mut Device,
    file: &mut B,
    offset: u64,
    bytes: &[u8],
) -> Result<(), DiskFault>
    requires ready { IsReady device.old.blocks device.old.tasks }
    requires fits { offset + length bytes.now ≤ 512 * device.old.blocks }
    requires file { IsTrue (B.tells file.old) → length (B.holds file.old) ≡ 512 * device.old.blocks }
    ensures ready { IsReady device.new.blocks device.new.tasks }
    ensures blocks { device.new.blocks ≡ device.old.blocks }
    ensures bytes { OnOk result (IsTrue (B.tells file.old) → B.holds file.new ≡ written_over (B.holds file.old) offset bytes.now) }
    ensures len { IsTrue (B.tells file.old) → length (B.holds file.new) ≡ length (B.holds file.old) }
    ensures safe { B.synced file.new ≡ B.synced file.old }
    ensures fault { OnErr result (IsTrue (B.can_fail file.old)) }
    ensures told { B.tells file.new ≡ B.tells file.old }
    ensures same { B.can_fail file.new ≡ B.can_fail file.old }
    ensures spoiled { B.is_spoiled file.new ≡ B.is_spoiled file.old }
{
    let mut done = 0;
    while done < bytes.len() {
        let at = offset + done as u64;
        let end = done + piece_bytes(at, bytes.len() - done);
        write_piece(device, file, at, &bytes[done..end])?;
        done = end;
    }
    Ok(())
}

/// How many of the next bytes one command moves: whole blocks where these begin a block, else those up to the end of the block.
fn piece_bytes(at: u64, left: usize) -> usize
    requires { 0 < left }
    ensures piece { IsPiece at result }
    ensures most { result ≤ left }
{
    let skip = (at % BLOCK_BYTES as u64) as usize;
    if skip == 0 && left >= BLOCK_BYTES {
        (left - left % BLOCK_BYTES).min(COMMAND_BYTES)
    } else {
        left.min(BLOCK_BYTES - skip)
    }
}

/// Reads bytes of one command: whole blocks, or a part of one.
fn read_piece<B: Blocks>(
    device: &mut Device,
    file: &B,
    at: u64,
    into: &mut [u8],
) -> Result<(), DiskFault>
    requires ready { IsReady device.old.blocks device.old.tasks }
    requires piece { IsPiece at (length into.old) }
    requires fits { at + length into.old ≤ 512 * device.old.blocks }
    requires file { IsTrue (B.tells file.now) → length (B.holds file.now) ≡ 512 * device.old.blocks }
    ensures ready { IsReady device.new.blocks device.new.tasks }
    ensures blocks { device.new.blocks ≡ device.old.blocks }
    ensures bytes { OnOk result (IsTrue (B.tells file.now) → into.new ≡ take (length into.new) (drop at (B.holds file.now))) }
    ensures fault { OnErr result (IsTrue (B.can_fail file.now)) }
{
    let block = at / BLOCK_BYTES as u64;
    let skip = (at % BLOCK_BYTES as u64) as usize;
    if skip == 0 && into.len() % BLOCK_BYTES == 0 {
        return device.read(file, block, into);
    }
    let mut whole = [0; BLOCK_BYTES];
    device.read(file, block, &mut whole)?;
    into.copy_from_slice(&whole[skip..skip + into.len()]);
    Ok(())
}

/// Writes bytes of one command: whole blocks, or a part of one, which is read first.
fn write_piece<B: Blocks>(
    device: &mut Device,
    file: &mut B,
    at: u64,
    bytes: &[u8],
) -> Result<(), DiskFault>
    requires ready { IsReady device.old.blocks device.old.tasks }
    requires piece { IsPiece at (length bytes.now) }
    requires fits { at + length bytes.now ≤ 512 * device.old.blocks }
    requires file { IsTrue (B.tells file.old) → length (B.holds file.old) ≡ 512 * device.old.blocks }
    ensures ready { IsReady device.new.blocks device.new.tasks }
    ensures blocks { device.new.blocks ≡ device.old.blocks }
    ensures bytes { OnOk result (IsTrue (B.tells file.old) → B.holds file.new ≡ written_over (B.holds file.old) at bytes.now) }
    ensures len { IsTrue (B.tells file.old) → length (B.holds file.new) ≡ length (B.holds file.old) }
    ensures safe { B.synced file.new ≡ B.synced file.old }
    ensures fault { OnErr result (IsTrue (B.can_fail file.old)) }
    ensures told { B.tells file.new ≡ B.tells file.old }
    ensures same { B.can_fail file.new ≡ B.can_fail file.old }
    ensures spoiled { B.is_spoiled file.new ≡ B.is_spoiled file.old }
{
    let block = at / BLOCK_BYTES as u64;
    let skip = (at % BLOCK_BYTES as u64) as usize;
    if skip == 0 && bytes.len() % BLOCK_BYTES == 0 {
        return device.write(file, block, bytes);
    }
    let mut whole = [0; BLOCK_BYTES];
    device.read(file, block, &mut whole)?;
    whole[skip..skip + bytes.len()].copy_from_slice(bytes);
    device.write(file, block, &whole)
}
