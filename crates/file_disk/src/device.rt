//! The device behind the disk, and one command of it from its beginning to its end.

ghost use Rattle.std.specs.Prelude.{◌≡◌, ◌+◌, ◌*◌, ◌^◌, ◌<◌, ◌≤◌, Some, None, length, take, drop, IsTrue, IfOk, OnOk, OnErr, false, true};
ghost use Rattle.device_server.specs.declared.Answer.{Answer};
ghost use Rattle.device_server.specs.declared.Answer.TheVariants.{Good, Check};
ghost use Rattle.file_disk.specs.Written.{written_over};
ghost use Rattle.scsi_cmd.specs.Sense.{unrecovered_read_error, write_error};
ghost use Rattle.uas_tasks.specs.Machine.{wanted};
ghost use Rattle.uas_tasks.specs.declared.JobKind.TheVariants.{Reads, Writes, Synchronizes};
ghost use Rattle.uas_tasks.specs.declared.Wants.TheVariants.{Ends};
ghost use Rattle.file_disk.specs.Device.{IsAt, IsWholeBlocks, MayAsk, asking, begun, blocks_of, buffer_of, ended, moving, told_of};

use crate::cdb::{Operation, cdb};
use crate::{Blocks, DiskFault};
use arrayvec::ArrayVec;
use byte_io::StreamFault;
use host_commands::{BlockLength, CommandSet, LogicalUnitShape, SerialNumber};
use scsi_cmd::GOOD;
use std::alloc::{AllocError, Global};
use uas_iu::{Iu, lun_bytes, write};
use uas_profile::BLOCK_BYTES;
use uas_tasks::{MOST_CHUNK_BLOCKS, Next, Outcome, Tasks};

/// The tag of every command: one is at work at a time.
const TAG: u16 = 1;

/// The serial number of the logical unit.
const SERIAL: u32 = 1;

/// The most bytes of a command: one chunk of the device.
pub(crate) const COMMAND_BYTES: usize = BLOCK_BYTES * MOST_CHUNK_BLOCKS as usize;

const _: () = prove!(COMMAND_BYTES == 65_536);

/// A device of one logical unit, of so many blocks.
#[derive(Drop)]
pub(crate) struct Device {
    pub(crate) tasks: Tasks,
    pub(crate) blocks: u64,
}

impl Device {
    /// A device of a logical unit of 1 to 2^48 blocks.
    pub(crate) fn new(alloc: Global, blocks: u64) -> Result<Device, AllocError>
        requires some { 1 ≤ blocks }
        requires most { blocks ≤ 2 ^ 48 }
        ensures blocks { IfOk result (λ device. device.blocks ≡ blocks) }
        ensures ready { IfOk result (λ device. IsAt blocks device.tasks None) }
    {
        let Ok(serial) = SerialNumber::new(SERIAL) else {
            unreachable!()
        };
        let Ok(shape) = LogicalUnitShape::new(blocks, BlockLength::Bytes512, serial) else {
            unreachable!()
        };
        let Ok(set) = CommandSet::host(MOST_CHUNK_BLOCKS) else {
            unreachable!()
        };
        let tasks = Tasks::new(alloc, &[shape], set, MOST_CHUNK_BLOCKS)?;
        Ok(Device { tasks, blocks })
    }

    /// Sends a command for `count` blocks from `block` on.
    fn begin(&mut self, operation: Operation, block: u64, count: u32)
        requires ready { IsAt self.old.blocks self.old.tasks None }
        requires may { MayAsk operation self.old.blocks block count }
        ensures blocks { self.new.blocks ≡ self.old.blocks }
        ensures begun { IsAt self.new.blocks self.new.tasks (Some (begun operation self.old.blocks block count)) }
    {
        let mut text = ArrayVec::new();
        let command = Iu::Command {
            tag: TAG,
            lun: lun_bytes(0),
            cdb: cdb(operation, block, count),
        };
        write(&command, &mut text);
        let _ = self.tasks.receive(&text);
    }

    /// Takes the answer of a command that has ended: the fault where it isn't GOOD.
    fn finish(&mut self) -> Result<(), DiskFault>
        requires { wanted self.old.tasks 1 ≡ Ends }
        ensures blocks { self.new.blocks ≡ self.old.blocks }
        ensures ready { (answer : Answer) → IsAt self.old.blocks self.old.tasks (Some (ended answer)) → IsAt self.new.blocks self.new.tasks None }
        ensures told { (answer : Answer) → IsAt self.old.blocks self.old.tasks (Some (ended answer)) → result ≡ told_of answer }
    {
        let answer = self.tasks.status_of(TAG);
        self.tasks.sent(TAG);
        match answer {
            Some(Iu::Sense { status: GOOD, .. }) => Ok(()),
            _ => Err(DiskFault),
        }
    }

    /// Reads blocks, at most 128, from `block` on. At a fault `into` says nothing.
    pub(crate) fn read<B: Blocks>(
        &mut self,
        file: &B,
        block: u64,
        into: &mut [u8],
    ) -> Result<(), DiskFault>
        requires ready { IsAt self.old.blocks self.old.tasks None }
        requires blocks { self.old.blocks ≤ 2 ^ 48 }
        requires whole { IsWholeBlocks into.old }
        requires fits { 512 * block + length into.old ≤ 512 * self.old.blocks }
        requires file { IsTrue (B.tells file.now) → length (B.holds file.now) ≡ 512 * self.old.blocks }
        ensures ready { IsAt self.new.blocks self.new.tasks None }
        ensures blocks { self.new.blocks ≡ self.old.blocks }
        ensures bytes { OnOk result (IsTrue (B.tells file.now)
            → into.new ≡ take (length into.new) (drop (512 * block) (B.holds file.now))) }
        ensures fault { OnErr result (IsTrue (B.can_fail file.now)) }
    {
        self.begin(Operation::Read, block, blocks_in(into));
        match self.read_asked(file, block, into) {
            Ok(()) => {
                self.give(block, into);
                self.finish()
            }
            Err(_) => self.finish(),
        }
    }

    /// Does the Read that the device asks for, which is of these blocks.
    fn read_asked<B: Blocks>(
        &mut self,
        file: &B,
        block: u64,
        into: &mut [u8],
    ) -> Result<(), StreamFault>
        requires asks { IsAt self.old.blocks self.old.tasks (Some (asking Reads block (blocks_of into.old))) }
        requires whole { IsWholeBlocks into.old }
        requires far { 512 * block < 2 ^ 64 }
        requires file { IsTrue (B.tells file.now) → 512 * block + length into.old ≤ length (B.holds file.now) }
        ensures blocks { self.new.blocks ≡ self.old.blocks }
        ensures done { OnOk result (IsAt self.new.blocks self.new.tasks (Some (moving Reads block (blocks_of into.new)))) }
        ensures given { OnOk result (take (length into.new) (buffer_of self.new.tasks) ≡ into.new) }
        ensures bytes { OnOk result (IsTrue (B.tells file.now)
            → into.new ≡ take (length into.new) (drop (512 * block) (B.holds file.now))) }
        ensures failed { OnErr result (IsAt self.new.blocks self.new.tasks (Some (ended (Check unrecovered_read_error)))) }
        ensures fault { OnErr result (IsTrue (B.can_fail file.now)) }
    {
        let Next::Asks { number, .. } = self.tasks.next(TAG) else {
            unreachable!()
        };
        match file.read_at(BLOCK_BYTES as u64 * block, into) {
            Ok(()) => {
                let _ = self.tasks.answered(number, Outcome::Done, into);
                Ok(())
            }
            Err(fault) => {
                let _ = self.tasks.answered(number, Outcome::MediumError, &[]);
                Err(fault)
            }
        }
    }

    /// Gives the client the bytes of a chunk that was read.
    fn give(&mut self, block: u64, into: &mut [u8])
        requires moves { IsAt self.old.blocks self.old.tasks (Some (moving Reads block (blocks_of into.old))) }
        requires whole { IsWholeBlocks into.old }
        ensures blocks { self.new.blocks ≡ self.old.blocks }
        ensures done { IsAt self.new.blocks self.new.tasks (Some (ended Good)) }
        ensures bytes { into.new ≡ take (length into.old) (buffer_of self.old.tasks) }
    {
        self.tasks.give(TAG, into);
    }

    /// Writes blocks, at most 128, from `block` on.
    pub(crate) fn write<B: Blocks>(
        &mut self,
        file: &mut B,
        block: u64,
        bytes: &[u8],
    ) -> Result<(), DiskFault>
        requires ready { IsAt self.old.blocks self.old.tasks None }
        requires blocks { self.old.blocks ≤ 2 ^ 48 }
        requires whole { IsWholeBlocks bytes.now }
        requires fits { 512 * block + length bytes.now ≤ 512 * self.old.blocks }
        requires file { IsTrue (B.tells file.old) → length (B.holds file.old) ≡ 512 * self.old.blocks }
        ensures ready { IsAt self.new.blocks self.new.tasks None }
        ensures blocks { self.new.blocks ≡ self.old.blocks }
        ensures bytes { OnOk result (IsTrue (B.tells file.old) → B.holds file.new ≡ written_over (B.holds file.old) (512 * block) bytes.now) }
        ensures len { IsTrue (B.tells file.old) → length (B.holds file.new) ≡ length (B.holds file.old) }
        ensures safe { B.synced file.new ≡ B.synced file.old }
        ensures fault { OnErr result (IsTrue (B.can_fail file.old)) }
        ensures told { B.tells file.new ≡ B.tells file.old }
        ensures same { B.can_fail file.new ≡ B.can_fail file.old }
        ensures spoiled { B.is_spoiled file.new ≡ B.is_spoiled file.old }
    {
        self.begin(Operation::Write, block, blocks_in(bytes));
        self.fill(block, bytes);
        match self.write_asked(file, block, bytes) {
            Ok(()) => self.finish(),
            Err(_) => self.finish(),
        }
    }

    /// Takes the bytes of a chunk that is to be written.
    fn fill(&mut self, block: u64, bytes: &[u8])
        requires moves { IsAt self.old.blocks self.old.tasks (Some (moving (Writes false) block (blocks_of bytes.now))) }
        requires whole { IsWholeBlocks bytes.now }
        ensures blocks { self.new.blocks ≡ self.old.blocks }
        ensures asks { IsAt self.new.blocks self.new.tasks (Some (asking (Writes false) block (blocks_of bytes.now))) }
        ensures bytes { take (length bytes.now) (buffer_of self.new.tasks) ≡ bytes.now }
    {
        self.tasks.take(TAG, bytes);
    }

    /// Does the Write that the device asks for, which is of these blocks.
    fn write_asked<B: Blocks>(
        &mut self,
        file: &mut B,
        block: u64,
        bytes: &[u8],
    ) -> Result<(), StreamFault>
        requires asks { IsAt self.old.blocks self.old.tasks (Some (asking (Writes false) block (blocks_of bytes.now))) }
        requires taken { take (length bytes.now) (buffer_of self.old.tasks) ≡ bytes.now }
        requires whole { IsWholeBlocks bytes.now }
        requires far { 512 * block < 2 ^ 64 }
        requires file { IsTrue (B.tells file.old) → 512 * block + length bytes.now ≤ length (B.holds file.old) }
        ensures blocks { self.new.blocks ≡ self.old.blocks }
        ensures done { OnOk result (IsAt self.new.blocks self.new.tasks (Some (ended Good))) }
        ensures failed { OnErr result (IsAt self.new.blocks self.new.tasks (Some (ended (Check write_error)))) }
        ensures bytes { OnOk result (IsTrue (B.tells file.old) → B.holds file.new ≡ written_over (B.holds file.old) (512 * block) bytes.now) }
        ensures len { IsTrue (B.tells file.old) → length (B.holds file.new) ≡ length (B.holds file.old) }
        ensures safe { B.synced file.new ≡ B.synced file.old }
        ensures fault { OnErr result (IsTrue (B.can_fail file.old)) }
        ensures told { B.tells file.new ≡ B.tells file.old }
        ensures same { B.can_fail file.new ≡ B.can_fail file.old }
        ensures spoiled { B.is_spoiled file.new ≡ B.is_spoiled file.old }
    {
        let Next::Asks { number, .. } = self.tasks.next(TAG) else {
            unreachable!()
        };
        let Some(asked) = self.tasks.request_bytes(number) else {
            unreachable!()
        };
        match file.write_at(BLOCK_BYTES as u64 * block, asked) {
            Ok(()) => {
                let _ = self.tasks.answered(number, Outcome::Done, &[]);
                Ok(())
            }
            Err(fault) => {
                let _ = self.tasks.answered(number, Outcome::MediumError, &[]);
                Err(fault)
            }
        }
    }

    /// Brings all blocks to the medium: what the file holds is safe.
    pub(crate) fn synchronize<B: Blocks>(&mut self, file: &mut B) -> Result<(), DiskFault>
        requires ready { IsAt self.old.blocks self.old.tasks None }
        requires some { 0 < self.old.blocks }
        ensures ready { IsAt self.new.blocks self.new.tasks None }
        ensures blocks { self.new.blocks ≡ self.old.blocks }
        ensures safe { OnOk result (IsTrue (B.tells file.old) → B.synced file.new ≡ B.holds file.new) }
        ensures kept { OnErr result (IsTrue (B.tells file.old) → B.synced file.new ≡ B.synced file.old) }
        ensures bytes { OnOk result (IsTrue (B.tells file.old) → B.holds file.new ≡ B.holds file.old) }
        ensures len { IsTrue (B.tells file.old) → length (B.holds file.new) ≡ length (B.holds file.old) }
        ensures fault { OnErr result (IsTrue (B.can_fail file.old)) }
        ensures told { B.tells file.new ≡ B.tells file.old }
        ensures same { B.can_fail file.new ≡ B.can_fail file.old }
        ensures sound { OnOk result ((B.is_spoiled file.old ≡ false) × (B.is_spoiled file.new ≡ false)) }
        ensures spoiled { OnErr result (B.is_spoiled file.new ≡ true) }
    {
        self.begin(Operation::Synchronize, 0, 0);
        match self.synchronize_asked(file) {
            Ok(()) => self.finish(),
            Err(_) => self.finish(),
        }
    }

    /// Does the Sync that the device asks for, which is of all blocks.
    fn synchronize_asked<B: Blocks>(&mut self, file: &mut B) -> Result<(), StreamFault>
        requires { IsAt self.old.blocks self.old.tasks (Some (asking Synchronizes 0 self.old.blocks)) }
        ensures blocks { self.new.blocks ≡ self.old.blocks }
        ensures done { OnOk result (IsAt self.new.blocks self.new.tasks (Some (ended Good))) }
        ensures failed { OnErr result (IsAt self.new.blocks self.new.tasks (Some (ended (Check write_error)))) }
        ensures safe { OnOk result (IsTrue (B.tells file.old) → B.synced file.new ≡ B.holds file.new) }
        ensures kept { OnErr result (IsTrue (B.tells file.old) → B.synced file.new ≡ B.synced file.old) }
        ensures bytes { OnOk result (IsTrue (B.tells file.old) → B.holds file.new ≡ B.holds file.old) }
        ensures len { IsTrue (B.tells file.old) → length (B.holds file.new) ≡ length (B.holds file.old) }
        ensures fault { OnErr result (IsTrue (B.can_fail file.old)) }
        ensures told { B.tells file.new ≡ B.tells file.old }
        ensures same { B.can_fail file.new ≡ B.can_fail file.old }
        ensures sound { OnOk result ((B.is_spoiled file.old ≡ false) × (B.is_spoiled file.new ≡ false)) }
        ensures spoiled { OnErr result (B.is_spoiled file.new ≡ true) }
    {
        let Next::Asks { number, .. } = self.tasks.next(TAG) else {
            unreachable!()
        };
        match file.sync() {
            Ok(()) => {
                let _ = self.tasks.answered(number, Outcome::Done, &[]);
                Ok(())
            }
            Err(fault) => {
                let _ = self.tasks.answered(number, Outcome::MediumError, &[]);
                Err(fault)
            }
        }
    }
}

/// How many blocks bytes are.
fn blocks_in(bytes: &[u8]) -> u32
    requires { IsWholeBlocks bytes.now }
    ensures { result ≡ blocks_of bytes.now }
{
    (bytes.len() / BLOCK_BYTES) as u32
}
