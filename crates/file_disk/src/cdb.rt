//! The CDBs of the disk's commands.

ghost use Rattle.std.specs.Prelude.{◌≡◌, slice_index};
ghost use Rattle.scsi_cmd.specs.Fields.{field_of_eight, field_of_four};
ghost use Rattle.file_disk.specs.Device.{code_of};

/// What a command does with blocks.
#[derive(Clone, Copy, Debug, PartialEq, Eq)]
pub(crate) enum Operation {
    Read,
    Write,
    Synchronize,
}

/// READ(16).
const READ_16: u8 = 0x88;

/// WRITE(16).
const WRITE_16: u8 = 0x8a;

/// SYNCHRONIZE CACHE(16).
const SYNCHRONIZE_CACHE_16: u8 = 0x91;

impl Operation {
    /// Its operation code.
    fn code(self) -> u8
        ensures { result ≡ code_of self }
    {
        match self {
            Operation::Read => READ_16,
            Operation::Write => WRITE_16,
            Operation::Synchronize => SYNCHRONIZE_CACHE_16,
        }
    }
}

/// The CDB of 16 bytes that asks for `count` blocks from `block` on: operation code, flags, block, count, and two zeros.
pub(crate) fn cdb(operation: Operation, block: u64, count: u32) -> [u8; 16]
    ensures code { slice_index result 0 ≡ code_of operation }
    ensures flags { slice_index result 1 ≡ 0 }
    ensures block { field_of_eight result 2 ≡ block }
    ensures count { field_of_four result 10 ≡ count }
{
    let [a, b, c, d] = four_bytes((block >> 32) as u32);
    let [e, f, g, h] = four_bytes((block & 0xffff_ffff) as u32);
    let [i, j, k, l] = four_bytes(count);
    let code = operation.code();
    [code, 0, a, b, c, d, e, f, g, h, i, j, k, l, 0, 0]
}

/// The four bytes of a field, the highest one first.
fn four_bytes(number: u32) -> [u8; 4]
    ensures { field_of_four result 0 ≡ number }
{
    number.to_be_bytes()
}
