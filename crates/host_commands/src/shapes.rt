//! Logical units and command sets, made of numbers that are tested once.
ghost use Rattle.std.specs.Prelude.{◌≡◌, ◌^◌, ◌<◌, ◌≤◌};
ghost use Rattle.host_commands.specs.Shapes.{Shape, block_bytes, host_set, serial_number, shape_of, with_disk};

use crate::{
    BlockLength, CommandSet, DiskFault, DiskUnit, LogicalUnitShape, MOST_BLOCKS, Product, Revision,
    SERIAL_NUMBERS, SerialNumber, ShapeFault, TransferLength, UnitNames, Vendor,
};

impl BlockLength {
    /// How many bytes a block has.
    #[inline(always)]
    pub fn bytes(self) -> u16
        ensures bytes { result ≡ block_bytes self }
        ensures some { 512 ≤ result }
        ensures most { result ≤ 4096 }
    {
        match self {
            BlockLength::Bytes512 => 512,
            BlockLength::Bytes4096 => 4096,
        }
    }
}

impl SerialNumber {
    /// This serial number. Refused with `ShapeFault::SerialNumber` from 100,000,000 on.
    pub fn new(number: u32) -> Result<SerialNumber, ShapeFault>
        ensures { result ≡ serial_number number }
    {
        if number < SERIAL_NUMBERS {
            Ok(SerialNumber { number })
        } else {
            Err(ShapeFault::SerialNumber)
        }
    }

    /// The serial number 0, of a logical unit that isn't there.
    pub(crate) fn zero() -> SerialNumber
        ensures { result ≡ 0 }
    {
        SerialNumber { number: 0 }
    }

    /// The number.
    pub fn number(self) -> u32
        ensures number { result ≡ self }
        ensures digits { result < 100000000 }
    {
        self.number
    }
}

impl LogicalUnitShape {
    /// A logical unit of so many blocks, that may be written and has the usual names. Refused with `NoBlock` for 0 blocks, and with `TooManyBlocks` above 2^48.
    pub fn new(
        blocks: u64,
        block_length: BlockLength,
        serial: SerialNumber,
    ) -> Result<LogicalUnitShape, ShapeFault>
        ensures { result ≡ shape_of blocks block_length serial }
    {
        if blocks == 0 {
            Err(ShapeFault::NoBlock)
        } else if blocks > MOST_BLOCKS {
            Err(ShapeFault::TooManyBlocks)
        } else {
            Ok(LogicalUnitShape {
                blocks,
                block_length,
                serial,
                read_only: false,
                names: UnitNames::usual(),
                disk: DiskUnit::usual(),
            })
        }
    }

    /// The same, read only or not: one that is refuses what changes blocks, and tells so.
    pub fn read_only(self, read_only: bool) -> LogicalUnitShape
        ensures { result ≡ record self { read_only = read_only } }
    {
        LogicalUnitShape { read_only, ..self }
    }

    /// The same, of this vendor and product.
    pub fn named(self, vendor: Vendor, product: Product) -> LogicalUnitShape
        ensures { result ≡ record self { names = record self.names { vendor = vendor; product = product } } }
    {
        let revision = self.names.revision;
        LogicalUnitShape {
            names: UnitNames {
                vendor,
                product,
                revision,
            },
            ..self
        }
    }

    /// The same, of this revision.
    pub fn revised(self, revision: Revision) -> LogicalUnitShape
        ensures { result ≡ record self { names = record self.names { revision = revision } } }
    {
        let UnitNames {
            vendor,
            product,
            ..
        } = self.names;
        LogicalUnitShape {
            names: UnitNames {
                vendor,
                product,
                revision,
            },
            ..self
        }
    }

    /// The same, of which this is said in the disk set. Refused with the first fault of that (`DiskUnit::fault`).
    pub fn as_disk(self, disk: DiskUnit) -> Result<LogicalUnitShape, DiskFault>
        ensures { result ≡ with_disk self disk }
    {
        match disk.fault(self.block_length.bytes()) {
            Some(fault) => Err(fault),
            None => Ok(LogicalUnitShape { disk, ..self }),
        }
    }

    /// How many blocks it has.
    pub fn blocks(&self) -> u64
        ensures blocks { result ≡ self.now.blocks }
        ensures some { 1 ≤ result }
        ensures most { result ≤ 2 ^ 48 }
    {
        self.blocks
    }

    /// How long its blocks are.
    pub fn block_length(&self) -> BlockLength
        ensures { result ≡ self.now.block_length }
    {
        self.block_length
    }

    /// Its serial number.
    pub fn serial(&self) -> SerialNumber
        ensures { result ≡ self.now.serial }
    {
        self.serial
    }

    /// Whether it refuses what changes blocks.
    pub fn is_read_only(&self) -> bool
        ensures { result ≡ self.now.read_only }
    {
        self.read_only
    }

    /// Its vendor, product and revision.
    pub fn names(&self) -> UnitNames
        ensures { result ≡ self.now.names }
    {
        self.names
    }

    /// What is said of it in the disk set.
    pub fn disk(&self) -> &DiskUnit
        ensures { result.now ≡ self.now.disk }
    {
        &self.disk
    }
}

impl CommandSet {
    /// The host set, whose READ and WRITE move at most so many blocks. Refused with `TransferLength` where that is no multiple
    /// of 8 from 8 to 65,528.
    pub fn host(maximum_transfer_blocks: u16) -> Result<CommandSet, ShapeFault>
        ensures { result ≡ host_set maximum_transfer_blocks }
    {
        match TransferLength::new(maximum_transfer_blocks) {
            Ok(maximum) => Ok(CommandSet::Host { maximum }),
            Err(_) => Err(ShapeFault::TransferLength),
        }
    }
}
