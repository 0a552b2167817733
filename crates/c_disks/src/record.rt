//! What a record says of a logical unit: each field by itself, and then the logical unit of them.
ghost use Rattle.std.specs.Prelude.{◌≡◌, ◌^◌, ◌≤◌, ◌==◌, Some, IsTrue, length};
ghost use Rattle.std.specs.List.{position_or_len};
ghost use Rattle.std.specs.Result.{result_ok};
ghost use Rattle.scsi_cmd.specs.Fields.{is_bit_set};
ghost use Rattle.host_commands.specs.Shapes.{plain_shape, with_disk};
ghost use Rattle.c_disks.specs.Records.{block_bytes_of, block_length_of, disk_asked, disk_of, eui_asked, eui_named, has_block_bytes, has_blocks};
ghost use Rattle.c_disks.specs.Records.{is_eui_size, most_of, naa_asked, naa_named, named_shape, names_of, product_of, revision_of, rotation_asked, serial_asked, shape_asked, shape_said, text_of};
ghost use Rattle.c_disks.specs.Records.{uuid_asked, vendor_of};

use crate::RecordFault;
use crate::fields::{DiskRecord, NAME_BYTES, has_size, is_zero, read};
use host_commands::{
    BlockLength, DiskUnit, Eui, FormFactor, LogicalUnitShape, MOST_BLOCKS, Naa, Product, Revision,
    Rotation, SerialNumber, SerialText, TransferLength, UnitNames, Uuid, Vendor,
};

/// All flags of a record that are taken: a change of a logical unit is always told, so not quiet.
const ALL_FLAGS: u32 = 15;

const _: () = prove!(ALL_FLAGS == 15);

/// How many bytes of a field come before its first 0.
fn text_size(field: &[u8]) -> usize
    ensures size { result ≡ position_or_len (λ byte. byte == 0) field.now }
    ensures most { result ≤ length field.now }
{
    let mut size = 0;
    while size < field.len() {
        if field[size] == 0 {
            return size;
        }
        size += 1;
    }
    size
}

/// The text of a field, which ends before its first 0.
fn text_of(field: &[u8]) -> &[u8]
    ensures { result.now ≡ text_of field.now }
{
    &field[..text_size(field)]
}

fn vendor_of(text: &[u8]) -> Option<Vendor>
    ensures { result ≡ vendor_of text.now }
{
    if text.is_empty() {
        Some(Vendor::usual())
    } else {
        Vendor::of_bytes(text).ok()
    }
}

fn product_of(text: &[u8]) -> Option<Product>
    ensures { result ≡ product_of text.now }
{
    if text.is_empty() {
        Some(Product::usual())
    } else {
        Product::of_bytes(text).ok()
    }
}

fn revision_of(text: &[u8]) -> Option<Revision>
    ensures { result ≡ revision_of text.now }
{
    if text.is_empty() {
        Some(Revision::usual())
    } else {
        Revision::of_bytes(text).ok()
    }
}

fn names_of(disk: &DiskRecord) -> Option<UnitNames>
    ensures { result ≡ names_of disk.now }
{
    let vendor = vendor_of(text_of(&disk.texts.vendor))?;
    let product = product_of(text_of(&disk.texts.product))?;
    let revision = revision_of(text_of(&disk.texts.revision))?;
    Some(UnitNames {
        vendor,
        product,
        revision,
    })
}

fn serial_asked(text: &[u8]) -> Option<Option<SerialText>>
    ensures { result ≡ serial_asked text.now }
{
    if text.is_empty() {
        return Some(None);
    }
    SerialText::of_bytes(text).ok().map(Some)
}

fn naa_named(name: &[u8]) -> Option<Option<Naa>>
    ensures { result ≡ naa_named name.now }
{
    Naa::new(name).ok().map(Some)
}

fn naa_asked(field: &[u8; NAME_BYTES]) -> Option<Option<Naa>>
    ensures { result ≡ naa_asked field.now }
{
    if is_zero(field) {
        return Some(None);
    }
    if field[0] >> 4 == 6 {
        return naa_named(field);
    }
    let (name, behind) = field.split_at(8);
    if is_zero(behind) {
        naa_named(name)
    } else {
        None
    }
}

fn is_eui_size(bytes: u8) -> bool
    ensures size { result ≡ is_eui_size bytes }
    ensures most { IsTrue result → bytes ≤ 16 }
{
    matches!(bytes, 0 | 8 | 12 | 16)
}

fn eui_named(name: &[u8]) -> Option<Option<Eui>>
    ensures { result ≡ eui_named name.now }
{
    if is_zero(name) {
        return Some(None);
    }
    Eui::new(name).ok().map(Some)
}

fn eui_asked(bytes: u8, field: &[u8; NAME_BYTES]) -> Option<Option<Eui>>
    ensures { result ≡ eui_asked bytes field.now }
{
    if !is_eui_size(bytes) {
        return None;
    }
    let (name, behind) = field.split_at(usize::from(bytes));
    if is_zero(behind) {
        eui_named(name)
    } else {
        None
    }
}

fn uuid_asked(field: &[u8; NAME_BYTES]) -> Option<Uuid>
    ensures { result ≡ uuid_asked field.now }
{
    if is_zero(field) {
        None
    } else {
        Some(Uuid { bytes: *field })
    }
}

fn most_of(blocks: u32) -> Option<TransferLength>
    ensures { result ≡ most_of blocks }
{
    if blocks == 0 {
        return Some(DiskUnit::usual().most);
    }
    if blocks > 65_535 {
        return None;
    }
    TransferLength::new(blocks as u16).ok()
}

fn rotation_asked(rate: u16) -> Option<Rotation>
    ensures { result ≡ rotation_asked rate }
{
    if rate == 0 {
        Some(DiskUnit::usual().rotation)
    } else {
        Rotation::new(rate).ok()
    }
}

/// What is said of it, where that can be.
fn disk_of(disk: &DiskRecord) -> Option<DiskUnit>
    ensures { result ≡ disk_of disk.now }
{
    let most = most_of(disk.limits.most)?;
    let rotation = rotation_asked(disk.limits.rotation)?;
    let form = FormFactor::new(disk.limits.form).ok()?;
    let serial = serial_asked(text_of(&disk.texts.serial))?;
    let naa = naa_asked(&disk.world.naa)?;
    let eui = eui_asked(disk.world.eui_bytes, &disk.world.eui)?;
    Some(DiskUnit {
        removable: disk.unit.flags >> 2 & 1 == 1,
        thin: disk.unit.flags >> 1 & 1 == 1,
        write_through: disk.unit.flags >> 3 & 1 == 1,
        quiet: disk.unit.flags >> 4 & 1 == 1,
        physical_bytes: disk.unit.physical_bytes,
        most,
        discard_blocks: disk.limits.discard_blocks,
        rotation,
        form,
        serial,
        naa,
        eui,
        uuid: uuid_asked(&disk.world.uuid),
    })
}

fn block_bytes_of(disk: &DiskRecord) -> u32
    ensures { result ≡ block_bytes_of disk.now }
{
    if disk.unit.block_bytes == 0 {
        512
    } else {
        disk.unit.block_bytes
    }
}

fn has_blocks(disk: &DiskRecord) -> bool
    ensures blocks { result ≡ has_blocks disk.now }
    ensures some { IsTrue result → 1 ≤ disk.now.unit.blocks }
    ensures most { IsTrue result → disk.now.unit.blocks ≤ 2 ^ 48 }
{
    disk.unit.blocks != 0 && disk.unit.blocks <= MOST_BLOCKS
}

fn has_block_bytes(disk: &DiskRecord) -> bool
    ensures { result ≡ has_block_bytes disk.now }
{
    let bytes = block_bytes_of(disk);
    bytes == 512 || bytes == 4096
}

fn block_length(bytes: u32) -> BlockLength
    ensures { result ≡ block_length_of bytes }
{
    if bytes == 4096 {
        BlockLength::Bytes4096
    } else {
        BlockLength::Bytes512
    }
}

fn unit_serial(number: u8) -> Option<SerialNumber>
    ensures { result ≡ Some number }
{
    SerialNumber::new(u32::from(number)).ok()
}

/// The logical unit of a number with its blocks, of which nothing else is said.
fn plain(number: u8, disk: &DiskRecord) -> Option<LogicalUnitShape>
    requires some { 1 ≤ disk.now.unit.blocks }
    requires most { disk.now.unit.blocks ≤ 2 ^ 48 }
    ensures { result ≡ Some (plain_shape disk.now.unit.blocks (block_length_of (block_bytes_of disk.now)) number) }
{
    let serial = unit_serial(number)?;
    LogicalUnitShape::new(disk.unit.blocks, block_length(block_bytes_of(disk)), serial).ok()
}

/// The same, read only or not, with names.
fn named(plain: LogicalUnitShape, flags: u32, names: UnitNames) -> LogicalUnitShape
    ensures { result ≡ record plain { read_only = is_bit_set flags 0; names = names } }
{
    plain
        .read_only(flags & 1 == 1)
        .named(names.vendor, names.product)
        .revised(names.revision)
}

fn named_shape(number: u8, disk: &DiskRecord, names: UnitNames) -> Option<LogicalUnitShape>
    requires some { 1 ≤ disk.now.unit.blocks }
    requires most { disk.now.unit.blocks ≤ 2 ^ 48 }
    ensures { result ≡ Some (named_shape number disk.now names) }
{
    let plain = plain(number, disk)?;
    Some(named(plain, disk.unit.flags, names))
}

/// The logical unit of a number with these names and of which that is said, where that can be.
fn told_shape(
    number: u8,
    disk: &DiskRecord,
    names: UnitNames,
    unit: DiskUnit,
) -> Option<LogicalUnitShape>
    requires some { 1 ≤ disk.now.unit.blocks }
    requires most { disk.now.unit.blocks ≤ 2 ^ 48 }
    ensures { result ≡ result_ok (with_disk (named_shape number disk.now names) unit) }
{
    let shape = named_shape(number, disk, names)?;
    shape.as_disk(unit).ok()
}

/// The logical unit of a number, unless something can't be told of it.
fn shape_said(number: u8, disk: &DiskRecord) -> Option<LogicalUnitShape>
    requires some { 1 ≤ disk.now.unit.blocks }
    requires most { disk.now.unit.blocks ≤ 2 ^ 48 }
    ensures { result ≡ shape_said number disk.now }
{
    if disk.unit.flags > ALL_FLAGS || !is_zero(&disk.world.reserved) {
        return None;
    }
    let names = names_of(disk)?;
    let unit = disk_of(disk)?;
    told_shape(number, disk, names, unit)
}

fn shape_asked(number: u8, disk: &DiskRecord) -> Result<LogicalUnitShape, RecordFault>
    ensures { result ≡ shape_asked number disk.now }
{
    if !has_blocks(disk) {
        Err(RecordFault::Blocks)
    } else if !has_block_bytes(disk) {
        Err(RecordFault::BlockBytes)
    } else {
        match shape_said(number, disk) {
            Some(shape) => Ok(shape),
            None => Err(RecordFault::Field),
        }
    }
}

/// The logical unit of a number of which this is the record, or its first fault.
pub fn disk_asked(number: u8, record: &[u8]) -> Result<LogicalUnitShape, RecordFault>
    ensures { result ≡ disk_asked number record.now }
{
    if !has_size(record) {
        return Err(RecordFault::Size);
    }
    shape_asked(number, &read(record))
}
