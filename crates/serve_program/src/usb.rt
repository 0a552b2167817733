//! The run `usb`: images of the machine as the logical units of a USB disk.

use crate::usb_words::UsbAsked;
use byte_io::{Output, Reader, Writer};
use file_disk::{Blocks, FileAccess, HostBlocks, OpenFault};
use host_commands::{BlockLength, CommandSet, LogicalUnitShape, SerialNumber};
use std::alloc::{AllocError, Global};
use std::io::{BufReader, Write};
use uas_profile::MAX_UNITS;
use uas_replay::{FAULT, RunFault};
use uas_tasks::MOST_CHUNK_BLOCKS;
use usb_disk::UsbStrings;
use usb_places::MOST_TRANSFER_BYTES;
use usb_serve::{UnitFile, run_usb};
use usb_tags::UsbTags;

/// Serial numbers are below this number.
const SERIAL_NUMBERS: u64 = 100_000_000;

/// The numbers of file systems, which are near to each other, are put so far apart.
const FILE_SYSTEM_STEP: u64 = 1_000_003;

/// So many bytes of the guest's packets are read ahead: the heads and fields of some forty. Longer data are read into their place.
const AHEAD_BYTES: usize = 4096;

/// Why an image isn't served.
#[derive(Clone, Copy, Debug, PartialEq, Eq)]
enum ImageFault {
    File,
    /// Another program has it, or another image of this one has its serial number, as the same file would.
    Locked,
    NotWhole,
    TooLarge,
}

impl ImageFault {
    /// What its line says.
    fn text(self) -> &'static str {
        match self {
            ImageFault::File => "file",
            ImageFault::Locked => "locked",
            ImageFault::NotWhole => "NotWhole",
            ImageFault::TooLarge => "TooLarge",
        }
    }
}

/// An image that is opened, and the logical unit that it is.
#[derive(Drop)]
struct Image {
    file: HostBlocks,
    shape: LogicalUnitShape,
}

/// The images that are opened, and the logical units that they are.
#[derive(Drop)]
struct Images {
    files: Vec<UnitFile<HostBlocks>>,
    shapes: Vec<LogicalUnitShape>,
}

/// Serves the images that are asked for, and answers the exit status.
pub fn serve_usb<O: Output>(rt: &HostRuntime, asked: &UsbAsked, output: &mut O) -> u8 {
    let Ok(mut images) = no_images(rt.alloc()) else {
        return RunFault::NoMemory.tell(&mut rt.stderr());
    };
    for (number, name) in asked.files.iter().enumerate() {
        match opened(rt, asked, number, name, &images.shapes) {
            Ok(Image { file, shape }) => {
                let block_length = asked.block_length;
                let _ = images.files.push(UnitFile { file, block_length });
                let _ = images.shapes.push(shape);
            }
            Err(fault) => {
                tell(number, fault, &mut rt.stderr());
                return FAULT;
            }
        }
    }
    let Some(mut usb) = disk_of(rt.alloc(), asked, &images.shapes) else {
        return RunFault::NoMemory.tell(&mut rt.stderr());
    };
    let Ok(input) = BufReader::with_capacity(rt.alloc(), AHEAD_BYTES, rt.reader()) else {
        return RunFault::NoMemory.tell(&mut rt.stderr());
    };
    run_usb(
        rt.alloc(),
        &mut usb,
        &mut images.files,
        &mut Reader(input),
        output,
        &mut Writer(rt.stderr()),
    )
}

/// Room for as many images as can be asked for.
fn no_images(alloc: Global) -> Result<Images, AllocError> {
    Ok(Images {
        files: Vec::with_capacity(alloc, MAX_UNITS)?,
        shapes: Vec::with_capacity(alloc, MAX_UNITS)?,
    })
}

/// The disk of these logical units; none for want of memory.
fn disk_of(alloc: Global, asked: &UsbAsked, shapes: &[LogicalUnitShape]) -> Option<UsbTags> {
    let blocks = MOST_TRANSFER_BYTES as u32 / u32::from(asked.block_length.bytes());
    let Ok(set) = CommandSet::host(blocks as u16) else {
        unreachable!()
    };
    let serial = shapes.first().map_or(0, |first| first.serial().number());
    let strings = UsbStrings {
        manufacturer: asked.vendor.bytes(),
        product: asked.product.bytes(),
        serial: eight_digits(serial),
    };
    let chunk = match asked.block_length {
        BlockLength::Bytes512 => MOST_CHUNK_BLOCKS,
        BlockLength::Bytes4096 => MOST_CHUNK_BLOCKS / 8,
    };
    if shapes.len() > MAX_UNITS {
        return None;
    }
    UsbTags::new(alloc, shapes, set, strings, chunk).ok()
}

/// A number below 100,000,000 in eight digits.
fn eight_digits(number: u32) -> [u8; 8] {
    let mut digits = [b'0'; 8];
    let mut left = number;
    for digit in digits.iter_mut().rev() {
        *digit = b'0' + (left % 10) as u8;
        left /= 10;
    }
    digits
}

/// The line of a fault: the first image has no number.
fn tell<W: Write>(number: usize, fault: ImageFault, faults: &mut W) {
    let text = fault.text();
    // a fault of standard error changes nothing
    let _ = match number {
        0 => writeln!(faults, "image: {text}"),
        _ => writeln!(faults, "image {}: {text}", number.wrapping_add(1)),
    };
}

/// The image of a number, with its lock; none that a host would take for one of the others.
fn opened(
    rt: &HostRuntime,
    asked: &UsbAsked,
    number: usize,
    name: &str,
    others: &[LogicalUnitShape],
) -> Result<Image, ImageFault> {
    let access = if asked.read_only {
        FileAccess::Read
    } else {
        FileAccess::Write
    };
    let file = match HostBlocks::open_locked(rt, name, access, bad_sector(asked)) {
        Ok(file) => file,
        Err(OpenFault::File) => return Err(ImageFault::File),
        Err(OpenFault::Locked) => return Err(ImageFault::Locked),
    };
    let shape = shape_of(asked, number, &file)?;
    if others.iter().any(|other| other.serial() == shape.serial()) {
        return Err(ImageFault::Locked);
    }
    Ok(Image { file, shape })
}

/// Where the bad block begins, counted in 512 bytes: a request has all of it or nothing.
fn bad_sector(asked: &UsbAsked) -> Option<u64> {
    let sectors = match asked.block_length {
        BlockLength::Bytes512 => 1,
        BlockLength::Bytes4096 => 8,
    };
    asked.bad.map(|bad| bad.wrapping_mul(sectors))
}

/// A number of a file that stays: inodes have one number in each of two file systems.
fn serial_of(file: &HostBlocks) -> u64 {
    let system = file.device() % SERIAL_NUMBERS;
    system * FILE_SYSTEM_STEP + file.inode() % SERIAL_NUMBERS
}

/// The logical unit that an image is.
fn shape_of(
    asked: &UsbAsked,
    number: usize,
    file: &HostBlocks,
) -> Result<LogicalUnitShape, ImageFault> {
    let length = u64::from(asked.block_length.bytes());
    let size = file.size();
    if size == 0 || size % length != 0 {
        return Err(ImageFault::NotWhole);
    }
    let serial = match asked.serial {
        Some(first) => u64::from(first).wrapping_add(number as u64),
        None => serial_of(file),
    };
    let Ok(serial) = SerialNumber::new((serial % SERIAL_NUMBERS) as u32) else {
        unreachable!()
    };
    match LogicalUnitShape::new(size / length, asked.block_length, serial) {
        Ok(shape) => Ok(
            shape
                .read_only(asked.read_only)
                .named(asked.vendor, asked.product),
        ),
        Err(_) => Err(ImageFault::TooLarge),
    }
}
