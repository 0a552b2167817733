//! The words of `usb`.

use arrayvec::ArrayVec;
use clap::{Arg, ArgAction, ArgMatches, Command};
use host_commands::{BlockLength, Product, Vendor};
use std::alloc::{AllocError, Global};
use uas_profile::MAX_UNITS;

/// What each exit status says, and an example.
const USB_HELP: &str = "\
Exit status: 2 where a word is refused, 3 at a fault of an image, of a packet or of a stream, 4 for want of memory,
else 0.

Example:
  examples/at disk.sock ./uasdisk usb disk.img &
  qemu-system-x86_64 .. -device qemu-xhci -chardev socket,id=d,path=disk.sock -device usb-redir,chardev=d";

/// How long blocks can be.
const BLOCK_SIZES: &[&str] = &["512", "4096"];

/// What is asked to be a USB disk.
#[derive(Debug, Drop)]
pub struct UsbAsked<'a> {
    /// The images of the logical units, in order.
    pub files: ArrayVec<&'a str, MAX_UNITS>,
    pub read_only: bool,
    /// The serial number of the first unit; the others count on from it. Else each has one that its file's device and inode give.
    pub serial: Option<u32>,
    pub vendor: Vendor,
    pub product: Product,
    pub block_length: BlockLength,
    /// The block that is bad, of each unit.
    pub bad: Option<u64>,
}

pub fn usb_command<'a>(alloc: Global) -> Result<Command<'a>, AllocError> {
    Command::new(alloc, "usb")
        .about("Is a USB disk for QEMU's usb-redir over standard input and output")
        .after_help(USB_HELP)
        .arg(
            Arg::new(alloc, "FILE")
                .required(true)
                .action(ArgAction::Set)
                .num_args(1..=MAX_UNITS)
                .help("The images of its logical units, 1 to 15; what is written goes to them"),
        )?
        .arg(
            Arg::new(alloc, "read-only")
                .long("read-only")
                .action(ArgAction::SetTrue)
                .help("Writes nothing, and says so to the guest"),
        )?
        .arg(number(alloc, "serial", "N", 99_999_999).help(
            "The first unit's serial number, from which the others count on; else one by each file's device and inode: 0 to 99999999",
        ))?
        .arg(name(
            alloc,
            "vendor",
            "Who made it, as the guest is told: 1 to 8 printable characters",
        ))?
        .arg(name(
            alloc,
            "product",
            "What it is, as the guest is told: 1 to 16 printable characters",
        ))?
        .arg(
            Arg::new(alloc, "block-size")
                .long("block-size")
                .value_name("BYTES")
                .action(ArgAction::Set)
                .value_parser(BLOCK_SIZES)
                .help("The bytes of a block"),
        )?
        .arg(number(alloc, "bad", "LBA", i64::from(u32::MAX)).help(
            "A block that is bad, of each unit: 0 to 4294967295",
        ))
}

/// An option that is a number from 0 on.
fn number<'a>(alloc: Global, name: &'a str, value: &'a str, most: i64) -> Arg<'a> {
    Arg::new(alloc, name)
        .long(name)
        .value_name(value)
        .action(ArgAction::Set)
        .value_parser(clap::value_parser!(u32).range(0..=most))
}

/// An option that is a name.
fn name<'a>(alloc: Global, name: &'a str, help: &'a str) -> Arg<'a> {
    Arg::new(alloc, name)
        .long(name)
        .value_name("NAME")
        .action(ArgAction::Set)
        .help(help)
}

/// Why words that each are right aren't taken.
#[derive(Clone, Copy, Debug, PartialEq, Eq)]
pub enum WordFault {
    Missing,
    TooManyFiles,
    Vendor,
    Product,
}

impl WordFault {
    /// What is said of it.
    pub fn text(self) -> &'static str {
        match self {
            WordFault::Missing => "a word is missing",
            WordFault::TooManyFiles => "there are more than 15 files",
            WordFault::Vendor => "a vendor has 1 to 8 printable characters",
            WordFault::Product => "a product has 1 to 16 printable characters",
        }
    }
}

/// What was found.
pub fn usb_asked<'a>(words: &ArgMatches<'a>) -> Result<UsbAsked<'a>, WordFault> {
    Ok(UsbAsked {
        files: files(words)?,
        read_only: words.get_flag("read-only"),
        serial: words.get_one::<u32>("serial"),
        vendor: vendor(words.get_str("vendor"))?,
        product: product(words.get_str("product"))?,
        block_length: match words.get_str("block-size") {
            Some("4096") => BlockLength::Bytes4096,
            _ => BlockLength::Bytes512,
        },
        bad: words.get_one::<u32>("bad").map(u64::from),
    })
}

fn files<'a>(words: &ArgMatches<'a>) -> Result<ArrayVec<&'a str, MAX_UNITS>, WordFault> {
    let Some(names) = words.get_strs("FILE") else {
        return Err(WordFault::Missing);
    };
    let mut files = ArrayVec::new();
    for name in names {
        if files.try_push(*name).is_err() {
            return Err(WordFault::TooManyFiles);
        }
    }
    Ok(files)
}

fn vendor(name: Option<&str>) -> Result<Vendor, WordFault> {
    match name.map(Vendor::new) {
        None => Ok(Vendor::usual()),
        Some(Ok(vendor)) => Ok(vendor),
        Some(Err(_)) => Err(WordFault::Vendor),
    }
}

fn product(name: Option<&str>) -> Result<Product, WordFault> {
    match name.map(Product::new) {
        None => Ok(Product::usual()),
        Some(Ok(product)) => Ok(product),
        Some(Err(_)) => Err(WordFault::Product),
    }
}
