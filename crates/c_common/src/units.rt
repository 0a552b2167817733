//! The logical units of a handle, zeroed or from an image, and handles of what is made of them.
ghost use Rattle.std.specs.Prelude.{◌≡◌, ◌≤◌, ◌<◌, ◌*◌, List, [], length, slice_index, sum, vec_len, IfErr, IfOk, true};
ghost use Rattle.std.specs.List.{list_all};
ghost use types.Logic.{sem};
ghost use Rattle.block_unit.specs.BlockMaps.{BlockMaps};
ghost use Rattle.uas_profile.specs.declared.TheConstants.{MAX_CLIENTS};
ghost use Rattle.c_common.specs.Units.{bad_of, image_of, is_bad_block, is_image, is_size, opened_unit, opened_units, units_fault_number};
ghost use Rattle.c_common.specs.Units.{units_number, units_told};
ghost use Rattle.c_common.specs.HandedOut.{handed_out, made_number};

use crate::faults::{BAD_BLOCK, BLOCKS, IMAGE, NO_MEMORY, UNITS};
use crate::handle::hand_out_made;
use block_unit::Unit;
use std::alloc::{AllocError, Global};
use uas_profile::{BLOCK_BYTES, MAX_BLOCKS, MAX_CLIENTS};

/// A bad block as C has it: one of the logical unit of this number.
#[repr(C)]
#[derive(Clone, Copy)]
pub struct UasBadBlock {
    pub unit: u32,
    pub lba: u32,
}

/// Why no units are made.
#[derive(Clone, Copy)]
pub enum UnitsFault {
    /// No unit, or more than there may be.
    Count,
    /// A unit of no block, or of more than 65,536.
    Blocks,
    /// An image that is neither empty nor as long as the units' blocks together.
    Image,
    /// A bad block of a unit that isn't there, or beyond its last block.
    BadBlock,
    NoMemory,
}

impl UnitsFault {
    pub fn number(self) -> u8
        ensures fault { result ≡ units_fault_number self }
        ensures not_0 { 0 < result }
    {
        match self {
            UnitsFault::Count => UNITS,
            UnitsFault::Blocks => BLOCKS,
            UnitsFault::Image => IMAGE,
            UnitsFault::BadBlock => BAD_BLOCK,
            UnitsFault::NoMemory => NO_MEMORY,
        }
    }
}

/// What a handle can be of: it is made of units.
pub trait OfUnits: Sized {
    /// It was just made of these units.
    ghost is_of: { List BlockMaps → Self → Type 0 };

    /// Of these units, 1 to 31 of them.
    fn of_units(alloc: Global, units: Vec<Unit>) -> Result<Self, AllocError>
        requires some { 1 ≤ vec_len units }
        requires most { vec_len units ≤ MAX_CLIENTS }
        ensures { IfOk result (is_of units.items) };
}

/// Makes a handle of what is made of units of so many blocks each. `image` is their blocks and media, one unit behind the other, or empty:
/// then all are zeros. The number of the fault, where `handle` is as it was, or 0.
pub fn open_handle<T: OfUnits + Drop, Name>(
    alloc: Global,
    blocks: &[u32],
    image: &[u8],
    bad: &[UasBadBlock],
    handle: &mut *mut Name,
) -> u8
    ensures fault { units_told result MAX_CLIENTS blocks.now image.now bad.now ≡ true }
    ensures refused { 0 < result → handle.new ≡ handle.old }
    ensures* handed_out { sem 𝓛 (handed_out T.row (T.is_of (opened_units blocks.now image.now bad.now)) result handle.new) }
{
    hand_out_made(made::<T>(alloc, blocks, image, bad), handle)
}

/// The same of zeroed units without a bad block.
pub fn new_handle<T: OfUnits + Drop, Name>(
    alloc: Global,
    blocks: &[u32],
    handle: &mut *mut Name,
) -> u8
    ensures fault { units_told result MAX_CLIENTS blocks.now [] [] ≡ true }
    ensures refused { 0 < result → handle.new ≡ handle.old }
    ensures* handed_out { sem 𝓛 (handed_out T.row (T.is_of (opened_units blocks.now [] [])) result handle.new) }
{
    hand_out_made(zeroed::<T>(alloc, blocks), handle)
}

/// Of zeroed units without a bad block.
fn zeroed<T: OfUnits + Drop>(alloc: Global, blocks: &[u32]) -> Result<Box<T, Global>, u8>
    ensures made { IfOk result (λ made. T.is_of (opened_units blocks.now [] []) made.value) }
    ensures fault { units_told (made_number result) MAX_CLIENTS blocks.now [] [] ≡ true }
    ensures number { IfErr result (λ number. 0 < number) }
{
    made::<T>(alloc, blocks, &[], &[])
}

/// The error is the number of the fault.
fn made<T: OfUnits + Drop>(
    alloc: Global,
    blocks: &[u32],
    image: &[u8],
    bad: &[UasBadBlock],
) -> Result<Box<T, Global>, u8>
    ensures made { IfOk result (λ made. T.is_of (opened_units blocks.now image.now bad.now) made.value) }
    ensures fault { units_told (made_number result) MAX_CLIENTS blocks.now image.now bad.now ≡ true }
    ensures number { IfErr result (λ number. 0 < number) }
{
    match boxed(alloc, blocks, image, bad) {
        Ok(made) => Ok(made),
        Err(fault) => Err(fault.number()),
    }
}

fn boxed<T: OfUnits + Drop>(
    alloc: Global,
    blocks: &[u32],
    image: &[u8],
    bad: &[UasBadBlock],
) -> Result<Box<T, Global>, UnitsFault>
    ensures made { IfOk result (λ made. T.is_of (opened_units blocks.now image.now bad.now) made.value) }
    ensures fault { units_told (units_number result) MAX_CLIENTS blocks.now image.now bad.now ≡ true }
{
    let units = opened_units(alloc, MAX_CLIENTS, blocks, image, bad)?;
    let Ok(made) = T::of_units(alloc, units) else {
        return Err(UnitsFault::NoMemory);
    };
    match Box::new(alloc, made) {
        Ok(made) => Ok(made),
        Err(_) => Err(UnitsFault::NoMemory),
    }
}

/// The units, 1 to `most` of them, at most 31: of so many blocks each, from an image that may be empty, with these bad blocks.
pub fn opened_units(
    alloc: Global,
    most: usize,
    blocks: &[u32],
    image: &[u8],
    bad: &[UasBadBlock],
) -> Result<Vec<Unit>, UnitsFault>
    requires { most ≤ MAX_CLIENTS }
    ensures units { IfOk result (λ units. units.items ≡ opened_units blocks.now image.now bad.now) }
    ensures some { IfOk result (λ units. 1 ≤ vec_len units) }
    ensures most { IfOk result (λ units. vec_len units ≤ most) }
    ensures fault { units_told (units_number result) most blocks.now image.now bad.now ≡ true }
{
    if blocks.is_empty() || blocks.len() > most {
        return Err(UnitsFault::Count);
    }
    if !are_sizes(blocks) {
        return Err(UnitsFault::Blocks);
    }
    if !is_image(blocks, image) {
        return Err(UnitsFault::Image);
    }
    if !are_bad_blocks(blocks, bad) {
        return Err(UnitsFault::BadBlock);
    }
    opened(alloc, blocks, image, bad).map_err(|_| UnitsFault::NoMemory)
}

fn are_sizes(blocks: &[u32]) -> bool
    ensures { result ≡ list_all is_size blocks.now }
{
    blocks
        .iter()
        .all(|count| 1 <= *count && *count <= MAX_BLOCKS)
}

/// Whether an image is empty, or as long as the blocks of all units.
fn is_image(blocks: &[u32], image: &[u8]) -> bool
    requires { length blocks.now ≤ MAX_CLIENTS }
    ensures { result ≡ is_image blocks.now image.now }
{
    image.is_empty() || image.len() == bytes_of(blocks)
}

/// The bytes of so many blocks each, together.
fn bytes_of(blocks: &[u32]) -> usize
    requires { length blocks.now ≤ MAX_CLIENTS }
    ensures { result ≡ 512 * sum blocks.now }
{
    let mut bytes = 0;
    for count in blocks {
        bytes += BLOCK_BYTES * *count as usize;
    }
    bytes
}

/// Whether each is a block of a unit that is there.
fn are_bad_blocks(blocks: &[u32], bad: &[UasBadBlock]) -> bool
    ensures { result ≡ list_all (is_bad_block blocks.now) bad.now }
{
    bad.iter().all(|bad| is_bad_block(blocks, bad))
}

fn is_bad_block(blocks: &[u32], bad: &UasBadBlock) -> bool
    ensures { result ≡ is_bad_block blocks.now bad.now }
{
    match blocks.get(bad.unit as usize) {
        Some(count) => bad.lba < *count,
        None => false,
    }
}

fn opened(
    alloc: Global,
    blocks: &[u32],
    image: &[u8],
    bad: &[UasBadBlock],
) -> Result<Vec<Unit>, AllocError>
    requires count { length blocks.now ≤ MAX_CLIENTS }
    requires sizes { list_all is_size blocks.now ≡ true }
    requires image { is_image blocks.now image.now ≡ true }
    ensures units { IfOk result (λ units. units.items ≡ opened_units blocks.now image.now bad.now) }
    ensures count { IfOk result (λ units. vec_len units ≡ length blocks.now) }
{
    let mut units = Vec::new(alloc);
    for unit in 0..blocks.len() {
        units.push(opened_unit(alloc, blocks, image, bad, unit)?)?;
    }
    Ok(units)
}

/// The unit of this number.
fn opened_unit(
    alloc: Global,
    blocks: &[u32],
    image: &[u8],
    bad: &[UasBadBlock],
    unit: usize,
) -> Result<Unit, AllocError>
    requires count { length blocks.now ≤ MAX_CLIENTS }
    requires there { unit < length blocks.now }
    requires size { is_size (slice_index blocks.now unit) ≡ true }
    requires image { is_image blocks.now image.now ≡ true }
    ensures { IfOk result (λ opened. opened ≡ opened_unit blocks.now image.now bad.now unit) }
{
    let listed = bad_of(alloc, bad, unit)?;
    if image.is_empty() {
        return Unit::new(alloc, blocks[unit], listed);
    }
    match Unit::from_image(alloc, image_of(blocks, image, unit), listed) {
        Ok(opened) => Ok(opened),
        Err(_) => Err(AllocError),
    }
}

/// The bad blocks of the unit of this number.
fn bad_of(alloc: Global, bad: &[UasBadBlock], unit: usize) -> Result<Vec<u32>, AllocError>
    ensures { IfOk result (λ listed. listed.items ≡ bad_of bad.now unit) }
{
    bad.iter()
        .filter(|bad| bad.unit as usize == unit)
        .map(|bad| bad.lba)
        .collect(alloc)
}

/// The part of the image that is of the unit of this number.
fn image_of<'a>(blocks: &[u32], image: &'a [u8], unit: usize) -> &'a [u8]
    requires count { length blocks.now ≤ MAX_CLIENTS }
    requires there { unit < length blocks.now }
    requires whole { length image.now ≡ 512 * sum blocks.now }
    ensures { result.now ≡ image_of blocks.now image.now unit }
{
    let start = bytes_of(&blocks[..unit]);
    &image[start..start + BLOCK_BYTES * blocks[unit] as usize]
}
