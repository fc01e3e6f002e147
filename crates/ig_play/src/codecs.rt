//! The codecs of chunks by themselves.
ghost use Rattle.std.specs.Prelude.{◌≡◌, ◌≤◌, ◌*◌, ◌^◌, IfOk, IfSome, IsSome, IsTrue};
ghost use Rattle.ig_space.specs.Geometry.{count, is_wide, padded, padded_to};

use crate::numbers::{number, point, small};
use crate::{Told, World};
use ig_cseg::{CsegFault, EncodeError, decode, encode};
use ig_space::{Bytes, Point, RawError, TryClone, Volume, Width, raw_decode, raw_encode};
use std::alloc::{AllocError, Global};

/// The size of a volume, the width of its labels and the size of a block.
#[derive(Clone, Copy)]
pub(crate) struct Form {
    pub size: Point,
    pub width: Width,
    pub block: Option<Point>,
}

fn width_of(bits: &str) -> Option<Width> {
    match bits {
        "8" => Some(Width::W8),
        "16" => Some(Width::W16),
        "32" => Some(Width::W32),
        "64" => Some(Width::W64),
        _ => None,
    }
}

/// `SIZE BITS` and, for compressed chunks, the size of a block.
pub(crate) fn read_form(size: &str, bits: &str, block: Option<&str>) -> Option<Form> {
    Some(Form {
        size: point(size)?,
        width: width_of(bits)?,
        block: match block {
            Some(block) => Some(point(block)?),
            None => None,
        },
    })
}

/// The product of three numbers, where it has 64 bits.
pub(crate) fn product(x: u64, y: u64, z: u64) -> Option<u64>
    ensures { IfSome result (λ n. n ≡ x * (y * z)) }
{
    x.checked_mul(y.checked_mul(z)?)
}

/// Whether a box of this size has at most so many voxels.
pub(crate) fn has_few(size: Point, most: u64) -> bool
    ensures { IsTrue result → count size ≤ most }
{
    match product(size.x, size.y, size.z) {
        Some(voxels) => voxels <= most,
        None => false,
    }
}

/// The most voxels of a volume.
const MOST_VOXELS: u64 = 1 << 24;

/// A volume of this size whose labels are these, and 3 where there are none.
fn volume_with(alloc: Global, size: Point, labels: &[u64]) -> Result<Option<Volume>, AllocError>
    ensures { IfOk result (λ found. IfSome found (λ volume. volume.size ≡ size)) }
{
    if !has_few(size, MOST_VOXELS) {
        return Ok(None);
    }
    let mut volume = Volume::zeros(alloc, size)?;
    let cells = volume.labels_mut();
    cells.fill(3);
    if cells.len() == labels.len() {
        cells.copy_from_slice(labels);
    }
    Ok(Some(volume))
}

/// The volume of this size with these labels; none where it has another number of voxels, or too many for a test.
pub(crate) fn small_volume(
    alloc: Global,
    size: Point,
    labels: &[u64],
) -> Result<Option<Volume>, AllocError> {
    match volume_with(alloc, size, labels)? {
        Some(volume) if volume.labels().len() == labels.len() => Ok(Some(volume)),
        _ => Ok(None),
    }
}

/// Labels in one line.
pub(crate) fn say_labels(alloc: Global, told: &mut Told, labels: &[u64]) -> Result<(), AllocError> {
    let mut line = String::new(alloc);
    for label in labels {
        if !line.is_empty() {
            line.push(' ')?;
        }
        line.push_str(format!(in alloc; "{label}")?.as_str())?;
    }
    told.say(line.as_str())
}

/// The same for numbers of 32 bits.
pub(crate) fn say_small(alloc: Global, told: &mut Told, numbers: &[u32]) -> Result<(), AllocError> {
    let labels: Vec<u64> = numbers
        .iter()
        .map(|number| u64::from(*number))
        .collect(alloc)?;
    say_labels(alloc, told, labels.as_slice())
}

/// The numbers of 32 bits that words write; none where one is no such number.
pub(crate) fn small_of(alloc: Global, words: &[&str]) -> Result<Option<Vec<u32>>, AllocError> {
    let mut numbers = Vec::new(alloc);
    for word in words {
        match small(word) {
            Some(number) => numbers.push(number)?,
            None => return Ok(None),
        }
    }
    Ok(Some(numbers))
}

/// The numbers that words write; none where one is no number.
pub(crate) fn labels_of(alloc: Global, words: &[&str]) -> Result<Option<Vec<u64>>, AllocError> {
    let mut labels = Vec::new(alloc);
    for word in words {
        match number(word) {
            Some(label) => labels.push(label)?,
            None => return Ok(None),
        }
    }
    Ok(Some(labels))
}

/// The longest side of a chunk, and of a block, that is compressed here.
const LONGEST: u64 = 128;

/// The most voxels of a chunk.
const MOST_IN_CHUNK: u64 = 1 << 21;

/// The most voxels of a chunk that is padded to whole blocks.
const MOST_PADDED: u64 = 1 << 22;

/// A side, made longer to whole blocks.
fn padded_side(side: u64, block: u64) -> u64
    requires some { 1 ≤ block }
    requires side { side ≤ 128 }
    requires block { block ≤ 128 }
    ensures { result ≡ padded side block }
{
    (side + (block - 1)) / block * block
}

/// Whether no side is too long.
fn is_short(size: Point) -> bool
    ensures x { IsTrue result → size.x ≤ 128 }
    ensures y { IsTrue result → size.y ≤ 128 }
    ensures z { IsTrue result → size.z ≤ 128 }
{
    size.x <= LONGEST && size.y <= LONGEST && size.z <= LONGEST
}

/// Whether each side is at least 1.
fn has_sides(size: Point) -> bool
    ensures x { IsTrue result → 1 ≤ size.x }
    ensures y { IsTrue result → 1 ≤ size.y }
    ensures z { IsTrue result → 1 ≤ size.z }
{
    size.x >= 1 && size.y >= 1 && size.z >= 1
}

/// The size of a chunk that is padded to whole blocks, where no side is too long.
fn padded_size(size: Point, block: Point) -> Option<Point>
    ensures x { IsSome result → 1 ≤ block.x }
    ensures y { IsSome result → 1 ≤ block.y }
    ensures z { IsSome result → 1 ≤ block.z }
    ensures value { IfSome result (λ p. p ≡ padded_to size block) }
{
    if !has_sides(block) || !is_short(block) || !is_short(size) {
        return None;
    }
    Some(Point {
        x: padded_side(size.x, block.x),
        y: padded_side(size.y, block.y),
        z: padded_side(size.z, block.z),
    })
}

/// Whether a chunk has so few voxels, also padded to whole blocks.
fn is_lawful(size: Point, block: Point) -> bool
    ensures x { IsTrue result → 1 ≤ block.x }
    ensures y { IsTrue result → 1 ≤ block.y }
    ensures z { IsTrue result → 1 ≤ block.z }
    ensures few { IsTrue result → count size ≤ 2 ^ 21 }
    ensures padded { IsTrue result → count (padded_to size block) ≤ 2 ^ 22 }
{
    let Some(padded) = padded_size(size, block) else {
        return false;
    };
    has_few(size, MOST_IN_CHUNK) && has_few(padded, MOST_PADDED)
}

/// Whether labels of this width can be compressed.
fn is_wide(width: Width) -> bool
    ensures { result ≡ is_wide width }
{
    matches!(width, Width::W32 | Width::W64)
}

fn cseg_fault(alloc: Global, fault: CsegFault) -> Result<String, AllocError> {
    match fault {
        CsegFault::NotWords => String::from_str(alloc, "not words"),
        CsegFault::NoChannel => String::from_str(alloc, "no channel"),
        CsegFault::HeaderShort => String::from_str(alloc, "header short"),
        CsegFault::BadBits { block } => format!(in alloc; "bad bits in block {block}"),
        CsegFault::ValuesOutside { block } => format!(in alloc; "values outside in block {block}"),
        CsegFault::TableOutside { block } => format!(in alloc; "table outside in block {block}"),
    }
}

/// Decodes into the volume. Gives the answer; none where the form is unlawful.
fn decoded(
    alloc: Global,
    bytes: &[u8],
    form: Form,
    volume: &mut Volume,
) -> Result<Option<String>, AllocError> {
    let Some(block) = form.block else {
        return Ok(Some(match raw_decode(bytes, form.width, volume) {
            Ok(()) => String::from_str(alloc, "read")?,
            Err(e) => format!(in alloc; "wrong length {} want {}", e.got, e.want)?,
        }));
    };
    if !is_wide(form.width) || !is_lawful(volume.size(), block) {
        return Ok(None);
    }
    Ok(Some(match decode(bytes, block, form.width, volume) {
        Ok(()) => String::from_str(alloc, "read")?,
        Err(fault) => cseg_fault(alloc, fault)?,
    }))
}

/// `decode PATH SIZE BITS [BLOCK]`: the labels of a chunk whose labels were all 3 before.
pub(crate) fn ask_decode(
    world: &World,
    path: &str,
    form: Form,
) -> Result<Option<Told>, AllocError> {
    let alloc = world.alloc;
    let Some(bytes) = world.found(path)? else {
        return Ok(Some(Told::of(alloc, "no file")?));
    };
    let Some(mut volume) = volume_with(alloc, form.size, &[])? else {
        return Ok(None);
    };
    let Some(answer) = decoded(alloc, bytes.as_bytes(), form, &mut volume)? else {
        return Ok(None);
    };
    let mut told = Told::new(alloc, answer);
    say_labels(alloc, &mut told, volume.copy()?.labels())?;
    Ok(Some(told))
}

/// What an encoder gives: a text, or the place of a label that is too wide. None where the form is unlawful.
pub(crate) fn encoded(
    alloc: Global,
    form: Form,
    labels: &[u64],
) -> Result<Option<Result<Bytes, u64>>, AllocError> {
    let Some(volume) = volume_with(alloc, form.size, labels)? else {
        return Ok(None);
    };
    let Some(block) = form.block else {
        return Ok(Some(match raw_encode(alloc, &volume, form.width) {
            Ok(text) => Ok(text),
            Err(RawError::ValueTooWide { index }) => Err(index),
            Err(RawError::Memory) => return Err(AllocError),
        }));
    };
    if !is_wide(form.width) || !is_lawful(volume.size(), block) {
        return Ok(None);
    }
    Ok(Some(match encode(alloc, &volume, block, form.width) {
        Ok(text) => Ok(text),
        Err(EncodeError::ValueTooWide { index }) => Err(index),
        Err(EncodeError::Memory) => return Err(AllocError),
    }))
}

/// `encode PATH SIZE BITS BLOCK LABEL..`, where a block `-` is none: puts the text at the path.
pub(crate) fn ask_encode(
    world: &mut World,
    path: &str,
    form: Form,
    labels: &[u64],
) -> Result<Option<Told>, AllocError> {
    let alloc = world.alloc;
    Ok(match encoded(alloc, form, labels)? {
        Some(Ok(text)) => {
            world.put(path, text.as_bytes())?;
            Some(Told::of(alloc, "written")?)
        }
        Some(Err(index)) => Some(Told::new(alloc, format!(in alloc; "too wide at {index}")?)),
        None => None,
    })
}
