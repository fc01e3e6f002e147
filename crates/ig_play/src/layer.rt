//! Small layers by their labels: the info of a scale, and the chunks of a scale that an info has.
use crate::World;
use crate::codecs::{Form, encoded};
use crate::infos::info_at;
use ig_space::{Bytes, Encoding, Geometry, Point};
use std::alloc::{AllocError, Global};

/// The value after this word.
fn value<'a>(words: &[&'a str], name: &str) -> Option<&'a str> {
    let place = words.iter().position(|word| *word == name)?;
    words.get(place.saturating_add(1)).copied()
}

/// The members of a scale that say how its chunks are written.
fn encoding_members(alloc: Global, block: Option<&str>) -> Result<String, AllocError> {
    match block {
        None => String::from_str(alloc, "\"encoding\":\"raw\""),
        Some(block) => format!(in alloc;
            "\"compressed_segmentation_block_size\":[{block}],\"encoding\":\"compressed_segmentation\""
        ),
    }
}

/// The text of an info of one scale: `size X,Y,Z`, and where they are given `chunk`, `offset`, `bits`, `key`, `resolution` and
/// `block`. Else the chunk is the whole scale, and the labels have 64 bits.
pub fn short_info(alloc: Global, words: &[&str]) -> Result<Option<String>, AllocError> {
    let Some(size) = value(words, "size") else {
        return Ok(None);
    };
    let chunk = value(words, "chunk").unwrap_or(size);
    let offset = value(words, "offset").unwrap_or("0,0,0");
    let bits = value(words, "bits").unwrap_or("64");
    let key = value(words, "key").unwrap_or("8_8_8");
    let resolution = value(words, "resolution").unwrap_or("8,8,8");
    let encoding = encoding_members(alloc, value(words, "block"))?;
    let scale = format!(in alloc;
        "{{\"chunk_sizes\":[[{chunk}]],{encoding},\"key\":\"{key}\",\"resolution\":[{resolution}],\"size\":[{size}],\"voxel_offset\":[{offset}]}}"
    )?;
    Ok(Some(format!(in alloc;
        "{{\"data_type\":\"uint{bits}\",\"num_channels\":1,\"scales\":[{scale}],\"type\":\"segmentation\"}}"
    )?))
}

/// The label of a voxel: those that are given, over and over, x fastest, then y, then z.
fn label(labels: &[u64], size: Point, x: u64, y: u64, z: u64) -> u64 {
    let place = size.y.wrapping_mul(z).wrapping_add(y);
    let place = size.x.wrapping_mul(place).wrapping_add(x) as usize;
    match labels.len() {
        0 => 0,
        count => labels[place % count],
    }
}

/// The labels of the chunk from `lo` to `hi`.
pub(crate) fn labels_in(
    alloc: Global,
    labels: &[u64],
    size: Point,
    lo: Point,
    hi: Point,
) -> Result<Vec<u64>, AllocError> {
    let mut own = Vec::new(alloc);
    for z in lo.z..hi.z {
        for y in lo.y..hi.y {
            for x in lo.x..hi.x {
                own.push(label(labels, size, x, y, z))?;
            }
        }
    }
    Ok(own)
}

/// The first place of the chunk of this number along an axis, and the one after its last.
pub(crate) fn side(number: u64, chunk: u64, size: u64) -> (u64, u64) {
    let low = number.saturating_mul(chunk);
    (low, low.saturating_add(chunk).min(size))
}

/// The text of a chunk whose labels are these; none where it can't have them.
fn chunk_text(
    alloc: Global,
    geometry: &Geometry,
    lo: Point,
    hi: Point,
    labels: &[u64],
) -> Result<Option<Bytes>, AllocError> {
    let form = Form {
        size: Point {
            x: hi.x.saturating_sub(lo.x),
            y: hi.y.saturating_sub(lo.y),
            z: hi.z.saturating_sub(lo.z),
        },
        width: geometry.width,
        block: match geometry.encoding {
            Encoding::Raw => None,
            Encoding::Cseg { block } => Some(block),
        },
    };
    let own = labels_in(alloc, labels, geometry.size, lo, hi)?;
    Ok(match encoded(alloc, form, own.as_slice())? {
        Some(Ok(text)) => Some(text),
        _ => None,
    })
}

/// The name of the chunk (Neuroglancer precomputed).
fn chunk_name(alloc: Global, offset: Point, lo: Point, hi: Point) -> Result<String, AllocError> {
    let (x, y, z) = (offset.x, offset.y, offset.z);
    let (a, b) = (x.saturating_add(lo.x), x.saturating_add(hi.x));
    let (c, d) = (y.saturating_add(lo.y), y.saturating_add(hi.y));
    let (e, f) = (z.saturating_add(lo.z), z.saturating_add(hi.z));
    format!(in alloc; "{a}-{b}_{c}-{d}_{e}-{f}")
}

/// Puts the chunk, or looks whether it stands so. Gives whether all is well.
fn do_chunk(
    world: &mut World,
    dir: &str,
    geometry: &Geometry,
    at: Point,
    labels: &[u64],
    puts: bool,
) -> Result<bool, AllocError> {
    let alloc = world.alloc;
    let (chunk, size) = (geometry.chunk, geometry.size);
    let (x, y) = (side(at.x, chunk.x, size.x), side(at.y, chunk.y, size.y));
    let z = side(at.z, chunk.z, size.z);
    let (lo, hi) = (point(x.0, y.0, z.0), point(x.1, y.1, z.1));
    let Some(text) = chunk_text(alloc, geometry, lo, hi, labels)? else {
        return Ok(false);
    };
    let name = chunk_name(alloc, geometry.offset, lo, hi)?;
    let path = format!(in alloc; "{dir}/{name}")?;
    if puts {
        return world.put(path.as_str(), text.as_bytes());
    }
    Ok(match world.found(path.as_str())? {
        Some(found) => found.as_bytes() == text.as_bytes(),
        None => false,
    })
}

fn point(x: u64, y: u64, z: u64) -> Point {
    Point { x, y, z }
}

/// How many chunks there are along an axis.
pub(crate) fn chunks_along(size: u64, chunk: u64) -> u64 {
    if chunk == 0 { 0 } else { size.div_ceil(chunk) }
}

/// The same for all chunks.
fn do_chunks(
    world: &mut World,
    dir: &str,
    geometry: &Geometry,
    labels: &[u64],
    puts: bool,
) -> Result<bool, AllocError> {
    let (size, chunk) = (geometry.size, geometry.chunk);
    for z in 0..chunks_along(size.z, chunk.z) {
        for y in 0..chunks_along(size.y, chunk.y) {
            for x in 0..chunks_along(size.x, chunk.x) {
                if !do_chunk(world, dir, geometry, point(x, y, z), labels, puts)? {
                    return Ok(false);
                }
            }
        }
    }
    Ok(true)
}

/// Puts the chunks of a scale of a layer, or looks whether they stand so: its voxels have these labels, over and over, x fastest,
/// then y, then z. False where one can't have them, or stands otherwise, or there is no such scale.
pub fn chunks_with(
    world: &mut World,
    layer: &str,
    mip: u32,
    labels: &[u64],
    puts: bool,
) -> Result<bool, AllocError> {
    let alloc = world.alloc;
    let path = format!(in alloc; "{layer}/info")?;
    let Ok(info) = info_at(world, path.as_str())? else {
        return Ok(false);
    };
    let Some(scale) = info.scale(mip) else {
        return Ok(false);
    };
    let dir = format!(in alloc; "{layer}/{}", scale.key.as_str())?;
    do_chunks(world, dir.as_str(), &scale.geometry, labels, puts)
}
