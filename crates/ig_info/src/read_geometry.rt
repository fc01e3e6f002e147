ghost use Rattle.std.specs.Prelude.{◌≡◌, ◌^◌, codes};
ghost use Rattle.serde_json.specs.View.{view, items_view};
ghost use Rattle.serde_json.specs.Find.{get};
ghost use Rattle.ig_space.specs.Geometry.{is_wide};
ghost use Rattle.ig_info.specs.Answer.{Gives};
ghost use Rattle.ig_info.specs.Parts.{all_triples};
ghost use Rattle.ig_info.specs.Scales.{placed as placed_point, offset_in, offset_of, first_chunk, chunk_of, blocks_of, encoding_of, is_absent_or_null, geometry_of, largest_side};

use crate::InfoError;
use crate::parts::{are_three_whole, point_within, read_point};
use crate::refusal::{
    found, scale_error, scale_formed_if, supported, supported_if, unsupported_error,
};
use ig_space::{Encoding, Geometry, LARGEST_PLACE, Point, Width, ends_within};
use serde_json::Value;
use std::alloc::Global;

/// No side of a chunk is longer, in voxels.
const LARGEST_SIDE: u64 = 1 << 24;

/// No side of a block is longer, in voxels.
const LARGEST_BLOCK: u64 = 1 << 22;

/// The offset, where a scale of this size ends within the largest place.
fn placed(size: Point, offset: Point) -> Option<Point>
    ensures { result ≡ placed_point size offset }
{
    if ends_within(offset, size) {
        Some(offset)
    } else {
        None
    }
}

/// The offset that is written in a member.
fn read_written_offset(
    alloc: Global,
    list: &Value,
    scale: usize,
    size: Point,
) -> Result<Point, InfoError>
    ensures { Gives (λ x. x) result (offset_in scale size (Some (view list.now))) }
{
    scale_formed_if(alloc, are_three_whole(list), scale, "voxel_offset")?;
    let offset = match point_within(list, 0, LARGEST_PLACE) {
        Some(offset) => placed(size, offset),
        None => None,
    };
    supported(alloc, offset, "voxel_offset")
}

/// The offset of a scale of this size: 0, 0, 0 where no member gives it.
#[tactic(auto, unfolding(crate::specs::Scales::offset_of))]
fn read_offset(alloc: Global, value: &Value, scale: usize, size: Point) -> Result<Point, InfoError>
    ensures { Gives (λ x. x) result (offset_of scale size (view value.now)) }
{
    match value.get("voxel_offset") {
        Some(list) => read_written_offset(alloc, list, scale, size),
        None => Ok(Point { x: 0, y: 0, z: 0 }),
    }
}

/// Whether each of the values is a chunk size.
fn are_chunk_sizes(values: &[Value]) -> bool
    ensures { result ≡ all_triples 1 largest_side (items_view values.now) }
{
    for value in values {
        if point_within(value, 1, LARGEST_SIDE).is_none() {
            return false;
        }
    }
    true
}

/// The first of one or more chunk sizes.
fn first_chunk_size(values: &[Value]) -> Option<Point>
    ensures { result ≡ first_chunk (items_view values.now) }
{
    match values {
        [] => None,
        [first, rest @ ..] => {
            if are_chunk_sizes(rest) {
                point_within(first, 1, LARGEST_SIDE)
            } else {
                None
            }
        }
    }
}

/// The chunk size of a scale.
#[tactic(auto, unfolding(crate::specs::Scales::chunk_of))]
fn read_chunk(alloc: Global, value: &Value, scale: usize) -> Result<Point, InfoError>
    ensures { Gives (λ x. x) result (chunk_of scale (view value.now)) }
{
    let chunk = match value.get("chunk_sizes").and_then(Value::as_array) {
        Some(list) => first_chunk_size(list.as_slice()),
        None => None,
    };
    found(alloc, chunk, scale, "chunk_sizes")
}

/// Whether labels of this width can be compressed.
fn is_wide(width: Width) -> bool
    ensures { result ≡ is_wide width }
{
    matches!(width, Width::W32 | Width::W64)
}

/// The blocks that the chunks of a scale are compressed in.
#[tactic(auto, unfolding(crate::specs::Scales::blocks_of))]
fn read_blocks(alloc: Global, value: &Value, scale: usize) -> Result<Encoding, InfoError>
    ensures { Gives (λ x. x) result (blocks_of scale (view value.now)) }
{
    let name = "compressed_segmentation_block_size";
    let block = read_point(alloc, value, scale, name, (1, LARGEST_BLOCK))?;
    Ok(Encoding::Cseg { block })
}

/// How the chunks of a scale are written.
#[tactic(auto, unfolding(crate::specs::Scales::encoding_of))]
fn read_encoding(
    alloc: Global,
    value: &Value,
    scale: usize,
    width: Width,
) -> Result<Encoding, InfoError>
    ensures { Gives (λ x. x) result (encoding_of scale width (view value.now)) }
{
    match value.get("encoding").and_then(Value::as_str) {
        Some("raw") => Ok(Encoding::Raw),
        Some("compressed_segmentation") if is_wide(width) => read_blocks(alloc, value, scale),
        Some(_) => Err(unsupported_error(alloc, "encoding")),
        None => Err(scale_error(alloc, scale, "encoding")),
    }
}

/// Whether the member is absent or `null`.
fn lacks(value: &Value, name: &str) -> bool
    ensures { result ≡ is_absent_or_null (get name.now (view value.now)) }
{
    match value.get(name) {
        Some(member) => member.is_null(),
        None => true,
    }
}

/// Where the voxels of a scale of this size are.
#[tactic(auto, unfolding(crate::specs::Scales::geometry_of))]
pub(crate) fn read_geometry(
    alloc: Global,
    value: &Value,
    scale: usize,
    width: Width,
    size: Point,
) -> Result<Geometry, InfoError>
    ensures { Gives (λ x. x) result (geometry_of scale width size (view value.now)) }
{
    let offset = read_offset(alloc, value, scale, size)?;
    let chunk = read_chunk(alloc, value, scale)?;
    let encoding = read_encoding(alloc, value, scale, width)?;
    supported_if(alloc, lacks(value, "sharding"), "sharding")?;
    let geometry = Geometry {
        offset,
        size,
        chunk,
        width,
        encoding,
    };
    supported_if(alloc, geometry.fits(), "chunk_sizes")?;
    Ok(geometry)
}
