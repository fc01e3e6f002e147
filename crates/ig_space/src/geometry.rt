ghost use Rattle.std.specs.Prelude.{◌≡◌, ◌≤◌, ◌<◌, ◌+◌, ◌^◌, ◌&&◌, nat_le, IsTrue, true};
ghost use Rattle.ig_space.specs.Geometry.{count, largest_place, padded, blocks_fit, chunk_fits, encoding_fits, geometry_fits, ends_within as ends_in_space, Fits};
ghost use Rattle.ig_space.specs.Grid.{chunks_of, IsGrid};

use crate::{Box3, Point};

/// How many bits a label has.
#[derive(Clone, Copy, Debug, PartialEq, Eq)]
pub enum Width {
    W8,
    W16,
    W32,
    W64,
}

/// How the labels of a chunk are written. The sides of a block are in voxels.
#[derive(Clone, Copy, Debug, PartialEq, Eq)]
pub enum Encoding {
    Raw,
    Cseg { block: Point },
}

/// Where the voxels of a scale are, and how they stand in files: the offset and the size of the scale and the size
/// of a chunk, in voxels.
#[derive(Clone, Copy, Debug, PartialEq, Eq)]
pub struct Geometry {
    pub offset: Point,
    pub size: Point,
    pub chunk: Point,
    pub width: Width,
    pub encoding: Encoding,
}

/// A box cut into cells of this step, from its `lo` on, clipped at its `hi`.
#[derive(Clone, Copy, Debug, PartialEq, Eq)]
pub struct Grid {
    pub space: Box3,
    pub step: Point,
}

/// No coordinate is above this.
pub const LARGEST_PLACE: u64 = 1 << 40;

/// A chunk has at most this many voxels.
const LARGEST_CHUNK: u64 = 1 << 21;

/// A compressed chunk has at most this many voxels once its sides are padded to whole blocks.
const LARGEST_PADDED: u64 = 1 << 22;

/// Whether each side is at least 1.
fn has_sides(size: Point) -> bool
    ensures { result ≡ (nat_le 1 size.x && nat_le 1 size.y && nat_le 1 size.z) }
{
    size.x >= 1 && size.y >= 1 && size.z >= 1
}

/// Whether a side from this offset on ends within the largest place.
fn ends(offset: u64, side: u64) -> bool
    ensures { result ≡ nat_le (offset + side) largest_place }
{
    side <= LARGEST_PLACE && offset <= LARGEST_PLACE - side
}

/// Whether a scale of this offset and size ends within the largest place.
pub fn ends_within(offset: Point, size: Point) -> bool
    ensures { result ≡ ends_in_space offset size }
{
    ends(offset.x, size.x) && ends(offset.y, size.y) && ends(offset.z, size.z)
}

/// Whether a box of this size has at most so many voxels.
fn has_at_most(size: Point, most: u64) -> bool
    requires few { most ≤ 2 ^ 22 }
    requires x { 1 ≤ size.x }
    requires y { 1 ≤ size.y }
    requires z { 1 ≤ size.z }
    ensures { result ≡ nat_le (count size) most }
{
    if size.x > most || size.y > most || size.z > most {
        return false;
    }
    let face = size.y * size.z;
    face <= most && size.x * face <= most
}

/// Whether a chunk has sides, and few voxels.
fn is_chunk(chunk: Point) -> bool
    ensures { result ≡ chunk_fits chunk }
{
    has_sides(chunk) && has_at_most(chunk, LARGEST_CHUNK)
}

/// A side, made longer to whole blocks.
fn pad(side: u64, block: u64) -> u64
    requires some { 1 ≤ side }
    requires side { side ≤ 2 ^ 22 }
    requires block { 1 ≤ block }
    ensures value { result ≡ padded side block }
    ensures some { 1 ≤ result }
{
    if side <= block {
        block
    } else {
        (side + (block - 1)) / block * block
    }
}

/// Whether chunks of this size can be compressed in these blocks.
fn has_blocks(chunk: Point, block: Point) -> bool
    requires { chunk_fits chunk ≡ true }
    ensures { result ≡ blocks_fit chunk block }
{
    if !has_sides(block) {
        return false;
    }
    let padded = Point {
        x: pad(chunk.x, block.x),
        y: pad(chunk.y, block.y),
        z: pad(chunk.z, block.z),
    };
    has_at_most(padded, LARGEST_PADDED)
}

/// Whether chunks of this size and width can be written so.
fn can_encode(chunk: Point, width: Width, encoding: Encoding) -> bool
    requires { chunk_fits chunk ≡ true }
    ensures { result ≡ encoding_fits chunk width encoding }
{
    match encoding {
        Encoding::Raw => true,
        Encoding::Cseg { block } => {
            matches!(width, Width::W32 | Width::W64) && has_blocks(chunk, block)
        }
    }
}

impl Geometry {
    /// Whether the scale has sides and ends within the largest place, and its chunks are small and can be written.
    #[tactic(auto, unfolding(crate::specs::Geometry::geometry_fits))]
    pub fn fits(&self) -> bool
        ensures value { result ≡ geometry_fits self.now }
        ensures facts { IsTrue result → Fits self.now }
    {
        has_sides(self.size)
            && ends_within(self.offset, self.size)
            && is_chunk(self.chunk)
            && can_encode(self.chunk, self.width, self.encoding)
    }

    /// The grid of its chunks.
    pub fn chunks(&self) -> Grid
        requires { geometry_fits self.now ≡ true }
        ensures value { result ≡ chunks_of self.now }
        ensures grid { IsGrid result }
    {
        let (offset, size) = (self.offset, self.size);
        let hi = Point {
            x: offset.x + size.x,
            y: offset.y + size.y,
            z: offset.z + size.z,
        };
        Grid {
            space: Box3 { lo: offset, hi },
            step: self.chunk,
        }
    }
}
