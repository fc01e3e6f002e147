//! The blocks of a volume, and their rows.
ghost use Rattle.std.specs.Prelude.{◌≡◌, ◌≤◌, ◌<◌, ◌+◌, ◌*◌, ◌^◌};
ghost use Rattle.ig_space.specs.Geometry.{count};
ghost use Rattle.ig_cseg.specs.Blocks.{IsClip, IsCut, corner, last_position, row_count, row_place, row_position};
ghost use Rattle.ig_cseg.specs.Cseg.{block_count, block_grid, blocks_along, clipped, clipped_along};

use ig_space::Point;

/// A block that is clipped at the end of the volume: the size of the volume and of a whole block, where the block
/// begins and its size, in voxels.
#[derive(Clone, Copy)]
pub(crate) struct Clip {
    pub(crate) volume: Point,
    pub(crate) block: Point,
    pub(crate) lo: Point,
    pub(crate) size: Point,
}

/// How many blocks a side is cut into.
fn blocks_along(side: u64, block: u64) -> u64
    requires { 1 ≤ block }
    ensures { result ≡ blocks_along side block }
{
    if side == 0 { 0 } else { (side - 1) / block + 1 }
}

/// How many blocks there are along each axis.
fn block_grid(size: Point, block: Point) -> Point
    requires x { 1 ≤ block.x }
    requires y { 1 ≤ block.y }
    requires z { 1 ≤ block.z }
    ensures { result ≡ block_grid size block }
{
    Point {
        x: blocks_along(size.x, block.x),
        y: blocks_along(size.y, block.y),
        z: blocks_along(size.z, block.z),
    }
}

/// How many blocks there are.
pub(crate) fn block_count(size: Point, block: Point) -> u64
    requires { IsCut size block }
    ensures value { result ≡ block_count size block }
    ensures few { result ≤ 2 ^ 22 }
{
    let grid = block_grid(size, block);
    if grid.x == 0 || grid.y == 0 || grid.z == 0 {
        return 0;
    }
    grid.x * (grid.y * grid.z)
}

/// How much of a side lies in a block.
fn clip_along(side: u64, block: u64, index: u64) -> u64
    requires { index * block ≤ side }
    ensures { result ≡ clipped_along side block index }
{
    block.min(side - index * block)
}

impl Clip {
    /// The block with this number.
    pub(crate) fn of(size: Point, block: Point, number: u64) -> Self
        requires cut { IsCut size block }
        requires below { number < block_count size block }
        ensures volume { result.volume ≡ size }
        ensures block { result.block ≡ block }
        ensures lo { result.lo ≡ corner size block number }
        ensures size { result.size ≡ clipped size block number }
        ensures clip { IsClip size block result.lo result.size }
    {
        let grid = block_grid(size, block);
        let rows = number / grid.x;
        let (x, y, z) = (number % grid.x, rows % grid.y, rows / grid.y);
        Clip {
            volume: size,
            block,
            lo: Point {
                x: x * block.x,
                y: y * block.y,
                z: z * block.z,
            },
            size: Point {
                x: clip_along(size.x, block.x, x),
                y: clip_along(size.y, block.y, y),
                z: clip_along(size.z, block.z, z),
            },
        }
    }

    /// How many positions a whole block has.
    pub(crate) fn positions(&self) -> usize
        requires { IsClip self.now.volume self.now.block self.now.lo self.now.size }
        ensures value { result ≡ count self.now.block }
        ensures few { result ≤ 2 ^ 22 }
    {
        (self.block.x * (self.block.y * self.block.z)) as usize
    }

    /// How many rows along x it has.
    pub(crate) fn rows(&self) -> usize
        requires { IsClip self.now.volume self.now.block self.now.lo self.now.size }
        ensures { result ≡ row_count self.now.size }
    {
        (self.size.y * self.size.z) as usize
    }

    /// The position of the first voxel of a row, with the full size of a block.
    pub(crate) fn position(&self, row: usize) -> usize
        requires clip { IsClip self.now.volume self.now.block self.now.lo self.now.size }
        requires below { row < row_count self.now.size }
        ensures value { result ≡ row_position self.now.block self.now.size row }
        ensures within { result + self.now.size.x ≤ 2 ^ 22 }
    {
        let row = row as u64;
        let (y, z) = (row % self.size.y, row / self.size.y);
        (self.block.x * (y + self.block.y * z)) as usize
    }

    /// Where the first voxel of a row stands in the labels of the volume.
    pub(crate) fn place(&self, row: usize) -> usize
        requires clip { IsClip self.now.volume self.now.block self.now.lo self.now.size }
        requires below { row < row_count self.now.size }
        ensures value { result ≡ row_place self.now.volume self.now.lo self.now.size row }
        ensures within { result + self.now.size.x ≤ count self.now.volume }
    {
        let row = row as u64;
        let (y, z) = (row % self.size.y, row / self.size.y);
        let rows = self.lo.y + y + self.volume.y * (self.lo.z + z);
        (self.lo.x + self.volume.x * rows) as usize
    }

    /// The position of its last voxel, which is the largest, with the full size of a block.
    pub(crate) fn last_position(&self) -> usize
        requires { IsClip self.now.volume self.now.block self.now.lo self.now.size }
        ensures value { result ≡ last_position self.now.block self.now.size }
        ensures within { result < 2 ^ 22 }
    {
        let (y, z) = (self.size.y - 1, self.size.z - 1);
        (self.size.x - 1 + self.block.x * (y + self.block.y * z)) as usize
    }
}
