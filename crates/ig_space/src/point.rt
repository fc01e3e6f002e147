/// Three whole numbers, one for each axis.
#[derive(Clone, Copy, Debug, PartialEq, Eq)]
pub struct Point {
    pub x: u64,
    pub y: u64,
    pub z: u64,
}

/// A box of voxels: `lo` is inside, `hi` is outside.
#[derive(Clone, Copy, Debug, PartialEq, Eq)]
pub struct Box3 {
    pub lo: Point,
    pub hi: Point,
}
