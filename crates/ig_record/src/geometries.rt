//! Tests on the geometries of scales, and the geometry of a mip.
ghost use Rattle.std.specs.Prelude.{◌≡◌};
ghost use Rattle.ig_mode.specs.HalvedGrids.{halved_geometry};
ghost use Rattle.ig_record.specs.Sound.{is_relabelled, same_box, same_encoding, same_geometry, same_point, same_voxels};

use ig_space::{Encoding, Geometry, Point, bytes_each};

/// Whether the points are one.
fn same_point(a: Point, b: Point) -> bool
    ensures { result ≡ same_point a b }
{
    a.x == b.x && a.y == b.y && a.z == b.z
}

/// Whether chunks are written alike.
fn same_encoding(a: Encoding, b: Encoding) -> bool
    ensures { result ≡ same_encoding a b }
{
    match (a, b) {
        (Encoding::Raw, Encoding::Raw) => true,
        (Encoding::Cseg { block }, Encoding::Cseg { block: other }) => same_point(block, other),
        _ => false,
    }
}

/// Whether both have the same box.
fn same_box(a: &Geometry, b: &Geometry) -> bool
    ensures { result ≡ same_box a.now b.now }
{
    same_point(a.offset, b.offset) && same_point(a.size, b.size)
}

/// Whether both have the same voxels, of labels as wide.
pub(crate) fn same_voxels(a: &Geometry, b: &Geometry) -> bool
    ensures { result ≡ same_voxels a.now b.now }
{
    same_box(a, b) && bytes_each(a.width) == bytes_each(b.width)
}

/// Whether both are the same in all.
pub(crate) fn same_geometry(a: &Geometry, b: &Geometry) -> bool
    ensures { result ≡ same_geometry a.now b.now }
{
    same_voxels(a, b) && same_point(a.chunk, b.chunk) && same_encoding(a.encoding, b.encoding)
}

/// Whether the second has the same voxels in the same chunks, of labels of 32 bits.
pub(crate) fn is_relabelled(a: &Geometry, b: &Geometry) -> bool
    ensures { result ≡ is_relabelled a.now b.now }
{
    same_box(a, b) && same_point(a.chunk, b.chunk) && bytes_each(b.width) == 4
}

/// The geometry of the mip: half as many voxels along x and y, rounded up, in chunks of the same size.
pub fn halved(g: &Geometry) -> Geometry
    ensures { result ≡ halved_geometry 1 g.now }
{
    let (offset, size) = (g.offset, g.size);
    Geometry {
        offset: Point {
            x: offset.x / 2,
            y: offset.y / 2,
            z: offset.z,
        },
        size: Point {
            x: size.x / 2 + size.x % 2,
            y: size.y / 2 + size.y % 2,
            z: size.z,
        },
        ..*g
    }
}
