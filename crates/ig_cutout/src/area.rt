//! Boxes of voxels.
ghost use Rattle.std.specs.Prelude.{◌≡◌, ◌≤◌, ◌*◌, ◌^◌};
ghost use Rattle.ig_space.specs.Geometry.{count};
ghost use Rattle.ig_space.specs.Grid.{size_of};
ghost use Rattle.ig_cutout.specs.Area.{common};

use ig_space::{Box3, Point};

/// How long a box is on each axis.
pub(crate) fn size_of(area: Box3) -> Point
    requires x { area.lo.x ≤ area.hi.x }
    requires y { area.lo.y ≤ area.hi.y }
    requires z { area.lo.z ≤ area.hi.z }
    ensures { result ≡ size_of area }
{
    Point {
        x: area.hi.x - area.lo.x,
        y: area.hi.y - area.lo.y,
        z: area.hi.z - area.lo.z,
    }
}

/// How many voxels a box of this size has, which are few.
pub(crate) fn count(size: Point) -> usize
    requires x { 1 ≤ size.x }
    requires few { count size ≤ 2 ^ 24 }
    ensures { result ≡ count size }
{
    (size.x * (size.y * size.z)) as usize
}

/// The box of the voxels that lie in both.
pub(crate) fn common(a: Box3, b: Box3) -> Box3
    ensures { result ≡ common a b }
{
    Box3 {
        lo: Point {
            x: a.lo.x.max(b.lo.x),
            y: a.lo.y.max(b.lo.y),
            z: a.lo.z.max(b.lo.z),
        },
        hi: Point {
            x: a.hi.x.min(b.hi.x),
            y: a.hi.y.min(b.hi.y),
            z: a.hi.z.min(b.hi.z),
        },
    }
}
