//! Where a part of a box stands in the list of the box's labels.
ghost use Rattle.std.specs.Prelude.{◌≡◌, ◌≤◌, ◌<◌, ◌+◌, ◌*◌, ◌^◌};
ghost use Rattle.ig_space.specs.Geometry.{count};
ghost use Rattle.ig_space.specs.Grid.{IsWithin, size_of};
ghost use Rattle.ig_cutout.specs.Area.{at_plane, layout_of};

use crate::area::size_of;
use ig_space::Box3;

/// Where the voxels of a part stand: the place of the first, and how far it is from one row and from one plane to the
/// next.
#[derive(Clone, Copy)]
pub(crate) struct Layout {
    pub start: usize,
    pub row: usize,
    pub plane: usize,
}

/// Where the voxels of the part stand in the list of the whole.
pub(crate) fn layout_of(whole: Box3, part: Box3) -> Layout
    requires within { IsWithin part whole }
    requires few { count (size_of whole) ≤ 2 ^ 24 }
    ensures { result ≡ layout_of whole part }
{
    let size = size_of(whole);
    let (x, y, z) = (
        part.lo.x - whole.lo.x,
        part.lo.y - whole.lo.y,
        part.lo.z - whole.lo.z,
    );
    Layout {
        start: (x + size.x * (y + size.y * z)) as usize,
        row: size.x as usize,
        plane: (size.x * size.y) as usize,
    }
}

impl Layout {
    /// Where this row of the first plane begins.
    pub(crate) fn row_at(&self, y: usize) -> usize
        requires { self.now.start + self.now.row * y < 2 ^ 64 }
        ensures { result ≡ self.now.start + self.now.row * y }
    {
        self.start + self.row * y
    }

    /// From this plane on.
    pub(crate) fn at_plane(&self, z: usize) -> Layout
        requires { self.now.start + self.now.plane * z < 2 ^ 64 }
        ensures { result ≡ at_plane self.now z }
    {
        Layout {
            start: self.start + self.plane * z,
            row: self.row,
            plane: self.plane,
        }
    }
}
