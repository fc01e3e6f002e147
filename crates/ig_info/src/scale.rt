ghost use Rattle.std.specs.Prelude.{◌≡◌, ◌^◌};
ghost use Rattle.ig_space.specs.Geometry.{all_within};
ghost use Rattle.ig_info.specs.Scale.{scale_fits};

use ig_space::{Geometry, Path, Point, TryClone};
use std::alloc::AllocError;

/// A scale: the directory of its chunks under the layer, how many nanometres a voxel measures on each axis, and
/// where its voxels are.
#[derive(Debug, Drop)]
pub struct Scale {
    pub key: Path,
    pub resolution: Point,
    pub geometry: Geometry,
}

/// The most bytes that the key of a scale has.
pub(crate) const LONGEST_KEY: usize = 100;

/// The most nanometres that a voxel measures on an axis.
pub(crate) const COARSEST: u64 = 1 << 32;

/// Whether this is a resolution, in nanometres.
fn is_resolution(resolution: Point) -> bool
    ensures { result ≡ all_within 1 (2 ^ 32) resolution }
{
    let Point { x, y, z } = resolution;
    (1 <= x && x <= COARSEST) && (1 <= y && y <= COARSEST) && (1 <= z && z <= COARSEST)
}

impl Scale {
    /// Whether the scale is within the limits of an info: at most 100 bytes of key, 1 to 2^32 nanometres on each axis,
    /// and a geometry that fits.
    pub fn fits(&self) -> bool
        ensures { result ≡ scale_fits self.now }
    {
        self.key.as_str().len() <= LONGEST_KEY
            && is_resolution(self.resolution)
            && self.geometry.fits()
    }
}

impl TryClone for Scale {
    fn copy(&self) -> Result<Self, AllocError> {
        Ok(Scale {
            key: self.key.copy()?,
            resolution: self.resolution,
            geometry: self.geometry,
        })
    }
}
