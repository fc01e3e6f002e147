use crate::{Geometry, Path, TryClone};
use std::alloc::AllocError;

/// A scale of a layer: the directory of its chunks, and its geometry.
#[derive(Debug, Drop)]
pub struct Place {
    pub dir: Path,
    pub geometry: Geometry,
}

impl TryClone for Place {
    fn copy(&self) -> Result<Self, AllocError> {
        Ok(Place {
            dir: self.dir.copy()?,
            geometry: self.geometry,
        })
    }
}
