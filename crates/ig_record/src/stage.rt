use ig_space::{Bytes, List, Path, Place, Point, TryClone};
use std::alloc::AllocError;

/// What a stage does with the labels of its source.
#[derive(Clone, Copy, Debug, PartialEq, Eq)]
pub enum Kind {
    /// Copies a scale into a new layer.
    Xfer,
    /// Adds mips to a layer.
    Downsample,
    /// Finds the parts of each box, and the planes at its sides.
    Faces,
    /// Finds which parts of neighbouring boxes touch.
    Links,
    /// Numbers the components of the whole volume.
    Labels,
    /// Writes the numbers of the components as a new layer.
    Relabel,
    /// Counts the voxels of each label in each box.
    Count,
    /// Adds these counts.
    Sum,
    /// Takes away the chunks of a scale.
    Remove,
}

/// An info file that a stage puts: its path and its text.
#[derive(Debug, Drop)]
pub struct InfoFile {
    pub path: Path,
    pub text: Bytes,
}

/// Scales that a stage writes.
pub type Places = List<Place>;

/// A stage: the scale that it reads, the scales that it writes, the directory of its other files, the size of a task's box in
/// voxels, and the info that it puts.
#[derive(Debug, Drop)]
pub struct Stage {
    pub kind: Kind,
    pub source: Place,
    pub dests: Places,
    pub scratch: Option<Path>,
    pub shape: Point,
    pub info: Option<InfoFile>,
}

impl TryClone for InfoFile {
    fn copy(&self) -> Result<Self, AllocError> {
        Ok(InfoFile {
            path: self.path.copy()?,
            text: self.text.copy()?,
        })
    }
}

impl TryClone for Stage {
    fn copy(&self) -> Result<Self, AllocError> {
        let scratch = match &self.scratch {
            None => None,
            Some(path) => Some(path.copy()?),
        };
        let info = match &self.info {
            None => None,
            Some(info) => Some(info.copy()?),
        };
        Ok(Stage {
            kind: self.kind,
            source: self.source.copy()?,
            dests: self.dests.copy()?,
            scratch,
            shape: self.shape,
            info,
        })
    }
}
