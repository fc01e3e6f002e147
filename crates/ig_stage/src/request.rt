use ig_record::Kind;
use ig_space::{List, Path, Point};

/// How the chunks of a new layer are to be written.
#[derive(Clone, Copy, Debug, PartialEq, Eq)]
pub enum Coding {
    Raw,
    Cseg,
}

/// A stage that a command asks for.
#[derive(Debug, Drop)]
pub struct Request {
    pub kind: Kind,
    /// The layer that it reads.
    pub source: Path,
    /// The new layer, of the kinds that write one.
    pub dest: Option<Path>,
    /// The number of the scale.
    pub mip: u32,
    /// How many mips are added, by the kinds that add mips; else 0.
    pub levels: u32,
    /// The size of the new chunks in voxels, where it is given.
    pub chunk: Option<Point>,
    /// The size of a task's box in voxels, where it is given.
    pub shape: Option<Point>,
    /// How the new chunks are written, where it is given.
    pub encoding: Option<Coding>,
    /// The size of the new chunks' blocks in voxels, where it is given.
    pub block: Option<Point>,
}

/// The stages that one command asks for, in order.
pub type Requests = List<Request>;
