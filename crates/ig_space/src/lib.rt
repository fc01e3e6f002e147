//! Where voxels are, what the files that hold them are called, and how a volume stands in such a file.
//!
//! Each call has one exact answer; only want of memory may come in place of it.
#![tactic(auto)]

mod chunk;
mod chunks;
mod geometry;
mod grid;
mod list;
mod order;
mod path;
mod place;
mod point;
mod raw;
mod segment;
mod task_id;
mod text;
mod volume;

pub use chunk::{chunk_name, parse_chunk_name};
pub use chunks::{chunk_path, chunks_of};
pub use geometry::{Encoding, Geometry, Grid, LARGEST_PLACE, Width, ends_within};
pub use list::{Bytes, Classes, Firsts, List, Locals, Names, Paths, TryClone, Values};
pub use path::{Path, is_path_text};
pub use place::Place;
pub use point::{Box3, Point};
pub use raw::{
    RawError, WrongLength, bytes_each, first_too_wide, raw_decode, raw_encode, read_labels,
    write_labels,
};
pub use segment::is_segment_text;
pub use task_id::TaskId;
pub use text::Text;
pub use volume::Volume;
