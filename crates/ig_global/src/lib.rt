//! The parts of a whole volume, from the parts of its boxes: the classes of linked parts, and their numbers in the order of their
//! first voxels.
#![tactic(auto)]

mod edges;
mod laws;
mod numbering;
mod totals;
mod walking;
mod whole;

pub use edges::{Edge, Edges, Table};
pub use laws::numbers_are_parts;
pub use numbering::number;
pub use totals::{TooManyParts, total};
pub use walking::walk;
pub use whole::number_parts;
