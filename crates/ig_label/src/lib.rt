//! The parts of one box of labels: its voxels of one nonzero label that a path of steps joins, numbered by their first voxels.
//! It walks the runs of labels along x, and holds memory for these; its contract speaks of voxels alone.
#![tactic(auto)]

mod joining;
mod parts;
mod rows;

pub use parts::{Labels, label};
pub use rows::{Run, Runs, runs_of};
