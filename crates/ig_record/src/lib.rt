//! Stages and their tasks: what a stage reads and writes, when it is sound, and the one text of each stage and of each task
//! in the files of a queue. It stands on places of layers (`ig_space`) and on `serde_json`.
#![tactic(auto)]

mod error;
mod filed;
mod files;
mod geometries;
mod hulls;
mod lawful;
mod layers;
mod lists;
mod members;
mod neighbours;
mod parse;
mod read_place;
mod recorded;
mod soundness;
mod stage;
mod task;
mod tasks;
mod writing;

pub use error::RecordError;
pub use filed::read_task;
pub use geometries::halved;
pub use lists::{box_written, dirs, inputs, paths, removed, writes_in};
pub use recorded::read_stage;
pub use soundness::{MOST_TASKS, MOST_VOXELS};
pub use stage::{InfoFile, Kind, Places, Stage};
pub use task::write_task;
pub use writing::{kind_word, write_stage};
