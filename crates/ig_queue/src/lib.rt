//! A queue of tasks as files of a store: the names and paths of its files, which tasks may be leased, how far it has come, and
//! the moves by which a task is leased, done or a dead letter, and may be leased again. The definitions of the names stand in
//! `ig_defs`, what moves are allowed in `ig_rule`.
#![tactic(auto)]

mod digits;
mod due;
mod listing;
mod moves;
mod naming;
mod paths;
mod requeue;
mod types;

pub use due::candidates;
pub use ig_defs::QueueName;
pub use ig_space::{Path, TaskId};
pub use listing::{name_in, progress, task_in};
pub use moves::{bury, complete, lease};
pub use naming::{
    parse_queue_name, parse_stage_name, parse_task_name, queue_name, stage_name, task_name,
};
pub use paths::{
    dead_dir, dead_path, done_dir, done_path, queue_dir, queued_path, record_path, seal_path,
    seals_dir, stages_dir,
};
pub use requeue::{release, revive};
pub use types::{Candidates, Closed, Lease, Progress};
