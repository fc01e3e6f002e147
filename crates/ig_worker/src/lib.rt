//! A worker on a queue: it leases tasks, runs them and hands them back, one call on the store a step, so that any number of
//! workers may stand beside it, die, stall, or do a task again.
#![tactic(auto)]

mod ahead;
mod calls;
mod counting;
mod ending;
mod error;
mod laws;
mod learning;
mod next;
mod notes;
mod phase;
mod plan;
mod records;
mod round;
mod shifts;
mod stages;
mod steps;
mod tasks;
mod trying;
mod turn;
mod worker;

pub use ahead::Ahead;
pub use error::WorkerError;
pub use laws::{worker_alone_finishes, writes_follow_leases};
pub use next::Next;
pub use notes::Notes;
pub use phase::{Phase, Then};
pub use plan::Plan;
pub use records::Records;
pub use turn::{End, Line, Turn, Why};
pub use worker::Worker;
