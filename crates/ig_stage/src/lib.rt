//! Stages that a command makes: from the info of the source a stage is planned, and what stands where it writes is looked at.
//! A command by itself puts its info and runs its tasks one after the other; in a queue, whose records are read first, it puts the
//! stage's record, its info, the names of its tasks and its seal. It stands on stages (`ig_record`), on the files of a queue
//! (`ig_queue`), on what a task makes of its inputs (`ig_task`) and on the definitions of what a command means (`ig_meaning`).
#![tactic(auto)]

mod calls;
mod continuing;
mod enqueuing;
mod error;
mod local;
mod making;
mod mipping;
mod paths;
mod planning;
mod puts;
mod records;
mod request;
mod running;
mod seal;
mod shown;
mod taking;

pub use enqueuing::{Made, make};
pub use error::{LocalError, MakeError};
pub use local::{Ran, RanStage, run_local};
pub use records::Stages;
pub use request::{Coding, Request, Requests};
