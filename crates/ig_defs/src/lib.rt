//! What all of the product's promises speak of: files, the steps that processes take on them, the log of these steps, and
//! the names of the files of a queue. It has no code but a few types; the definitions stand in `specs/`.
#![tactic(auto)]

mod error;
mod queue_name;
mod step;

pub use error::StoreError;
pub use queue_name::QueueName;
pub use step::{Act, Step};
