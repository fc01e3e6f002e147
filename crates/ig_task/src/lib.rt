//! The rule of a queue for the kinds of stage that there are, and what a task makes of its inputs. It gives each kind's facts
//! to the rule (`ig_rule`), shows that they keep what the laws of the rule rest on, and runs a task over what was found of
//! its inputs: the texts that it makes are those that are wanted, defined from the whole volume.
#![tactic(auto)]

mod error;
mod laws;
mod pipeline;
mod running;

pub use error::RunError;
pub use ig_rule::Role;
pub use laws::{
    copies_write_all_chunks, kinds_keep_their_laws, mips_are_of_the_whole, mips_write_all_chunks,
    outputs_are_wanted, sequential_is_wanted,
};
pub use pipeline::Pipeline;
pub use running::run;
