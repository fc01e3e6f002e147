//! What any process may do to the files of a queue, and the laws that make each interleaving of such steps safe. It speaks
//! of files alone, never of clocks, leases or workers, and knows no kind of stage: of a stage it reads a record of facts.
//! The definitions stand in `specs/`, and the functions without code carry the laws as their contracts.
#![tactic(auto)]

mod laws;
mod role;

pub use laws::{
    drained_is_finished, kept_inputs_serve, known_is_kept, no_queue_is_sound, no_task_is_lost,
    others_are_safe, outputs_stay, prefixes_are_legal, rest_is_untouched, scratch_is_wanted,
    sound_is_kept, wrong_acts_are_refused,
};
pub use role::Role;
