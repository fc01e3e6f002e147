//! Boxes of labels from the files of chunks, and back: `assemble` makes the labels of a box from what was found of the
//! chunks that meet it, and `cut_chunks` makes the chunks of a box from its labels.
//!
//! Rows go straight from the bytes of a raw input into the labels of the box, and from there into the bytes of a raw
//! output. The labels of a compressed chunk stand in a list of their own in between.
#![tactic(auto)]

mod area;
mod copy;
mod cut;
mod error;
mod layout;
mod paste;
mod read;
mod types;
mod write;

pub use cut::cut_chunks;
pub use error::{Cause, CutError};
pub use paste::assemble;
pub use types::{Input, Inputs, Output, Outputs};
