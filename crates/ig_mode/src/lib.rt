//! The mips of a volume: a label for each two by two block along x and y, the one that is there most often.
//! It walks rows, by lanes; its contracts speak of the mode taken so often of the whole volume, and the functions without code
//! carry what tasks rest on: a task's own box is enough for its part of the mip.
#![tactic(auto)]

mod halving;
mod laws;
mod levels;
mod mode;
mod row;

pub use halving::halve;
pub use laws::{
    cells_are_halved, geometries_are_halved, known_boxes_have_known_mips,
    mips_keep_what_labels_have, own_boxes_are_enough,
};
pub use levels::{Volumes, mips};
pub use mode::mode4;
pub use row::mode_row;
