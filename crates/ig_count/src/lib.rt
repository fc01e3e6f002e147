//! How many voxels of a volume have each label: tables of labels with their numbers of voxels, ascending by label, which add
//! up, and stand in files.
#![tactic(auto)]

mod counting;
mod counts;
mod file;
mod laws;
mod merging;

pub use counting::count;
pub use counts::{Counts, LabelCount};
pub use file::{read_counts, write_counts};
pub use laws::{counts_of_is_table, few_counted, few_fit, lists_labels, one_merged, one_table};
pub use merging::merge;
