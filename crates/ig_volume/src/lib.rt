//! What layers hold: files that have the chunks' texts of a volume have that volume, in either encoding and whatever the size
//! of the chunks. The definitions stand in `specs/`; the functions without code carry the laws as their contracts.
#![tactic(auto)]

mod laws;

pub use laws::{
    chunk_labels_make_the_volume, copied_layers_keep_their_volume, written_layers_hold_their_volume,
};
