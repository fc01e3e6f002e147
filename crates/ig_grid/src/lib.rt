//! The components of a volume, taken box by box: each task grid gives the components of the whole, and sums over its cells add
//! up to the whole's. The definitions stand in `specs/`; the functions without code carry the laws as their contracts.
#![tactic(auto)]

mod laws;

pub use laws::{
    cells_add_up, cells_keep_order, grids_are_tilings, labelled_boxes_have_parts, links_show_parts,
    lists_tell_parts, parts_are_numbered,
};
