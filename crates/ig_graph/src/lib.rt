//! Graphs of numbers: which nodes are joined by a path of steps, and the least of them. It stands on no volume and no file.
//! The definitions stand in `specs/`; the functions without code carry the laws as their contracts, and `DisjointSets` finds
//! the classes of joined nodes.
#![tactic(auto)]

mod laws;
mod sets;

pub use laws::{
    fewer_by_injection, joined_by_quotient, least_is_least, parts_are_of_joined, parts_by_quotient,
    same_least_is_joined, sets_are_classes,
};
pub use sets::DisjointSets;
