use ig_space::{List, TryClone};
use std::alloc::AllocError;

/// A link between two nodes, by their numbers.
#[derive(Clone, Copy, Debug, PartialEq, Eq)]
pub struct Edge {
    pub a: u32,
    pub b: u32,
}

/// Links between nodes.
pub type Edges = List<Edge>;

/// For each node the number of its class, counted from 1.
pub type Table = List<u32>;

impl TryClone for Edge {
    fn copy(&self) -> Result<Edge, AllocError> {
        Ok(*self)
    }
}
