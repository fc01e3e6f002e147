use crate::{Phase, Turn};

/// Where a step has led, and what it gives.
#[derive(Debug, Drop)]
pub struct Next {
    pub phase: Phase,
    pub turn: Turn,
}
