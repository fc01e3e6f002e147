use crate::{Plan, Records};

/// What a worker has noted: its plan, the stages that it knows, the clock's last answer, in seconds, and how many names it
/// has tried.
#[derive(Debug, Drop)]
pub struct Notes {
    pub plan: Plan,
    pub known: Records,
    pub at: u64,
    pub tried: u64,
}
