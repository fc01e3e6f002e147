use ig_space::Path;

/// What a worker is told: the directory of its queue; for how many seconds it leases a task; how often a task may be leased
/// before it is buried; how many names it tries at most; and how many tasks it runs side by side, which is one.
#[derive(Debug, Drop)]
pub struct Plan {
    pub queue: Path,
    pub lease: u64,
    pub tries: u32,
    pub turns: u64,
    pub parallel: u32,
}
