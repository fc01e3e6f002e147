use ig_defs::QueueName;
use ig_space::List;

/// Names of tasks in a queue that may be leased.
pub type Candidates = List<QueueName>;

/// What came of asking for a lease.
#[derive(Clone, Copy, Debug, PartialEq, Eq)]
pub enum Lease {
    /// The task is leased, and its file has this name until the lease is over.
    Leased(QueueName),
    /// Another process took the file first.
    Gone,
}

/// What came of handing a task back.
#[derive(Clone, Copy, Debug, PartialEq, Eq)]
pub enum Closed {
    /// The task is done.
    Done,
    /// The lease was over, and the file had another name by then.
    Late,
}

/// How many tasks a queue lists, and how many of them may be leased now.
#[derive(Clone, Copy, Debug, PartialEq, Eq)]
pub struct Progress {
    pub listed: u64,
    pub visible: u64,
}
