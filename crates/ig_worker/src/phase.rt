use crate::{Ahead, End, WorkerError};
use ig_cutout::{Inputs, Output};
use ig_queue::{Candidates, QueueName};
use ig_space::{Paths, TaskId};

/// What a worker does once it has read the records that it lacks.
#[derive(Debug, Drop)]
pub enum Then {
    /// It begins a round.
    Ask,
    /// It tries those of these names whose tasks may be run.
    Try { names: Candidates },
    /// It looks for dead letters.
    Count,
}

/// Where a worker stands in its work: what it does next, and what it needs for it.
#[derive(Debug, Drop)]
pub enum Phase {
    /// It lists the stages.
    Starting,
    /// It reads the records of these stages, and then goes on.
    Learning {
        unread: Ahead<u32>,
        then: Then,
    },
    /// It begins a round: it lists the queue.
    Asking,
    /// It tries these names, one after the other.
    Trying {
        names: Ahead<QueueName>,
    },
    /// It reads the inputs of the task that it leased under this name: of these paths, those that were not found yet.
    Fetching {
        name: QueueName,
        paths: Paths,
        given: Inputs,
        names: Ahead<QueueName>,
    },
    /// It runs the task over these inputs.
    Running {
        name: QueueName,
        given: Inputs,
        names: Ahead<QueueName>,
    },
    /// It puts, or takes away, what the task has made, and then calls the task done.
    Finishing {
        name: QueueName,
        outputs: Ahead<Output>,
        names: Ahead<QueueName>,
    },
    /// No task may be leased: it lists the stages once more.
    Closing,
    /// It lists the dead letters.
    ListingDead,
    /// It lists the tasks that are done.
    ListingDone {
        letters: Ahead<TaskId>,
    },
    /// It tells these dead letters, of so many.
    Telling {
        letters: Ahead<TaskId>,
        count: u64,
    },
    /// It has ended.
    Over {
        end: End,
    },
    /// It was stopped by an error.
    Broken {
        error: WorkerError,
    },
}
