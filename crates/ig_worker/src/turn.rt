use ig_cutout::Cause;
use ig_space::{Path, TaskId};

/// Why a task is buried: it was leased so often; an input is no text of its chunk; it has too many parts.
#[derive(Debug, Drop)]
pub enum Why {
    Tries { attempt: u32 },
    Malformed { path: Path, cause: Cause },
    TooManyParts { count: u64 },
}

/// What a worker says of a task: it is done; its lease was over before; this input is not there yet; it is a dead letter now;
/// it is one of those that a queue holds at the end.
#[derive(Debug, Drop)]
pub enum Line {
    Done(TaskId),
    Late(TaskId),
    Missing { id: TaskId, path: Path },
    Buried { id: TaskId, cause: Why },
    Letter(TaskId),
}

/// How a worker ends: all tasks are done, so many; so many are not done, and none may be leased now; there are so many dead
/// letters; it has tried as many names as it may.
#[derive(Clone, Copy, Debug, PartialEq, Eq)]
pub enum End {
    Finished { tasks: u64 },
    Waiting { tasks: u64 },
    Letters { count: u64 },
    Spent { turns: u64 },
}

/// What a step of a worker gives: it goes on, it says something, or it has ended.
#[derive(Debug, Drop)]
pub enum Turn {
    On,
    Said(Line),
    Ended(End),
}
