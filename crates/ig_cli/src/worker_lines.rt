//! The lines of a worker on standard output, each with its line end.
ghost use Rattle.std.specs.Prelude.{◌≡◌, IfOk, string_bytes};
ghost use Rattle.std.specs.Fmt.{decimal};
ghost use Rattle.ig_defs.specs.QueueNames.{digits};
ghost use Rattle.ig_meaning.specs.Lines.{line as line_with, spaced};
ghost use Rattle.ig_worker.specs.declared.turn.Line.TheVariants as said;
ghost use Rattle.ig_worker.specs.declared.turn.Why.TheVariants as reason;
ghost use Rattle.ig_worker.specs.Lines.{end_text, line_text, task_text, why_text};

use crate::causes::cause_text;
use crate::done::four_digits;
use ig_cutout::Cause;
use ig_space::TaskId;
use ig_worker::{End, Line, Why};
use std::alloc::{AllocError, Global};

/// The last six digits of a number.
fn six_digits(alloc: Global, number: u32) -> Result<String, AllocError>
    ensures { IfOk result (λ text. string_bytes text ≡ digits 6 number) }
{
    let last = number % 1000000;
    format!(in alloc; "{last:06}")
}

/// Two texts with a blank between them.
fn spaced(alloc: Global, left: &str, right: &str) -> Result<String, AllocError>
    ensures { IfOk result (λ text. string_bytes text ≡ spaced left.now right.now) }
{
    format!(in alloc; "{left} {right}")
}

/// The text and a line end.
fn line(alloc: Global, text: &str) -> Result<String, AllocError>
    ensures { IfOk result (λ line. string_bytes line ≡ line_with text.now) }
{
    format!(in alloc; "{text}\n")
}

/// A word and a task.
fn task_text(alloc: Global, word: &str, id: TaskId) -> Result<String, AllocError>
    ensures { IfOk result (λ text. string_bytes text ≡ task_text word.now id) }
{
    let (stage, task) = (four_digits(alloc, id.stage)?, six_digits(alloc, id.task)?);
    let numbers = spaced(alloc, stage.as_str(), task.as_str())?;
    spaced(alloc, word, numbers.as_str())
}

/// The line of a task, after this word.
fn task_line(alloc: Global, word: &str, id: TaskId) -> Result<String, AllocError>
    ensures { IfOk result (λ text. string_bytes text ≡ line_with (task_text word.now id)) }
{
    let text = task_text(alloc, word, id)?;
    line(alloc, text.as_str())
}

/// The line of a task, after this word, with more that is said of it.
fn longer_line(alloc: Global, word: &str, id: TaskId, more: &str) -> Result<String, AllocError>
    ensures { IfOk result (λ text. string_bytes text ≡ line_with (spaced (task_text word.now id) more.now)) }
{
    let text = task_text(alloc, word, id)?;
    let text = spaced(alloc, text.as_str(), more)?;
    line(alloc, text.as_str())
}

/// A word and a number.
fn counted(alloc: Global, word: &str, count: u64) -> Result<String, AllocError>
    ensures { IfOk result (λ text. string_bytes text ≡ spaced word.now (decimal count)) }
{
    format!(in alloc; "{word} {count}")
}

/// The cause of a dead letter whose input is malformed.
fn malformed(alloc: Global, path: &str, cause: &Cause) -> Result<String, AllocError>
    ensures { IfOk result (λ text. string_bytes text ≡ why_text (reason.Malformed path.now cause.now)) }
{
    let cause = cause_text(alloc, cause)?;
    format!(in alloc; "malformed {path} {cause}")
}

/// Why a task is buried.
fn why_text(alloc: Global, why: &Why) -> Result<String, AllocError>
    ensures { IfOk result (λ text. string_bytes text ≡ why_text why.now) }
{
    match why {
        Why::Tries { attempt } => counted(alloc, "tries", u64::from(*attempt)),
        Why::Malformed { path, cause } => malformed(alloc, path.as_str(), cause),
        Why::TooManyParts { count } => counted(alloc, "too many parts", *count),
    }
}

/// The line of a task that is buried.
fn dead_line(alloc: Global, id: TaskId, why: &Why) -> Result<String, AllocError>
    ensures { IfOk result (λ text. string_bytes text ≡ line_text (said.Buried id why.now)) }
{
    let why = why_text(alloc, why)?;
    longer_line(alloc, "dead", id, why.as_str())
}

/// What a worker says of a task.
pub fn line_of(alloc: Global, line: &Line) -> Result<String, AllocError>
    ensures { IfOk result (λ text. string_bytes text ≡ line_text line.now) }
{
    match line {
        Line::Done(id) => task_line(alloc, "done", *id),
        Line::Late(id) => task_line(alloc, "late", *id),
        Line::Missing { id, path } => longer_line(alloc, "missing", *id, path.as_str()),
        Line::Buried { id, cause } => dead_line(alloc, *id, cause),
        Line::Letter(id) => task_line(alloc, "dead-letter", *id),
    }
}

/// The line of a worker's end, after this word.
fn count_line(alloc: Global, word: &str, count: u64) -> Result<String, AllocError>
    ensures { IfOk result (λ text. string_bytes text ≡ line_with (spaced word.now (decimal count))) }
{
    let text = counted(alloc, word, count)?;
    line(alloc, text.as_str())
}

/// The line of a worker's end.
pub fn end_line(alloc: Global, end: End) -> Result<String, AllocError>
    ensures { IfOk result (λ text. string_bytes text ≡ end_text end) }
{
    match end {
        End::Finished { tasks } => count_line(alloc, "finished", tasks),
        End::Waiting { tasks } => count_line(alloc, "waiting", tasks),
        End::Letters { count } => count_line(alloc, "letters", count),
        End::Spent { turns } => count_line(alloc, "spent", turns),
    }
}
