//! What a command did, and the lines that tell it, each with its line end.
ghost use Rattle.std.specs.Prelude.{◌≡◌, IfOk, string_bytes};
ghost use Rattle.ig_defs.specs.QueueNames.{digits};
ghost use Rattle.ig_meaning.specs.Lines.{queue_line as line_in_queue, ran_line as line_of_ran};
ghost use Rattle.ig_cli.specs.Report.{done_text, made_text, ran_text};

use ig_record::{Kind, kind_word};
use ig_stage::{Made, Ran, RanStage};
use std::alloc::{AllocError, Global};

/// What a command did.
#[derive(Debug, Drop)]
pub enum Done {
    /// It ran these stages.
    Ran(Ran),
    /// It made this stage in a queue.
    Made(Made),
}

/// The last four digits of a number.
pub fn four_digits(alloc: Global, number: u32) -> Result<String, AllocError>
    ensures { IfOk result (λ text. string_bytes text ≡ digits 4 number) }
{
    let last = number % 10000;
    format!(in alloc; "{last:04}")
}

/// The line of a stage of which all tasks were run.
fn ran_line(alloc: Global, ran: RanStage) -> Result<String, AllocError>
    ensures { IfOk result (λ line. string_bytes line ≡ line_of_ran ran.kind ran.tasks) }
{
    let kind = kind_word(ran.kind);
    let tasks = ran.tasks;
    format!(in alloc; "ran {kind} tasks {tasks}\n")
}

/// The lines of these stages, in order.
fn ran_lines(alloc: Global, ran: &Ran) -> Result<String, AllocError>
    ensures { IfOk result (λ text. string_bytes text ≡ ran_text ran.now) }
{
    let mut text = String::new(alloc);
    for stage in ran.as_slice() {
        let line = ran_line(alloc, *stage)?;
        text.push_str(line.as_str())?;
    }
    Ok(text)
}

/// The line of a stage of a queue, after this word.
fn queue_line(
    alloc: Global,
    word: &str,
    stage: u32,
    kind: Kind,
    tasks: u32,
) -> Result<String, AllocError>
    ensures { IfOk result (λ line. string_bytes line ≡ line_in_queue word.now stage kind tasks) }
{
    let (number, kind) = (four_digits(alloc, stage)?, kind_word(kind));
    format!(in alloc; "{word} {number} {kind} tasks {tasks}\n")
}

/// The line of the stage that was made in a queue.
fn made_line(alloc: Global, made: &Made) -> Result<String, AllocError>
    ensures { IfOk result (λ text. string_bytes text ≡ made_text made.now) }
{
    match *made {
        Made::New { stage, kind, tasks } => queue_line(alloc, "made", stage, kind, tasks),
        Made::Continued { stage, kind, tasks } => {
            queue_line(alloc, "continued", stage, kind, tasks)
        }
    }
}

/// The lines that tell what was done.
pub fn lines_of(alloc: Global, done: &Done) -> Result<String, AllocError>
    ensures { IfOk result (λ text. string_bytes text ≡ done_text done.now) }
{
    match done {
        Done::Ran(ran) => ran_lines(alloc, ran),
        Done::Made(made) => made_line(alloc, made),
    }
}
