ghost use Rattle.std.specs.Prelude.{◌≡◌, ◌≢◌, ◌≤◌, ℕ, IfOk, IfSome, IsNone, length, string_bytes, true};
ghost use Rattle.ig_space.specs.Path.{is_segment};
ghost use Rattle.ig_defs.specs.QueueNames.{stage_fits, stage_file, task_fits, task_file, queue_fits, queue_file};

use crate::digits::take_number;
use ig_defs::QueueName;
use ig_space::{Path, TaskId};
use std::alloc::{AllocError, Global};

/// The path of one short segment.
fn path_of(alloc: Global, text: &str) -> Result<Path, AllocError>
    requires segment { is_segment text.now ≡ true }
    requires short { length text.now ≤ 400 }
    ensures same { IfOk result (λ path. path ≡ text.now) }
    ensures segment { IfOk result (λ path. is_segment path ≡ true) }
{
    Ok(Path::new(alloc, text)?.unwrap())
}

/// The text of a queue's file.
fn queue_text(alloc: Global, name: QueueName) -> Result<String, AllocError>
    requires { queue_fits name ≡ true }
    ensures { IfOk result (λ text. string_bytes text ≡ queue_file name) }
{
    format!(in alloc;
        "{:010}--{:04}-{:06}-{:03}.json",
        name.visible, name.stage, name.task, name.attempt
    )
}

/// The text of the file of a task that is done or dead.
fn task_text(alloc: Global, id: TaskId) -> Result<String, AllocError>
    requires { task_fits id ≡ true }
    ensures { IfOk result (λ text. string_bytes text ≡ task_file id) }
{
    format!(in alloc; "{:04}-{:06}.json", id.stage, id.task)
}

/// The text of a stage's file.
fn stage_text(alloc: Global, stage: u32) -> Result<String, AllocError>
    requires { stage_fits stage ≡ true }
    ensures { IfOk result (λ text. string_bytes text ≡ stage_file stage) }
{
    format!(in alloc; "{stage:04}.json")
}

/// The name of the file of a task in the queue, `VVVVVVVVVV--SSSS-TTTTTT-AAA.json`: the second from which on it may be
/// leased, its stage, its number there, and how often it was leased.
pub fn queue_name(alloc: Global, name: QueueName) -> Result<Path, AllocError>
    requires { queue_fits name ≡ true }
    ensures name { IfOk result (λ path. path ≡ queue_file name) }
    ensures segment { IfOk result (λ path. is_segment path ≡ true) }
    ensures short { IfOk result (λ path. length path ≡ 32) }
{
    path_of(alloc, queue_text(alloc, name)?.as_str())
}

/// The task of the queue whose file has this name; `None` exactly where none has it.
pub fn parse_queue_name(text: &str) -> Option<QueueName>
    ensures some { IfSome result (λ name. (queue_fits name ≡ true) × (text.now ≡ queue_file name)) }
    ensures back { (name : QueueName) → queue_fits name ≡ true → text.now ≡ queue_file name → IfSome result (λ found. found ≡ name) }
    ensures none { IsNone result → (name : QueueName) → queue_fits name ≡ true → text.now ≢ queue_file name }
{
    let (visible, rest) = take_number(text.as_bytes(), 10, b"--")?;
    let (stage, rest) = take_number(rest, 4, b"-")?;
    let (task, rest) = take_number(rest, 6, b"-")?;
    let (attempt, rest) = take_number(rest, 3, b".json")?;
    if !rest.is_empty() {
        return None;
    }
    Some(QueueName {
        visible,
        stage: stage as u32,
        task: task as u32,
        attempt: attempt as u32,
    })
}

/// The name of the file of a task that is done or dead, `SSSS-TTTTTT.json`: its stage, and its number there.
pub fn task_name(alloc: Global, id: TaskId) -> Result<Path, AllocError>
    requires { task_fits id ≡ true }
    ensures name { IfOk result (λ path. path ≡ task_file id) }
    ensures segment { IfOk result (λ path. is_segment path ≡ true) }
    ensures short { IfOk result (λ path. length path ≡ 16) }
{
    path_of(alloc, task_text(alloc, id)?.as_str())
}

/// The task that is done or dead whose file has this name; `None` exactly where none has it.
pub fn parse_task_name(text: &str) -> Option<TaskId>
    ensures some { IfSome result (λ id. (task_fits id ≡ true) × (text.now ≡ task_file id)) }
    ensures back { (id : TaskId) → task_fits id ≡ true → text.now ≡ task_file id → IfSome result (λ found. found ≡ id) }
    ensures none { IsNone result → (id : TaskId) → task_fits id ≡ true → text.now ≢ task_file id }
{
    let (stage, rest) = take_number(text.as_bytes(), 4, b"-")?;
    let (task, rest) = take_number(rest, 6, b".json")?;
    if !rest.is_empty() {
        return None;
    }
    Some(TaskId {
        stage: stage as u32,
        task: task as u32,
    })
}

/// The name of a stage's file, `SSSS.json`.
pub fn stage_name(alloc: Global, stage: u32) -> Result<Path, AllocError>
    requires { stage_fits stage ≡ true }
    ensures name { IfOk result (λ path. path ≡ stage_file stage) }
    ensures segment { IfOk result (λ path. is_segment path ≡ true) }
    ensures short { IfOk result (λ path. length path ≡ 9) }
{
    path_of(alloc, stage_text(alloc, stage)?.as_str())
}

/// The stage whose file has this name; `None` exactly where none has it.
pub fn parse_stage_name(text: &str) -> Option<u32>
    ensures some { IfSome result (λ stage. (stage_fits stage ≡ true) × (text.now ≡ stage_file stage)) }
    ensures back { (stage : ℕ) → stage_fits stage ≡ true → text.now ≡ stage_file stage → IfSome result (λ found. found ≡ stage) }
    ensures none { IsNone result → (stage : ℕ) → stage_fits stage ≡ true → text.now ≢ stage_file stage }
{
    let (stage, rest) = take_number(text.as_bytes(), 4, b".json")?;
    if !rest.is_empty() {
        return None;
    }
    Some(stage as u32)
}
