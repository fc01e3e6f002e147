//! Reads a task from its text.
ghost use Rattle.std.specs.Prelude.{◌≡◌, ◌<◌, ◌&&◌, nat_lt, true, IfOk, IfErr};
ghost use Rattle.std.specs.Str.{bytes_eq};
ghost use Rattle.serde_json.specs.View.{view as data_of};
ghost use Rattle.ig_space.specs.declared.task_id.TaskId.{TaskId};
ghost use Rattle.ig_record.specs.Answers.{Gives, GivesBy, IsGiven, Refuses, task_fault};
ghost use Rattle.ig_record.specs.Reading.{filed, id_of, small_of, task_in, IsTask};
ghost use Rattle.ig_record.specs.Record.{task_text};
ghost use Rattle.ig_record.specs.Sound.{is_sound};
ghost use Rattle.ig_record.specs.Stage.{task_count};

use crate::error::{bad_record, found};
use crate::members::number_at;
use crate::parse::parse;
use crate::{RecordError, Stage, write_task};
use ig_space::TaskId;
use serde_json::Value;
use std::alloc::{AllocError, Global};

/// The number of 32 bits at this member.
fn small_at(value: &Value, name: &str) -> Option<u32>
    ensures { result ≡ small_of (data_of value.now) name.now }
{
    let number = number_at(value, name)?;
    if number <= u64::from(u32::MAX) {
        Some(number as u32)
    } else {
        None
    }
}

/// The task with these members.
#[tactic(auto, unfolding(crate::specs::Reading::id_of))]
fn read_id(value: &Value) -> Option<TaskId>
    ensures { result ≡ id_of (data_of value.now) }
{
    let stage = small_at(value, "stage")?;
    let task = small_at(value, "task")?;
    Some(TaskId { stage, task })
}

/// Whether the stage has the task, and its text has these bytes.
fn is_filed(alloc: Global, bytes: &[u8], id: TaskId, stage: &Stage) -> Result<bool, AllocError>
    requires { is_sound stage.now ≡ true }
    ensures { IfOk result (λ b. b ≡ (nat_lt id.task (task_count stage.now) && bytes_eq bytes.now (task_text id stage.now))) }
{
    if id.task >= stage.tasks() {
        return Ok(false);
    }
    let text = write_task(alloc, id, stage)?;
    Ok(bytes == text.as_bytes())
}

/// The task, where the stage has it and its text has these bytes.
fn checked(alloc: Global, bytes: &[u8], id: TaskId, stage: &Stage) -> Result<TaskId, RecordError>
    requires { is_sound stage.now ≡ true }
    ensures { Gives (λ x. x) result (filed stage.now bytes.now id) }
{
    if is_filed(alloc, bytes, id, stage)? {
        Ok(id)
    } else {
        Err(bad_record(alloc))
    }
}

/// The task of the stage whose text has these bytes.
#[tactic(auto, unfolding(crate::specs::Reading::task_in))]
fn read_text(alloc: Global, bytes: &[u8], stage: &Stage) -> Result<TaskId, RecordError>
    requires { is_sound stage.now ≡ true }
    ensures { Gives (λ x. x) result (task_in stage.now bytes.now) }
{
    let members = parse(alloc, bytes)?;
    let id = found(alloc, read_id(&members))?;
    checked(alloc, bytes, id, stage)
}

/// The task of the stage whose text has these bytes. Each other order, space, extra or missing member is refused.
pub fn read_task(alloc: Global, bytes: &[u8], stage: &Stage) -> Result<TaskId, RecordError>
    requires { is_sound stage.now ≡ true }
    ensures value { GivesBy (task_fault bytes.now) (λ x. x) result (task_in stage.now bytes.now) }
    ensures ok { IfOk result (λ id. (id.task < task_count stage.now) × (bytes.now ≡ task_text id stage.now)) }
    ensures back { (id : TaskId) → IsTask id stage.now bytes.now → IsGiven id result }
    ensures refused { IfErr result (Refuses (task_fault bytes.now) (λ id. IsTask id stage.now bytes.now)) }
{
    read_text(alloc, bytes, stage)
}
