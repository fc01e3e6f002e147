//! The text of a task in the files of a queue.
ghost use Rattle.std.specs.Prelude.{◌≡◌, ◌<◌, IfOk, true};
ghost use Rattle.serde_json.specs.View.{view as data_of};
ghost use Rattle.ig_record.specs.Record.{task_data, task_text};
ghost use Rattle.ig_record.specs.Sound.{is_sound};
ghost use Rattle.ig_record.specs.Stage.{task_count};

use crate::Stage;
use ig_info::point_value;
use ig_space::{Box3, Bytes, TaskId};
use serde_json::{Value, json};
use std::alloc::{AllocError, Global};

/// The members of a task with this box.
fn task_value(alloc: Global, id: TaskId, area: Box3) -> Result<Value, AllocError>
    ensures { IfOk result (λ v. data_of v ≡ task_data id.stage id.task area) }
{
    let hi = point_value(alloc, area.hi)?;
    let lo = point_value(alloc, area.lo)?;
    json!(in alloc; {
        "hi": hi,
        "lo": lo,
        "stage": u64::from(id.stage),
        "task": u64::from(id.task)
    })
}

/// The text of a task of the stage: its numbers and its box, as compact JSON with the members in the order of their names.
pub fn write_task(alloc: Global, id: TaskId, stage: &Stage) -> Result<Bytes, AllocError>
    requires sound { is_sound stage.now ≡ true }
    requires below { id.task < task_count stage.now }
    ensures { IfOk result (λ bytes. bytes ≡ task_text id stage.now) }
{
    let value = task_value(alloc, id, stage.task_box(id.task))?;
    let text = value.to_string(alloc)?;
    Ok(Bytes::from_vec(text.into_bytes()))
}
