//! Puts the files of a stage that is recorded and not sealed: its info, the names of its tasks and its seal.
ghost use Rattle.std.specs.Prelude.{◌≡◌, ◌≤◌, ◌<◌, ◌++◌, ℕ, List as list, [], ◌∷◌, length, map, slice_get, Some, true, false, IfOk};
ghost use Rattle.ig_defs.specs.Calls.{HasCause};
ghost use Rattle.ig_defs.specs.Log.{files_of};
ghost use Rattle.ig_rule.specs.QueueFiles.{queue_of};
ghost use Rattle.ig_rule.specs.Sound.{Legal};
ghost use Rattle.ig_rule.specs.Stages.{Named, Sealed, task_id};
ghost use Rattle.ig_record.specs.Sound.{is_sound};
ghost use Rattle.ig_record.specs.Stage.{task_count};
ghost use Rattle.ig_meaning.specs.QueueActs.{name_file, put_of, seal_file};
ghost use Rattle.ig_meaning.specs.Jobs.{info_files};
ghost use Rattle.ig_task.specs.Facts.{stage_reader};
ghost use Rattle.ig_task.specs.Pipeline.{is_allowed};
ghost use Rattle.ig_stage.specs.Open.{AllNamed, Does, DoesSome, HasInfo, Makes, StaysOpen};
ghost use Rattle.ig_stage.specs.Shown.{if_unset, name_puts, unset, IsSet};

use crate::calls::put;
use crate::paths::name_path;
use ig_queue::seal_path;
use ig_record::{Stage, write_task};
use ig_space::{Path, TaskId};
use ig_store::{Store, StoreError};
use ig_task::Pipeline;
use std::alloc::Global;

/// Puts the info of the stage, if it has one.
pub(crate) fn put_info<S: Store<Pipeline>>(store: &mut S, stage: &Stage) -> Result<(), StoreError>
    ensures rule { S.rule store.new ≡ S.rule store.old }
    ensures cause { HasCause (S.faults store.old) (S.faults store.new) result }
    ensures some { S.tells → DoesSome (is_allowed (S.rule store.old)) (S.log store.old) (S.log store.new) }
    ensures acts { S.tells → IfOk result (λ done. Does (is_allowed (S.rule store.old)) (S.log store.old) (S.log store.new) (map put_of (info_files stage.now.info))) }
    ensures stays { S.tells → (q : list ℕ) (n : ℕ) → Makes (S.rule store.old) q n stage.now (S.log store.old) → StaysOpen q n stage.now (S.log store.old) (S.log store.new) }
    ensures stands { S.tells → IfOk result (λ done. HasInfo stage.now (files_of (S.log store.new))) }
{
    match &stage.info {
        Some(info) => put(store, &info.path, info.text.as_bytes()),
        None => Ok(()),
    }
}

/// Puts the fresh name of a task.
fn put_name<S: Store<Pipeline>>(
    alloc: Global,
    store: &mut S,
    queue: &Path,
    number: u32,
    stage: &Stage,
    task: u32,
) -> Result<(), StoreError>
    requires short { length queue.now ≤ 100 }
    requires few { number < 10000 }
    requires sound { is_sound stage.now ≡ true }
    requires below { task < task_count stage.now }
    requires small { task < 1000000 }
    ensures rule { S.rule store.new ≡ S.rule store.old }
    ensures cause { HasCause (S.faults store.old) (S.faults store.new) result }
    ensures some { S.tells → DoesSome (is_allowed (S.rule store.old)) (S.log store.old) (S.log store.new) }
    ensures acts { S.tells → IfOk result (λ done. Does (is_allowed (S.rule store.old)) (S.log store.old) (S.log store.new) (put_of (name_file queue.now number stage.now task) ∷ [])) }
    ensures stays { S.tells → Makes (S.rule store.old) queue.now number stage.now (S.log store.old) → StaysOpen queue.now number stage.now (S.log store.old) (S.log store.new) }
    ensures named { S.tells → IfOk result (λ done. Named (queue_of queue.now (files_of (S.log store.new))) (task_id number task)) }
{
    let path = name_path(alloc, queue, number, task)?;
    let id = TaskId {
        stage: number,
        task,
    };
    let text = write_task(alloc, id, stage)?;
    put(store, &path, text.as_bytes())
}

/// Puts the fresh name of a task whose flag is not set.
fn put_missing<S: Store<Pipeline>>(
    alloc: Global,
    store: &mut S,
    queue: &Path,
    number: u32,
    stage: &Stage,
    shown: &[bool],
    task: u32,
) -> Result<(), StoreError>
    requires short { length queue.now ≤ 100 }
    requires few { number < 10000 }
    requires sound { is_sound stage.now ≡ true }
    requires flags { length shown.now ≡ task_count stage.now }
    requires below { task < task_count stage.now }
    requires small { task < 1000000 }
    ensures rule { S.rule store.new ≡ S.rule store.old }
    ensures cause { HasCause (S.faults store.old) (S.faults store.new) result }
    ensures some { S.tells → DoesSome (is_allowed (S.rule store.old)) (S.log store.old) (S.log store.new) }
    ensures acts { S.tells → IfOk result (λ done. Does (is_allowed (S.rule store.old)) (S.log store.old) (S.log store.new) (name_puts queue.now number stage.now (if_unset (slice_get shown.now task) task))) }
    ensures stays { S.tells → Makes (S.rule store.old) queue.now number stage.now (S.log store.old) → StaysOpen queue.now number stage.now (S.log store.old) (S.log store.new) }
    ensures named { S.tells → IfOk result (λ done. slice_get shown.now task ≡ Some false → Named (queue_of queue.now (files_of (S.log store.new))) (task_id number task)) }
{
    if shown[task as usize] {
        return Ok(());
    }
    put_name(alloc, store, queue, number, stage, task)
}

/// Puts the fresh name of each task whose flag is not set, in order.
fn put_names<S: Store<Pipeline>>(
    alloc: Global,
    store: &mut S,
    queue: &Path,
    number: u32,
    stage: &Stage,
    shown: &[bool],
) -> Result<(), StoreError>
    requires short { length queue.now ≤ 100 }
    requires few { number < 10000 }
    requires sound { is_sound stage.now ≡ true }
    requires flags { length shown.now ≡ task_count stage.now }
    ensures rule { S.rule store.new ≡ S.rule store.old }
    ensures cause { HasCause (S.faults store.old) (S.faults store.new) result }
    ensures some { S.tells → DoesSome (is_allowed (S.rule store.old)) (S.log store.old) (S.log store.new) }
    ensures acts { S.tells → IfOk result (λ done. Does (is_allowed (S.rule store.old)) (S.log store.old) (S.log store.new) (name_puts queue.now number stage.now (unset shown.now (task_count stage.now)))) }
    ensures stays { S.tells → Makes (S.rule store.old) queue.now number stage.now (S.log store.old) → StaysOpen queue.now number stage.now (S.log store.old) (S.log store.new) }
    ensures named { S.tells → Makes (S.rule store.old) queue.now number stage.now (S.log store.old) → IfOk result (λ done. (k : ℕ) → k < task_count stage.now → slice_get shown.now k ≡ Some false → Named (queue_of queue.now (files_of (S.log store.new))) (task_id number k)) }
{
    for task in 0..stage.tasks() {
        put_missing(alloc, store, queue, number, stage, shown, task)?;
    }
    Ok(())
}

/// Puts the seal of the stage with this number.
fn put_seal<S: Store<Pipeline>>(
    alloc: Global,
    store: &mut S,
    queue: &Path,
    number: u32,
) -> Result<(), StoreError>
    requires short { length queue.now ≤ 100 }
    requires few { number < 10000 }
    ensures rule { S.rule store.new ≡ S.rule store.old }
    ensures cause { HasCause (S.faults store.old) (S.faults store.new) result }
    ensures some { S.tells → DoesSome (is_allowed (S.rule store.old)) (S.log store.old) (S.log store.new) }
    ensures acts { S.tells → IfOk result (λ done. Does (is_allowed (S.rule store.old)) (S.log store.old) (S.log store.new) (put_of (seal_file queue.now number) ∷ [])) }
    ensures legal { S.tells → (s : Stage) → Makes (S.rule store.old) queue.now number s (S.log store.old) → HasInfo s (files_of (S.log store.old)) → AllNamed queue.now number s (files_of (S.log store.old)) → Legal stage_reader queue.now (S.log store.new) }
    ensures sealed { S.tells → IfOk result (λ done. Sealed (queue_of queue.now (files_of (S.log store.new))) number) }
{
    let path = seal_path(alloc, queue, number)?;
    put(store, &path, b"sealed\n")
}

/// Puts the fresh name of each task whose flag is not set, in order, and then the seal.
pub(crate) fn fill<S: Store<Pipeline>>(
    alloc: Global,
    store: &mut S,
    queue: &Path,
    number: u32,
    stage: &Stage,
    shown: &[bool],
) -> Result<(), StoreError>
    requires short { length queue.now ≤ 100 }
    requires few { number < 10000 }
    requires sound { is_sound stage.now ≡ true }
    requires flags { length shown.now ≡ task_count stage.now }
    ensures rule { S.rule store.new ≡ S.rule store.old }
    ensures cause { HasCause (S.faults store.old) (S.faults store.new) result }
    ensures some { S.tells → DoesSome (is_allowed (S.rule store.old)) (S.log store.old) (S.log store.new) }
    ensures acts { S.tells → IfOk result (λ done. Does (is_allowed (S.rule store.old)) (S.log store.old) (S.log store.new) (map put_of (map (name_file queue.now number stage.now) (unset shown.now (task_count stage.now)) ++ seal_file queue.now number ∷ []))) }
    ensures legal { S.tells → Makes (S.rule store.old) queue.now number stage.now (S.log store.old) → HasInfo stage.now (files_of (S.log store.old)) → ((k : ℕ) → IsSet shown.now k → Named (queue_of queue.now (files_of (S.log store.old))) (task_id number k)) → Legal stage_reader queue.now (S.log store.new) }
    ensures sealed { S.tells → IfOk result (λ done. Sealed (queue_of queue.now (files_of (S.log store.new))) number) }
{
    put_names(alloc, store, queue, number, stage, shown)?;
    put_seal(alloc, store, queue, number)
}
