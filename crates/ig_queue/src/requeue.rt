//! The moves by which a task may be leased again: its lease is ended, or it is no dead letter any more.
ghost use Rattle.std.specs.Prelude.{◌≡◌, ◌≤◌, true, length};
ghost use Rattle.ig_defs.specs.Answers.{answer_by, Answered, Shifts, WasThere};
ghost use Rattle.ig_defs.specs.Calls.{HasCause};
ghost use Rattle.ig_defs.specs.QueueNames.{queue_fits, task_fits};
ghost use Rattle.ig_rule.specs.Facts.{Reader};
ghost use Rattle.ig_rule.specs.QueueFiles.{Queued, Dead, path_of};
ghost use Rattle.ig_rule.specs.Rule.{fresh_name};
ghost use Rattle.ig_rule.specs.Sound.{Legal};
ghost use Rattle.ig_rule.specs.declared.role.Role.{Role};
ghost use Rattle.ig_queue.specs.Moves.{OthersKeep};
ghost use Rattle.ig_queue.specs.Requeued.{released_name};

use crate::paths::{dead_path, queued_path};
use ig_defs::QueueName;
use ig_space::{Path, TaskId};
use ig_store::{Rule, Store, StoreError};
use std::alloc::Global;

/// The name of a task whose lease is ended.
fn released(name: QueueName) -> QueueName
    ensures { result ≡ released_name name }
{
    QueueName { visible: 0, ..name }
}

/// The name of a task as if it had never been leased.
fn revived(id: TaskId) -> QueueName
    ensures { result ≡ fresh_name id }
{
    QueueName {
        visible: 0,
        stage: id.stage,
        task: id.task,
        attempt: 0,
    }
}

/// Ends the lease of a task, if its file still has this name: the task may be leased at once. False exactly where the file had
/// another name by then.
pub fn release<R: Rule, S: Store<R>>(
    alloc: Global,
    store: &mut S,
    queue: &Path,
    name: QueueName,
) -> Result<bool, StoreError>
    requires short { length queue.now ≤ 100 }
    requires fits { queue_fits name ≡ true }
    ensures rule { S.rule store.new ≡ S.rule store.old }
    ensures most { S.most store.new ≡ S.most store.old }
    ensures cause { HasCause (S.faults store.old) (S.faults store.new) result }
    ensures turn { S.tells → Answered (R.allows (S.rule store.old)) (S.log store.old) (S.log store.new) (Shifts (path_of queue.now (Queued name)) (path_of queue.now (Queued (released_name name)))) (answer_by WasThere result) }
    ensures legal { S.tells → (read : Reader) (role : Role) → OthersKeep (R.allows (S.rule store.old)) read role queue.now → Legal read queue.now (S.log store.old) → Legal read queue.now (S.log store.new) }
{
    let from = queued_path(alloc, queue, name)?;
    let to = queued_path(alloc, queue, released(name))?;
    store.shift(&from, &to)
}

/// Puts a dead letter back into the queue, as if it had never been leased. False exactly where the task was no dead letter.
pub fn revive<R: Rule, S: Store<R>>(
    alloc: Global,
    store: &mut S,
    queue: &Path,
    id: TaskId,
) -> Result<bool, StoreError>
    requires short { length queue.now ≤ 100 }
    requires fits { task_fits id ≡ true }
    ensures rule { S.rule store.new ≡ S.rule store.old }
    ensures most { S.most store.new ≡ S.most store.old }
    ensures cause { HasCause (S.faults store.old) (S.faults store.new) result }
    ensures turn { S.tells → Answered (R.allows (S.rule store.old)) (S.log store.old) (S.log store.new) (Shifts (path_of queue.now (Dead id)) (path_of queue.now (Queued (fresh_name id)))) (answer_by WasThere result) }
    ensures legal { S.tells → (read : Reader) (role : Role) → OthersKeep (R.allows (S.rule store.old)) read role queue.now → Legal read queue.now (S.log store.old) → Legal read queue.now (S.log store.new) }
{
    let from = dead_path(alloc, queue, id)?;
    let to = queued_path(alloc, queue, revived(id))?;
    store.shift(&from, &to)
}
