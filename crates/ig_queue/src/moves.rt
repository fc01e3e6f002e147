//! The moves of a task's name: it is leased, done, or a dead letter.
ghost use Rattle.std.specs.Prelude.{◌≡◌, ◌≤◌, ◌<◌, true, length, IfOk};
ghost use Rattle.ig_defs.specs.Answers.{answer_by, Answered, Shifts, WasThere};
ghost use Rattle.ig_defs.specs.Calls.{HasCause};
ghost use Rattle.ig_defs.specs.Log.{files_of};
ghost use Rattle.ig_defs.specs.QueueNames.{queue_fits, task_of};
ghost use Rattle.ig_rule.specs.Facts.{Reader};
ghost use Rattle.ig_rule.specs.QueueFiles.{Queued, Dead, Done, path_of};
ghost use Rattle.ig_rule.specs.Sound.{Legal};
ghost use Rattle.ig_rule.specs.declared.role.Role.{Role};
ghost use Rattle.ig_queue.specs.Moves.{leased_name, IsLeaseOf, lease_made, close_made, OthersKeep, MayBeDoneBeside};

use crate::paths::{dead_path, done_path, queued_path};
use crate::types::{Closed, Lease};
use ig_defs::QueueName;
use ig_space::{Path, TaskId};
use ig_store::{Rule, Store, StoreError};
use std::alloc::Global;

/// The last second of which a name can tell.
const LAST_SECOND: u64 = 9_999_999_999;

/// The name of a task once it is leased for so many seconds.
fn leased(name: QueueName, now: u64, seconds: u64) -> QueueName
    requires few { name.attempt < 999 }
    ensures { result ≡ leased_name now seconds name }
{
    QueueName {
        visible: now.saturating_add(seconds).min(LAST_SECOND),
        attempt: name.attempt + 1,
        ..name
    }
}

/// The task of which this is a name.
fn task_of(name: QueueName) -> TaskId
    ensures { result ≡ task_of name }
{
    TaskId {
        stage: name.stage,
        task: name.task,
    }
}

/// Leases a task for so many seconds, if its file still has this name.
pub fn lease<R: Rule, S: Store<R>>(
    alloc: Global,
    store: &mut S,
    queue: &Path,
    name: QueueName,
    now: u64,
    seconds: u64,
) -> Result<Lease, StoreError>
    requires short { length queue.now ≤ 100 }
    requires fits { queue_fits name ≡ true }
    requires due { name.visible ≤ now }
    requires few { name.attempt < 999 }
    ensures rule { S.rule store.new ≡ S.rule store.old }
    ensures most { S.most store.new ≡ S.most store.old }
    ensures cause { HasCause (S.faults store.old) (S.faults store.new) result }
    ensures name { IfOk result (IsLeaseOf (leased_name now seconds name)) }
    ensures turn { S.tells → Answered (R.allows (S.rule store.old)) (S.log store.old) (S.log store.new) (Shifts (path_of queue.now (Queued name)) (path_of queue.now (Queued (leased_name now seconds name)))) (answer_by WasThere (lease_made result)) }
    ensures legal { S.tells → (read : Reader) (role : Role) → OthersKeep (R.allows (S.rule store.old)) read role queue.now → Legal read queue.now (S.log store.old) → Legal read queue.now (S.log store.new) }
{
    let given = leased(name, now, seconds);
    let from = queued_path(alloc, queue, name)?;
    let to = queued_path(alloc, queue, given)?;
    if store.shift(&from, &to)? {
        Ok(Lease::Leased(given))
    } else {
        Ok(Lease::Gone)
    }
}

/// Calls a task done, if its file still has this name.
pub fn complete<R: Rule, S: Store<R>>(
    alloc: Global,
    store: &mut S,
    queue: &Path,
    name: QueueName,
) -> Result<Closed, StoreError>
    requires short { length queue.now ≤ 100 }
    requires fits { queue_fits name ≡ true }
    ensures rule { S.rule store.new ≡ S.rule store.old }
    ensures most { S.most store.new ≡ S.most store.old }
    ensures cause { HasCause (S.faults store.old) (S.faults store.new) result }
    ensures turn { S.tells → Answered (R.allows (S.rule store.old)) (S.log store.old) (S.log store.new) (Shifts (path_of queue.now (Queued name)) (path_of queue.now (Done (task_of name)))) (answer_by WasThere (close_made result)) }
    ensures legal { S.tells → (read : Reader) (role : Role) → OthersKeep (R.allows (S.rule store.old)) read role queue.now → MayBeDoneBeside (R.allows (S.rule store.old)) read queue.now (files_of (S.log store.old)) (task_of name) → Legal read queue.now (S.log store.old) → Legal read queue.now (S.log store.new) }
{
    let from = queued_path(alloc, queue, name)?;
    let to = done_path(alloc, queue, task_of(name))?;
    if store.shift(&from, &to)? {
        Ok(Closed::Done)
    } else {
        Ok(Closed::Late)
    }
}

/// Makes a task a dead letter, if its file still has this name.
pub fn bury<R: Rule, S: Store<R>>(
    alloc: Global,
    store: &mut S,
    queue: &Path,
    name: QueueName,
) -> Result<Closed, StoreError>
    requires short { length queue.now ≤ 100 }
    requires fits { queue_fits name ≡ true }
    ensures rule { S.rule store.new ≡ S.rule store.old }
    ensures most { S.most store.new ≡ S.most store.old }
    ensures cause { HasCause (S.faults store.old) (S.faults store.new) result }
    ensures turn { S.tells → Answered (R.allows (S.rule store.old)) (S.log store.old) (S.log store.new) (Shifts (path_of queue.now (Queued name)) (path_of queue.now (Dead (task_of name)))) (answer_by WasThere (close_made result)) }
    ensures legal { S.tells → (read : Reader) (role : Role) → OthersKeep (R.allows (S.rule store.old)) read role queue.now → Legal read queue.now (S.log store.old) → Legal read queue.now (S.log store.new) }
{
    let from = queued_path(alloc, queue, name)?;
    let to = dead_path(alloc, queue, task_of(name))?;
    if store.shift(&from, &to)? {
        Ok(Closed::Done)
    } else {
        Ok(Closed::Late)
    }
}
