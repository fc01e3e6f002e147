//! The moves of a task's name, each answered by one own act.
ghost use Rattle.std.specs.Prelude.{◌≡◌, ◌≤◌, ◌<◌, true, length, IfOk, IfSome};
ghost use Rattle.ig_defs.specs.Calls.{HasCause};
ghost use Rattle.ig_defs.specs.QueueNames.{queue_fits, task_of};
ghost use Rattle.ig_queue.specs.Moves.{leased_name};
ghost use Rattle.ig_rule.specs.QueueFiles.{Queued, Dead, Done, path_of};
ghost use Rattle.ig_task.specs.Pipeline.{is_allowed};
ghost use Rattle.ig_worker.specs.Acting.{lease_answer};
ghost use Rattle.ig_defs.specs.Answers.{answer_by, Answered, Shifts, WasThere};

use ig_queue::{Closed, Lease, Path, QueueName, bury, complete, lease};
use ig_store::{Store, StoreError};
use ig_task::Pipeline;
use std::alloc::Global;

/// Leases a task for so many seconds: the name that it has then, or `None` exactly where its file is gone.
pub(crate) fn take_lease<S: Store<Pipeline>>(
    alloc: Global,
    store: &mut S,
    queue: &Path,
    name: QueueName,
    now: u64,
    seconds: u64,
) -> Result<Option<QueueName>, StoreError>
    requires short { length queue.now ≤ 100 }
    requires fits { queue_fits name ≡ true }
    requires due { name.visible ≤ now }
    requires few { name.attempt < 999 }
    ensures rule { S.rule store.new ≡ S.rule store.old }
    ensures cause { HasCause (S.faults store.old) (S.faults store.new) result }
    ensures name { IfOk result (λ given. IfSome given (λ leased. leased ≡ leased_name now seconds name)) }
    ensures answered { S.tells → Answered (is_allowed (S.rule store.old)) (S.log store.old) (S.log store.new) (Shifts (path_of queue.now (Queued name)) (path_of queue.now (Queued (leased_name now seconds name)))) (answer_by lease_answer result) }
{
    match lease(alloc, store, queue, name, now, seconds) {
        Ok(Lease::Leased(given)) => Ok(Some(given)),
        Ok(Lease::Gone) => Ok(None),
        Err(error) => Err(error),
    }
}

/// Calls a task done; false exactly where its file is gone.
pub(crate) fn close<S: Store<Pipeline>>(
    alloc: Global,
    store: &mut S,
    queue: &Path,
    name: QueueName,
) -> Result<bool, StoreError>
    requires short { length queue.now ≤ 100 }
    requires fits { queue_fits name ≡ true }
    ensures rule { S.rule store.new ≡ S.rule store.old }
    ensures cause { HasCause (S.faults store.old) (S.faults store.new) result }
    ensures answered { S.tells → Answered (is_allowed (S.rule store.old)) (S.log store.old) (S.log store.new) (Shifts (path_of queue.now (Queued name)) (path_of queue.now (Done (task_of name)))) (answer_by WasThere result) }
{
    match complete(alloc, store, queue, name) {
        Ok(Closed::Done) => Ok(true),
        Ok(Closed::Late) => Ok(false),
        Err(error) => Err(error),
    }
}

/// Makes a task a dead letter; false exactly where its file is gone.
pub(crate) fn give_up<S: Store<Pipeline>>(
    alloc: Global,
    store: &mut S,
    queue: &Path,
    name: QueueName,
) -> Result<bool, StoreError>
    requires short { length queue.now ≤ 100 }
    requires fits { queue_fits name ≡ true }
    ensures rule { S.rule store.new ≡ S.rule store.old }
    ensures cause { HasCause (S.faults store.old) (S.faults store.new) result }
    ensures answered { S.tells → Answered (is_allowed (S.rule store.old)) (S.log store.old) (S.log store.new) (Shifts (path_of queue.now (Queued name)) (path_of queue.now (Dead (task_of name)))) (answer_by WasThere result) }
{
    match bury(alloc, store, queue, name) {
        Ok(Closed::Done) => Ok(true),
        Ok(Closed::Late) => Ok(false),
        Err(error) => Err(error),
    }
}
