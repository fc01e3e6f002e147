//! Which tasks of a stage have a name in its queue, as three listings show.
ghost use Rattle.std.specs.Prelude.{◌≡◌, ◌≤◌, ◌<◌, ◌⊎◌, ℕ, List as list, [], ◌∷◌, length, slice_get, Some, true, false, IfOk, IfSome};
ghost use Rattle.ig_space.specs.Path.{joined};
ghost use Rattle.ig_defs.specs.declared.step.Act.TheVariants as act;
ghost use Rattle.ig_defs.specs.Calls.{HasCause};
ghost use Rattle.ig_defs.specs.Log.{files_of};
ghost use Rattle.ig_rule.specs.QueueFiles.{queue_of};
ghost use Rattle.ig_rule.specs.Stages.{Named, task_id};
ghost use Rattle.ig_record.specs.Sound.{is_sound};
ghost use Rattle.ig_record.specs.Stage.{task_count};
ghost use Rattle.ig_task.specs.Pipeline.{is_allowed};
ghost use Rattle.ig_stage.specs.Open.{Does, DoesSome, Makes, StaysOpen};
ghost use Rattle.ig_stage.specs.Shown.{listed_dir, IsNameOf, IsSet, Marks, ShowsTask};
ghost use Rattle.ig_stage.specs.Listings.{DoesList, DoesListAll};

use crate::calls::names;
use crate::paths;
use ig_queue::{parse_queue_name, parse_task_name};
use ig_record::Stage;
use ig_space::{Names, Path, TaskId, Text};
use ig_store::{Store, StoreError};
use ig_task::Pipeline;
use std::alloc::{AllocError, Global};

/// The directories of a queue that hold names of tasks.
#[derive(Clone, Copy)]
pub(crate) enum Listing {
    Queue,
    Dead,
    Done,
}

/// The task whose name this is in the directory that is listed.
fn task_named(listing: Listing, name: &str) -> Option<TaskId>
    ensures some { IfSome result (λ id. IsNameOf (listed_dir listing) name.now id) }
    ensures back { (id : TaskId) → IsNameOf (listed_dir listing) name.now id → result ≡ Some id }
{
    match listing {
        Listing::Queue => {
            let name = parse_queue_name(name)?;
            Some(TaskId {
                stage: name.stage,
                task: name.task,
            })
        }
        _ => parse_task_name(name),
    }
}

/// Sets the flag of a task of the stage with this number.
fn mark(shown: &mut [bool], number: u32, id: TaskId)
    ensures { Marks (λ k. task_id number k ≡ id) shown.old shown.new }
{
    let place = id.task as usize;
    if id.stage == number && place < shown.len() {
        shown[place] = true;
    }
}

/// Sets the flag of the task of the stage with this number whose name this is, if it is one's.
fn mark_name(shown: &mut [bool], number: u32, listing: Listing, name: &Text)
    ensures { Marks (λ k. IsNameOf (listed_dir listing) name.now (task_id number k)) shown.old shown.new }
{
    match task_named(listing, name.as_str()) {
        Some(id) => mark(shown, number, id),
        None => {}
    }
}

/// Sets the flags of the tasks of the stage with this number whose names are among these.
fn mark_all(shown: &mut [bool], number: u32, listing: Listing, given: &Names)
    ensures { Marks (ShowsTask (listed_dir listing) given.now number) shown.old shown.new }
{
    for name in given.as_slice() {
        mark_name(shown, number, listing, name);
    }
}

/// Sets the flags of the tasks of the stage with this number that a listing shows.
fn mark_listed<S: Store<Pipeline>>(
    alloc: Global,
    store: &mut S,
    queue: &Path,
    number: u32,
    listing: Listing,
    shown: &mut [bool],
) -> Result<(), StoreError>
    requires short { length queue.now ≤ 100 }
    ensures rule { S.rule store.new ≡ S.rule store.old }
    ensures cause { HasCause (S.faults store.old) (S.faults store.new) result }
    ensures some { S.tells → DoesSome (is_allowed (S.rule store.old)) (S.log store.old) (S.log store.new) }
    ensures acts { S.tells → IfOk result (λ done. DoesList (is_allowed (S.rule store.old)) queue.now number (listed_dir listing) shown.old shown.new (S.log store.old) (S.log store.new)) }
    ensures stays { S.tells → (s : Stage) → Makes (S.rule store.old) queue.now number s (S.log store.old) → StaysOpen queue.now number s (S.log store.old) (S.log store.new) }
    ensures named { S.tells → (s : Stage) → Makes (S.rule store.old) queue.now number s (S.log store.old) → IfOk result (λ done. (k : ℕ) → IsSet shown.new k → IsSet shown.old k ⊎ Named (queue_of queue.now (files_of (S.log store.new))) (task_id number k)) }
{
    let dir = paths::listed_dir(alloc, queue, listing)?;
    let given = names(store, &dir)?;
    mark_all(shown, number, listing, &given);
    Ok(())
}

/// A flag for each task, none of them set.
pub(crate) fn none_shown(alloc: Global, tasks: u32) -> Result<Vec<bool>, AllocError>
    ensures each { IfOk result (λ shown. (k : ℕ) → k < tasks → slice_get shown.items k ≡ Some false) }
    ensures same { IfOk result (λ shown. length shown.items ≡ tasks) }
{
    Ok(vec![in alloc; false; tasks as usize]?)
}

/// Sets the flags of the tasks of the stage with this number that the three listings show.
fn mark_shown<S: Store<Pipeline>>(
    alloc: Global,
    store: &mut S,
    queue: &Path,
    number: u32,
    shown: &mut [bool],
) -> Result<(), StoreError>
    requires short { length queue.now ≤ 100 }
    requires few { number < 10000 }
    requires small { length shown.old ≤ 1000000 }
    requires fresh { (k : ℕ) → k < length shown.old → slice_get shown.old k ≡ Some false }
    ensures rule { S.rule store.new ≡ S.rule store.old }
    ensures cause { HasCause (S.faults store.old) (S.faults store.new) result }
    ensures some { S.tells → DoesSome (is_allowed (S.rule store.old)) (S.log store.old) (S.log store.new) }
    ensures acts { S.tells → IfOk result (λ done. DoesListAll (is_allowed (S.rule store.old)) queue.now number (length shown.old) shown.new (S.log store.old) (S.log store.new)) }
    ensures stays { S.tells → (s : Stage) → Makes (S.rule store.old) queue.now number s (S.log store.old) → StaysOpen queue.now number s (S.log store.old) (S.log store.new) }
    ensures named { S.tells → (s : Stage) → Makes (S.rule store.old) queue.now number s (S.log store.old) → IfOk result (λ done. (k : ℕ) → IsSet shown.new k → Named (queue_of queue.now (files_of (S.log store.new))) (task_id number k)) }
{
    mark_listed(alloc, store, queue, number, Listing::Queue, shown)?;
    mark_listed(alloc, store, queue, number, Listing::Dead, shown)?;
    mark_listed(alloc, store, queue, number, Listing::Done, shown)
}

/// A flag for each task of the stage with this number, set where one of the three listings shows a name of the task.
pub(crate) fn shown_tasks<S: Store<Pipeline>>(
    alloc: Global,
    store: &mut S,
    queue: &Path,
    number: u32,
    tasks: u32,
) -> Result<Vec<bool>, StoreError>
    requires short { length queue.now ≤ 100 }
    requires few { number < 10000 }
    requires small { tasks ≤ 1000000 }
    ensures rule { S.rule store.new ≡ S.rule store.old }
    ensures cause { HasCause (S.faults store.old) (S.faults store.new) result }
    ensures some { S.tells → DoesSome (is_allowed (S.rule store.old)) (S.log store.old) (S.log store.new) }
    ensures same { IfOk result (λ shown. length shown.items ≡ tasks) }
    ensures acts { S.tells → IfOk result (λ shown. DoesListAll (is_allowed (S.rule store.old)) queue.now number tasks shown.items (S.log store.old) (S.log store.new)) }
    ensures stays { S.tells → (s : Stage) → Makes (S.rule store.old) queue.now number s (S.log store.old) → StaysOpen queue.now number s (S.log store.old) (S.log store.new) }
    ensures named { S.tells → (s : Stage) → Makes (S.rule store.old) queue.now number s (S.log store.old) → IfOk result (λ shown. (k : ℕ) → IsSet shown.items k → Named (queue_of queue.now (files_of (S.log store.new))) (task_id number k)) }
{
    let mut shown = none_shown(alloc, tasks)?;
    mark_shown(alloc, store, queue, number, shown.as_mut_slice())?;
    Ok(shown)
}
