//! How many tasks there are, and how many of them a listing does not show.
ghost use Rattle.std.specs.Prelude.{◌≡◌, ◌≤◌, ◌<◌, ◌^◌, ◌||◌, ℕ, List as list, true, IfOk, IfSome, OnOk};
ghost use Rattle.std.specs.BTreeSet.{contains};
ghost use Rattle.std.specs.Ordering.{nat_cmp};
ghost use Rattle.ig_defs.specs.QueueNames.{task_fits};
ghost use Rattle.ig_worker.specs.Counting.{HasListed, Names as NamesTask, is_placed, place_of};
ghost use Rattle.ig_worker.specs.Stages.{tasks_listed, task_named, unlisted};

use crate::Ahead;
use ig_queue::parse_task_name;
use ig_space::{Names, TaskId, Text};
use std::alloc::{AllocError, Global};
use std::collections::BTreeSet;

/// The task whose file has this name.
fn task_named(name: &Text) -> Option<TaskId>
    ensures named { result ≡ task_named name.now }
    ensures fits { IfSome result (λ id. task_fits id ≡ true) }
    ensures tells { NamesTask name.now result }
{
    parse_task_name(name.as_str())
}

/// The tasks that a listing shows.
pub(crate) fn tasks_listed(alloc: Global, names: &Names) -> Result<Ahead<TaskId>, AllocError>
    ensures { IfOk result (λ ids. ids ≡ tasks_listed names.now) }
{
    let mut ids = Ahead::new(alloc);
    for name in names.as_slice() {
        if let Some(id) = task_named(name) {
            ids.push(id)?;
        }
    }
    Ok(ids)
}

/// The place of a task among those of all stages.
fn place_of(id: TaskId) -> u64
    requires { task_fits id ≡ true }
    ensures { result ≡ place_of id }
{
    u64::from(id.stage) * 1_000_000 + u64::from(id.task)
}

/// Adds the place of this task, if it is one.
fn add_place(places: &mut BTreeSet<u64>, id: Option<TaskId>) -> Result<(), AllocError>
    requires { IfSome id (λ id. task_fits id ≡ true) }
    ensures { OnOk result ((place : ℕ) → contains nat_cmp places.new place ≡ (is_placed id place || contains nat_cmp places.old place)) }
{
    if let Some(id) = id {
        places.insert(place_of(id))?;
    }
    Ok(())
}

/// The places of the tasks that a listing shows.
pub(crate) fn places_listed(alloc: Global, names: &Names) -> Result<BTreeSet<u64>, AllocError>
    ensures { IfOk result (λ places. HasListed names.now places) }
{
    let mut places = BTreeSet::new(alloc);
    for name in names.as_slice() {
        add_place(&mut places, task_named(name))?;
    }
    Ok(places)
}

/// How many of the first tasks of a stage have no place here.
pub(crate) fn unlisted(places: &BTreeSet<u64>, stage: u32, tasks: u32) -> u64
    requires stage { stage < 10 ^ 4 }
    requires tasks { tasks ≤ 10 ^ 6 }
    ensures count { (given : list (list ℕ)) → HasListed given places.now → result ≡ unlisted given stage tasks }
    ensures few { result ≤ tasks }
{
    let mut count = 0u64;
    for task in 0..tasks {
        if !places.contains(&place_of(TaskId { stage, task })) {
            count += 1;
        }
    }
    count
}
