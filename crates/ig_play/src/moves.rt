//! The moves of a task's name by themselves.
ghost use Rattle.std.specs.Prelude.{◌≡◌, ◌≤◌, length, true};
ghost use Rattle.ig_defs.specs.QueueNames.{queue_fits};

use crate::names::queue_text;
use crate::store::{Memory, closed, opened, whether};
use crate::{Told, World};
use ig_queue::{
    Closed, Lease, QueueName, bury, complete, lease, parse_queue_name, parse_task_name, release,
    revive,
};
use ig_space::Path;
use ig_store::StoreError;
use std::alloc::{AllocError, Global};

/// What a closing move answers.
fn closed_word(closed: Result<Closed, StoreError>) -> &'static str {
    match closed {
        Ok(Closed::Done) => "done",
        Ok(Closed::Late) => "late",
        Err(StoreError::Failed) => "failed",
        Err(StoreError::Memory) => "out of memory",
    }
}

/// What a lease answers.
fn lease_text(alloc: Global, given: Result<Lease, StoreError>) -> Result<String, AllocError> {
    match given {
        Ok(Lease::Leased(name)) => queue_text(alloc, name),
        Ok(Lease::Gone) => String::from_str(alloc, "gone"),
        Err(StoreError::Failed) => String::from_str(alloc, "failed"),
        Err(StoreError::Memory) => String::from_str(alloc, "out of memory"),
    }
}

/// Makes the move that the word names; none where it names none, or may not be made.
fn answer(
    alloc: Global,
    store: &mut Memory,
    queue: &Path,
    word: &str,
    name: QueueName,
    now: u64,
) -> Result<Option<String>, AllocError>
    requires short { length queue.now ≤ 100 }
    requires fits { queue_fits name ≡ true }
{
    if word == "lease" && name.visible <= now && name.attempt < 999 {
        let given = lease(alloc, store, queue, name, now, 600);
        return Ok(Some(lease_text(alloc, given)?));
    }
    if word == "complete" {
        let word = closed_word(complete(alloc, store, queue, name));
        return Ok(Some(String::from_str(alloc, word)?));
    }
    if word == "bury" {
        let word = closed_word(bury(alloc, store, queue, name));
        return Ok(Some(String::from_str(alloc, word)?));
    }
    if word == "release" {
        let word = whether(release(alloc, store, queue, name));
        return Ok(Some(String::from_str(alloc, word)?));
    }
    Ok(None)
}

/// `lease QUEUE NAME`, for 600 seconds, `complete QUEUE NAME`, `bury QUEUE NAME` or `release QUEUE NAME`.
pub(crate) fn ask_move(
    world: &mut World,
    word: &str,
    queue: &str,
    text: &str,
) -> Result<Option<Told>, AllocError> {
    let alloc = world.alloc;
    let (Some(name), Some(queue)) = (parse_queue_name(text), Path::new(alloc, queue)?) else {
        return Ok(None);
    };
    if queue.len() > 100 {
        return Ok(None);
    }
    let mut store = opened(world)?;
    let answer = answer(alloc, &mut store, &queue, word, name, world.second)?;
    let told = answer.map(|answer| Told::new(alloc, answer));
    closed(world, store, told)
}

/// `revive QUEUE NAME`.
pub(crate) fn ask_revive(
    world: &mut World,
    queue: &str,
    text: &str,
) -> Result<Option<Told>, AllocError> {
    let alloc = world.alloc;
    let (Some(id), Some(queue)) = (parse_task_name(text), Path::new(alloc, queue)?) else {
        return Ok(None);
    };
    if queue.len() > 100 {
        return Ok(None);
    }
    let mut store = opened(world)?;
    let told = Told::of(alloc, whether(revive(alloc, &mut store, &queue, id)))?;
    closed(world, store, Some(told))
}
