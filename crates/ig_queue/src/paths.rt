//! Where the files of a queue stand.
ghost use Rattle.std.specs.Prelude.{◌≡◌, ◌≤◌, ◌<◌, ◌+◌, ◌^◌, length, true, codes, IfOk};
ghost use Rattle.ig_space.specs.Path.{is_path, joined};
ghost use Rattle.ig_defs.specs.QueueNames.{queue_fits, task_fits};
ghost use Rattle.ig_rule.specs.QueueFiles.{Record, Seal, Queued, Dead, Done, path_of};

use crate::naming::{queue_name, stage_name, task_name};
use ig_defs::QueueName;
use ig_space::{Path, TaskId};
use std::alloc::{AllocError, Global};

/// The file of this name in a directory.
fn file_in(dir: &Path, name: &Path) -> Result<Path, AllocError>
    requires { length dir.now + length name.now < 400 }
    ensures { IfOk result (λ path. path ≡ joined dir.now name.now) }
{
    Ok(dir.join(name)?.unwrap())
}

/// The directory of this name in a queue's directory.
fn folder(alloc: Global, queue: &Path, name: &str) -> Result<Path, AllocError>
    requires name { is_path name.now ≡ true }
    requires short { length queue.now + length name.now < 400 }
    ensures { IfOk result (λ dir. dir ≡ joined queue.now name.now) }
{
    let name = Path::new(alloc, name)?.unwrap();
    file_in(queue, &name)
}

/// The directory of a queue's records.
#[tactic(auto, unfolding(ig_space::specs::Path::is_path))]
pub fn stages_dir(alloc: Global, queue: &Path) -> Result<Path, AllocError>
    requires short { length queue.now ≤ 100 }
    ensures dir { IfOk result (λ dir. dir ≡ joined queue.now (codes "stages")) }
    ensures short { IfOk result (λ dir. length dir ≤ 107) }
{
    let dir = folder(alloc, queue, "stages")?;
    Ok(dir)
}

/// The directory of a queue's seals.
#[tactic(auto, unfolding(ig_space::specs::Path::is_path))]
pub fn seals_dir(alloc: Global, queue: &Path) -> Result<Path, AllocError>
    requires short { length queue.now ≤ 100 }
    ensures dir { IfOk result (λ dir. dir ≡ joined queue.now (codes "seals")) }
    ensures short { IfOk result (λ dir. length dir ≤ 107) }
{
    let dir = folder(alloc, queue, "seals")?;
    Ok(dir)
}

/// The directory of the tasks in a queue.
#[tactic(auto, unfolding(ig_space::specs::Path::is_path))]
pub fn queue_dir(alloc: Global, queue: &Path) -> Result<Path, AllocError>
    requires short { length queue.now ≤ 100 }
    ensures dir { IfOk result (λ dir. dir ≡ joined queue.now (codes "queue")) }
    ensures short { IfOk result (λ dir. length dir ≤ 107) }
{
    let dir = folder(alloc, queue, "queue")?;
    Ok(dir)
}

/// The directory of a queue's dead letters.
#[tactic(auto, unfolding(ig_space::specs::Path::is_path))]
pub fn dead_dir(alloc: Global, queue: &Path) -> Result<Path, AllocError>
    requires short { length queue.now ≤ 100 }
    ensures dir { IfOk result (λ dir. dir ≡ joined queue.now (codes "dead")) }
    ensures short { IfOk result (λ dir. length dir ≤ 107) }
{
    let dir = folder(alloc, queue, "dead")?;
    Ok(dir)
}

/// The directory of a queue's tasks that are done.
#[tactic(auto, unfolding(ig_space::specs::Path::is_path))]
pub fn done_dir(alloc: Global, queue: &Path) -> Result<Path, AllocError>
    requires short { length queue.now ≤ 100 }
    ensures dir { IfOk result (λ dir. dir ≡ joined queue.now (codes "done")) }
    ensures short { IfOk result (λ dir. length dir ≤ 107) }
{
    let dir = folder(alloc, queue, "done")?;
    Ok(dir)
}

/// The record of the stage with this number.
pub fn record_path(alloc: Global, queue: &Path, number: u32) -> Result<Path, AllocError>
    requires short { length queue.now ≤ 100 }
    requires below { number < 10 ^ 4 }
    ensures { IfOk result (λ path. path ≡ path_of queue.now (Record number)) }
{
    let dir = stages_dir(alloc, queue)?;
    let name = stage_name(alloc, number)?;
    file_in(&dir, &name)
}

/// The seal of the stage with this number.
pub fn seal_path(alloc: Global, queue: &Path, number: u32) -> Result<Path, AllocError>
    requires short { length queue.now ≤ 100 }
    requires below { number < 10 ^ 4 }
    ensures { IfOk result (λ path. path ≡ path_of queue.now (Seal number)) }
{
    let dir = seals_dir(alloc, queue)?;
    let name = stage_name(alloc, number)?;
    file_in(&dir, &name)
}

/// The file of a task in the queue.
pub fn queued_path(alloc: Global, queue: &Path, name: QueueName) -> Result<Path, AllocError>
    requires short { length queue.now ≤ 100 }
    requires fits { queue_fits name ≡ true }
    ensures { IfOk result (λ path. path ≡ path_of queue.now (Queued name)) }
{
    let dir = queue_dir(alloc, queue)?;
    let name = queue_name(alloc, name)?;
    file_in(&dir, &name)
}

/// The file of a task that is a dead letter.
pub fn dead_path(alloc: Global, queue: &Path, id: TaskId) -> Result<Path, AllocError>
    requires short { length queue.now ≤ 100 }
    requires fits { task_fits id ≡ true }
    ensures { IfOk result (λ path. path ≡ path_of queue.now (Dead id)) }
{
    let dir = dead_dir(alloc, queue)?;
    let name = task_name(alloc, id)?;
    file_in(&dir, &name)
}

/// The file of a task that is done.
pub fn done_path(alloc: Global, queue: &Path, id: TaskId) -> Result<Path, AllocError>
    requires short { length queue.now ≤ 100 }
    requires fits { task_fits id ≡ true }
    ensures { IfOk result (λ path. path ≡ path_of queue.now (Done id)) }
{
    let dir = done_dir(alloc, queue)?;
    let name = task_name(alloc, id)?;
    file_in(&dir, &name)
}
