//! Where the names of tasks stand.
ghost use Rattle.std.specs.Prelude.{◌≡◌, ◌≤◌, ◌<◌, length, IfOk};
ghost use Rattle.ig_space.specs.Path.{joined};
ghost use Rattle.ig_rule.specs.QueueFiles.{Queued, path_of};
ghost use Rattle.ig_rule.specs.Rule.{fresh_name};
ghost use Rattle.ig_rule.specs.Stages.{task_id};
ghost use Rattle.ig_stage.specs.Shown.{listed_dir};

use crate::shown::Listing;
use ig_queue::{QueueName, dead_dir, done_dir, queue_dir, queued_path};
use ig_space::Path;
use std::alloc::{AllocError, Global};

/// The directory that is listed.
pub(crate) fn listed_dir(alloc: Global, queue: &Path, listing: Listing) -> Result<Path, AllocError>
    requires short { length queue.now ≤ 100 }
    ensures { IfOk result (λ dir. dir ≡ joined queue.now (listed_dir listing)) }
{
    match listing {
        Listing::Queue => queue_dir(alloc, queue),
        Listing::Dead => dead_dir(alloc, queue),
        Listing::Done => done_dir(alloc, queue),
    }
}

/// The fresh name of a task of the stage with this number.
pub(crate) fn name_path(
    alloc: Global,
    queue: &Path,
    number: u32,
    task: u32,
) -> Result<Path, AllocError>
    requires short { length queue.now ≤ 100 }
    requires few { number < 10000 }
    requires below { task < 1000000 }
    ensures { IfOk result (λ path. path ≡ path_of queue.now (Queued (fresh_name (task_id number task)))) }
{
    let name = QueueName {
        visible: 0,
        stage: number,
        task,
        attempt: 0,
    };
    queued_path(alloc, queue, name)
}
