//! What listings show of the tasks of a queue, and how far it has come.
ghost use Rattle.std.specs.Prelude.{◌≡◌, true, IfSome};
ghost use Rattle.ig_defs.specs.QueueNames.{queue_fits, task_fits};
ghost use Rattle.ig_queue.specs.Progress.{name_in, progress_of};
ghost use Rattle.ig_queue.specs.TaskNames.{task_in};

use crate::naming::{parse_queue_name, parse_task_name};
use crate::types::Progress;
use ig_defs::QueueName;
use ig_space::{Names, TaskId, Text};

/// The task of the queue whose file has this name, as a listing shows it.
pub fn name_in(text: &Text) -> Option<QueueName>
    ensures name { result ≡ name_in text.now }
    ensures fits { IfSome result (λ name. queue_fits name ≡ true) }
{
    parse_queue_name(text.as_str())
}

/// The task that is done or dead whose file has this name, as a listing shows it.
pub fn task_in(text: &Text) -> Option<TaskId>
    ensures task { result ≡ task_in text.now }
    ensures fits { IfSome result (λ id. task_fits id ≡ true) }
{
    parse_task_name(text.as_str())
}

/// How many tasks a listing of the queue shows, and how many of them may be leased now. The listing may have other files; a name
/// that stands in it twice counts twice, and a listing of a store has none.
pub fn progress(names: &Names, now: u64) -> Progress
    ensures { result ≡ progress_of names.now now }
{
    let mut listed = 0u64;
    let mut visible = 0u64;
    for text in names.as_slice() {
        if let Some(name) = name_in(text) {
            listed += 1;
            if name.visible <= now {
                visible += 1;
            }
        }
    }
    Progress { listed, visible }
}
