//! Which tasks may be run, as far as the stages are known.
ghost use Rattle.std.specs.Prelude.{◌≡◌, ◌≤◌, IfOk, IfSome};
ghost use Rattle.ig_worker.specs.Fit.{AreStages};
ghost use Rattle.ig_worker.specs.Stages.{is_under_removal, open_names, open_tasks};

use crate::{Ahead, Records};
use ig_queue::{Candidates, QueueName};
use ig_record::Stage;
use std::alloc::{AllocError, Global};

/// Whether the stage with this number is under removal.
fn is_under_removal(known: &Records, number: u32, stage: &Stage) -> bool
    ensures { result ≡ is_under_removal known.now number stage.now }
{
    known.removes_other(number, &stage.source.dir) || known.removes_output(number, stage)
}

/// How many tasks of the stage with this number may be run: none where it is not known, or is under removal.
pub(crate) fn open_tasks(known: &Records, number: u32) -> u32
    requires { AreStages known.now }
    ensures { result ≡ open_tasks known.now number }
{
    match known.find(number) {
        Some(stage) => {
            if is_under_removal(known, number, stage) {
                0
            } else {
                stage.tasks()
            }
        }
        None => 0,
    }
}

/// How many tasks of a stage may be run.
#[derive(Clone, Copy)]
struct Open {
    stage: u32,
    tasks: u32,
}

/// How many tasks of this stage may be run, by the last answer where it was of the same stage.
fn open_in(known: &Records, last: Option<Open>, stage: u32) -> Open
    requires known { AreStages known.now }
    requires last { IfSome last (λ last. last.tasks ≡ open_tasks known.now last.stage) }
    ensures stage { result.stage ≡ stage }
    ensures tasks { result.tasks ≡ open_tasks known.now stage }
{
    match last {
        Some(last) if last.stage == stage => last,
        _ => Open {
            stage,
            tasks: open_tasks(known, stage),
        },
    }
}

/// Those names whose tasks may be run.
pub(crate) fn open_names(
    alloc: Global,
    known: &Records,
    names: &Candidates,
) -> Result<Ahead<QueueName>, AllocError>
    requires { AreStages known.now }
    ensures { IfOk result (λ given. given ≡ open_names known.now names.now) }
{
    let mut open = Ahead::new(alloc);
    let mut last = None;
    for name in names.as_slice() {
        let now = open_in(known, last, name.stage);
        if name.task < now.tasks {
            open.push(*name)?;
        }
        last = Some(now);
    }
    Ok(open)
}
