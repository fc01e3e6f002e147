//! The end of a worker, by what its queue lists as dead and as done.
ghost use Rattle.std.specs.Prelude.{◌≡◌, ◌≤◌, Ok, map, IfOk, IfErr};
ghost use Rattle.ig_defs.specs.Causes.{Rose};
ghost use Rattle.ig_task.specs.Pipeline.{is_allowed};
ghost use Rattle.ig_worker.specs.declared.error.WorkerError.TheVariants as worker;
ghost use Rattle.ig_worker.specs.declared.turn.Line.TheVariants as line;
ghost use Rattle.ig_worker.specs.Fit.{AreFitNotes, AreStages, IsFitPhase};
ghost use Rattle.ig_worker.specs.Led.{Goes, Led};
ghost use Rattle.ig_worker.specs.Moves.{ListsDead, ListsDone};
ghost use Rattle.ig_worker.specs.Places.{counted, end_by};
ghost use Rattle.ig_worker.specs.Stages.{all_tasks, all_unlisted};
ghost use Rattle.ig_worker.specs.Steps.{answer_of};

use crate::calls::names;
use crate::counting::{places_listed, tasks_listed};
use crate::{Ahead, End, Line, Next, Notes, Phase, Records, Turn, WorkerError};
use ig_queue::{dead_dir, done_dir};
use ig_space::{Names, TaskId};
use ig_store::Store;
use ig_task::Pipeline;
use std::alloc::{AllocError, Global};

/// Lists the dead letters.
pub(crate) fn list_dead<S: Store<Pipeline>>(
    alloc: Global,
    store: &mut S,
    notes: &Notes,
) -> Result<Next, WorkerError>
    requires notes { AreFitNotes notes.now }
    ensures rule { S.rule store.new ≡ S.rule store.old }
    ensures later { S.faults store.old ≤ S.faults store.new }
    ensures failed { IfErr result (λ e. e ≡ worker.Failed → Rose (S.faults store.old) (S.faults store.new)) }
    ensures fits { IfOk result (λ next. IsFitPhase notes.now next.phase) }
    ensures goes { IfOk result (Goes (ListsDead notes.now) notes.now) }
    ensures went { S.tells → Led (is_allowed (S.rule store.old)) (S.log store.old) (S.log store.new) (ListsDead notes.now) notes.now notes.now result }
{
    let dir = dead_dir(alloc, &notes.plan.queue)?;
    let given = names(store, &dir)?;
    let letters = tasks_listed(alloc, &given)?;
    Ok(Next {
        phase: Phase::ListingDone { letters },
        turn: Turn::On,
    })
}

/// How a worker ends, where there is no dead letter.
fn end_of(alloc: Global, known: &Records, given: &Names) -> Result<End, AllocError>
    requires { AreStages known.now }
    ensures { IfOk result (λ end. end ≡ end_by (all_unlisted given.now known.now) (all_tasks known.now)) }
{
    let places = places_listed(alloc, given)?;
    let tally = known.tally(&places);
    if tally.unlisted == 0 {
        Ok(End::Finished { tasks: tally.tasks })
    } else {
        Ok(End::Waiting {
            tasks: tally.unlisted,
        })
    }
}

/// Tells the first of these dead letters, or ends.
fn close(
    alloc: Global,
    known: &Records,
    letters: Ahead<TaskId>,
    given: &Names,
) -> Result<Next, AllocError>
    requires { AreStages known.now }
    ensures phase { IfOk result (λ next. next.phase ≡ counted known.now letters given.now) }
    ensures turn { IfOk result (λ next. answer_of (map line.Letter letters) next.phase ≡ Ok next.turn) }
{
    let mut letters = letters;
    let count = letters.len() as u64;
    if let Some(id) = letters.take() {
        return Ok(Next {
            phase: Phase::Telling { letters, count },
            turn: Turn::Said(Line::Letter(id)),
        });
    }
    let end = end_of(alloc, known, given)?;
    Ok(Next {
        phase: Phase::Over { end },
        turn: Turn::Ended(end),
    })
}

/// Lists the tasks that are done, and tells the first dead letter, or ends.
pub(crate) fn list_done<S: Store<Pipeline>>(
    alloc: Global,
    store: &mut S,
    notes: &Notes,
    letters: Ahead<TaskId>,
) -> Result<Next, WorkerError>
    requires notes { AreFitNotes notes.now }
    ensures rule { S.rule store.new ≡ S.rule store.old }
    ensures later { S.faults store.old ≤ S.faults store.new }
    ensures failed { IfErr result (λ e. e ≡ worker.Failed → Rose (S.faults store.old) (S.faults store.new)) }
    ensures fits { IfOk result (λ next. IsFitPhase notes.now next.phase) }
    ensures goes { IfOk result (Goes (ListsDone notes.now letters) notes.now) }
    ensures went { S.tells → Led (is_allowed (S.rule store.old)) (S.log store.old) (S.log store.new) (ListsDone notes.now letters) notes.now notes.now result }
{
    let dir = done_dir(alloc, &notes.plan.queue)?;
    let given = names(store, &dir)?;
    Ok(close(alloc, &notes.known, letters, &given)?)
}
