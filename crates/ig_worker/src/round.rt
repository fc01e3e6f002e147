//! A round: the clock is asked, and the queue is listed.
ghost use Rattle.std.specs.Prelude.{◌≡◌, ◌≤◌, IfOk, IfErr};
ghost use Rattle.ig_defs.specs.Causes.{Rose};
ghost use Rattle.ig_task.specs.Pipeline.{is_allowed};
ghost use Rattle.ig_worker.specs.declared.error.WorkerError.TheVariants as worker;
ghost use Rattle.ig_worker.specs.Fit.{AreFitNotes, IsFitPhase};
ghost use Rattle.ig_worker.specs.Led.{Goes, Led};
ghost use Rattle.ig_worker.specs.Moves.{ListsQueue};

use crate::calls::names;
use crate::learning::{learning, unknown_named};
use crate::{Next, Notes, Then, Turn, WorkerError};
use ig_queue::{candidates, queue_dir};
use ig_store::{Clock, Store};
use ig_task::Pipeline;
use std::alloc::Global;

/// Asks the clock and lists the queue, and goes on with the names that may be leased.
pub(crate) fn ask<S: Store<Pipeline>, C: Clock>(
    alloc: Global,
    store: &mut S,
    clock: &mut C,
    notes: &mut Notes,
) -> Result<Next, WorkerError>
    requires notes { AreFitNotes notes.old }
    requires time { notes.old.at ≤ C.last clock.old }
    ensures rule { S.rule store.new ≡ S.rule store.old }
    ensures later { S.faults store.old ≤ S.faults store.new }
    ensures failed { IfErr result (λ e. e ≡ worker.Failed → Rose (S.faults store.old) (S.faults store.new)) }
    ensures time { C.last clock.old ≤ C.last clock.new }
    ensures at { notes.new.at ≤ C.last clock.new }
    ensures plan { notes.new.plan ≡ notes.old.plan }
    ensures known { notes.new.known ≡ notes.old.known }
    ensures tried { notes.new.tried ≡ notes.old.tried }
    ensures notes { AreFitNotes notes.new }
    ensures fits { IfOk result (λ next. IsFitPhase notes.new next.phase) }
    ensures goes { IfOk result (Goes (ListsQueue (C.last clock.old) (C.last clock.new) notes.old) notes.new) }
    ensures went { S.tells → Led (is_allowed (S.rule store.old)) (S.log store.old) (S.log store.new) (ListsQueue (C.last clock.old) (C.last clock.new) notes.old) notes.old notes.new result }
{
    let dir = queue_dir(alloc, &notes.plan.queue)?;
    let now = clock.now();
    let listed = names(store, &dir)?;
    let names = candidates(alloc, &listed, now)?;
    let unread = unknown_named(alloc, &notes.known, &names)?;
    let phase = learning(alloc, &notes.known, unread, Then::Try { names })?;
    notes.at = now;
    Ok(Next {
        phase,
        turn: Turn::On,
    })
}
