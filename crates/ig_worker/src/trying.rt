//! A try: a name is buried, or its task is leased.
ghost use Rattle.std.specs.Prelude.{◌≡◌, ◌≤◌, ◌<◌, true, List as list, length, Ok, IfOk, IfErr, IfSome, IsNone};
ghost use Rattle.ig_defs.specs.Causes.{Rose};
ghost use Rattle.ig_defs.specs.declared.queue_name.QueueName.{QueueName as Name};
ghost use Rattle.ig_defs.specs.QueueNames.{queue_fits, task_of};
ghost use Rattle.ig_task.specs.Pipeline.{is_allowed};
ghost use Rattle.ig_worker.specs.declared.error.WorkerError.TheVariants as worker;
ghost use Rattle.ig_worker.specs.declared.notes.Notes.{Notes as Noted};
ghost use Rattle.ig_worker.specs.declared.phase.Phase.TheVariants.{Trying};
ghost use Rattle.ig_worker.specs.declared.turn.Line.TheVariants as line;
ghost use Rattle.ig_worker.specs.declared.turn.Why.TheVariants as why;
ghost use Rattle.ig_worker.specs.Acting.{BuriesSpent, TakesLease};
ghost use Rattle.ig_worker.specs.Fit.{AreFitNotes, AreOpen, AreStages, IsFitPhase, IsOpen};
ghost use Rattle.ig_worker.specs.Led.{Goes, Led};
ghost use Rattle.ig_worker.specs.Moves.{TriesName, said_if};
ghost use Rattle.ig_worker.specs.Places.{begun, next_try};
ghost use Rattle.ig_worker.specs.Stages.{open_tasks};
ghost use Rattle.ig_worker.specs.Steps.{answer_of};

use crate::shifts::{give_up, take_lease};
use crate::tasks::{fetching, next_try, task_of};
use crate::{Ahead, Line, Next, Notes, Phase, Records, Turn, Why, WorkerError};
use ig_cutout::Inputs;
use ig_queue::QueueName;
use ig_record::inputs;
use ig_store::{Clock, Store};
use ig_task::Pipeline;
use std::alloc::{AllocError, Global};

/// What is given where a name that was leased too often is buried: nothing is said where its file is gone.
fn spent_turn(there: bool, name: QueueName) -> Turn
    ensures { (names : list Name) → answer_of (said_if there (line.Buried (task_of name) (why.Tries name.attempt))) (next_try names) ≡ Ok result }
{
    if there {
        Turn::Said(Line::Buried {
            id: task_of(name),
            cause: Why::Tries {
                attempt: name.attempt,
            },
        })
    } else {
        Turn::On
    }
}

/// Buries a name that was leased too often.
fn bury_spent<S: Store<Pipeline>>(
    alloc: Global,
    store: &mut S,
    notes: &Notes,
    name: QueueName,
    names: Ahead<QueueName>,
) -> Result<Next, WorkerError>
    requires short { length notes.now.plan.queue ≤ 100 }
    requires fits { queue_fits name ≡ true }
    requires ahead { AreOpen notes.now names }
    ensures rule { S.rule store.new ≡ S.rule store.old }
    ensures later { S.faults store.old ≤ S.faults store.new }
    ensures failed { IfErr result (λ e. e ≡ worker.Failed → Rose (S.faults store.old) (S.faults store.new)) }
    ensures fits { IfOk result (λ next. IsFitPhase notes.now next.phase) }
    ensures goes { IfOk result (Goes (λ m. BuriesSpent notes.now name names m) notes.now) }
    ensures went { S.tells → (before : Noted) → Led (is_allowed (S.rule store.old)) (S.log store.old) (S.log store.new) (λ m. BuriesSpent notes.now name names m) before notes.now result }
{
    let there = give_up(alloc, store, &notes.plan.queue, name)?;
    Ok(Next {
        phase: next_try(names),
        turn: spent_turn(there, name),
    })
}

/// The place after a try to lease: the task is begun that is leased under this name, or the next name is tried.
fn begin(
    alloc: Global,
    known: &Records,
    leased: Option<QueueName>,
    names: Ahead<QueueName>,
) -> Result<Phase, AllocError>
    requires known { AreStages known.now }
    requires below { IfSome leased (λ name. name.task < open_tasks known.now name.stage) }
    ensures begun { IfOk result (λ phase. IfSome leased (λ name. phase ≡ begun known.now name names)) }
    ensures gone { IsNone leased → IfOk result (λ phase. phase ≡ next_try names) }
{
    let Some(name) = leased else {
        return Ok(next_try(names));
    };
    let Some(stage) = known.find(name.stage) else {
        unreachable!()
    };
    let paths = inputs(alloc, stage, name.task)?;
    Ok(fetching(name, paths, Inputs::new(alloc), names))
}

/// Leases the task of a name at the second that was noted last.
fn lease_name<S: Store<Pipeline>>(
    alloc: Global,
    store: &mut S,
    notes: &Notes,
    name: QueueName,
    names: Ahead<QueueName>,
) -> Result<Next, WorkerError>
    requires notes { AreFitNotes notes.now }
    requires may_run { IsOpen notes.now name }
    requires few { name.attempt < notes.now.plan.tries }
    requires ahead { AreOpen notes.now names }
    ensures rule { S.rule store.new ≡ S.rule store.old }
    ensures later { S.faults store.old ≤ S.faults store.new }
    ensures failed { IfErr result (λ e. e ≡ worker.Failed → Rose (S.faults store.old) (S.faults store.new)) }
    ensures fits { IfOk result (λ next. IsFitPhase notes.now next.phase) }
    ensures goes { IfOk result (Goes (λ m. TakesLease notes.now name names m) notes.now) }
    ensures went { S.tells → (before : Noted) → Led (is_allowed (S.rule store.old)) (S.log store.old) (S.log store.new) (λ m. TakesLease notes.now name names m) before notes.now result }
{
    let seconds = notes.plan.lease;
    let leased = take_lease(alloc, store, &notes.plan.queue, name, notes.at, seconds)?;
    let phase = begin(alloc, &notes.known, leased, names)?;
    Ok(Next {
        phase,
        turn: Turn::On,
    })
}

/// Tries the first of these names, and counts that: buries it where it was leased too often, else leases its task.
pub(crate) fn attempt<S: Store<Pipeline>, C: Clock>(
    alloc: Global,
    store: &mut S,
    clock: &mut C,
    notes: &mut Notes,
    names: Ahead<QueueName>,
) -> Result<Next, WorkerError>
    requires notes { AreFitNotes notes.old }
    requires time { notes.old.at ≤ C.last clock.old }
    requires fits { IsFitPhase notes.old (Trying names) }
    requires turns { notes.old.tried < notes.old.plan.turns }
    ensures rule { S.rule store.new ≡ S.rule store.old }
    ensures later { S.faults store.old ≤ S.faults store.new }
    ensures failed { IfErr result (λ e. e ≡ worker.Failed → Rose (S.faults store.old) (S.faults store.new)) }
    ensures time { C.last clock.old ≤ C.last clock.new }
    ensures plan { notes.new.plan ≡ notes.old.plan }
    ensures at { notes.new.at ≤ C.last clock.new }
    ensures tried { notes.old.tried ≤ notes.new.tried }
    ensures notes { AreFitNotes notes.new }
    ensures fits { IfOk result (λ next. IsFitPhase notes.new next.phase) }
    ensures goes { IfOk result (Goes (λ m. TriesName (C.last clock.old) (C.last clock.new) notes.old names m) notes.new) }
    ensures went { S.tells → Led (is_allowed (S.rule store.old)) (S.log store.old) (S.log store.new) (λ m. TriesName (C.last clock.old) (C.last clock.new) notes.old names m) notes.old notes.new result }
{
    let mut names = names;
    let Some(name) = names.take() else {
        unreachable!()
    };
    notes.tried += 1;
    if name.attempt >= notes.plan.tries {
        return bury_spent(alloc, store, notes, name, names);
    }
    notes.at = clock.now();
    lease_name(alloc, store, notes, name, names)
}
