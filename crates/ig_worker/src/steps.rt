//! A step from each place where a worker may stand.
ghost use Rattle.std.specs.Prelude.{◌≡◌, ◌≤◌, ◌<◌, true, false, IfOk, IfErr};
ghost use Rattle.ig_defs.specs.Causes.{Rose};
ghost use Rattle.ig_task.specs.Pipeline.{is_allowed};
ghost use Rattle.ig_worker.specs.declared.error.WorkerError.TheVariants as worker;
ghost use Rattle.ig_worker.specs.declared.phase.Phase.TheVariants.{Trying, Telling};
ghost use Rattle.ig_worker.specs.Fit.{AreFitNotes, IsFitPhase};
ghost use Rattle.ig_worker.specs.Going.{GoesOn, GoesTo, IsBrokenBy, IsSettled};
ghost use Rattle.ig_worker.specs.Left.{IsShort, is_over, left_of};
ghost use Rattle.ig_worker.specs.Places.{stands};
ghost use Rattle.ig_worker.specs.Steps.{Rests, Stepped, is_last, may_call};

use crate::ending::{list_dead, list_done};
use crate::learning::{learn, list_stages};
use crate::round::ask;
use crate::tasks::{fetch, hand_over, run_task};
use crate::trying::attempt;
use crate::{Ahead, End, Line, Next, Notes, Phase, Then, Turn, WorkerError};
use ig_queue::QueueName;
use ig_space::{TaskId, TryClone};
use ig_store::{Clock, Store};
use ig_task::Pipeline;
use std::alloc::Global;

/// Whether an end or an error was given.
pub(crate) fn is_over(phase: &Phase) -> bool
    ensures { result ≡ is_over phase.now }
{
    matches!(phase, Phase::Over { .. } | Phase::Broken { .. })
}

/// Tries the next of these names, where there are turns left.
fn try_next<S: Store<Pipeline>, C: Clock>(
    alloc: Global,
    store: &mut S,
    clock: &mut C,
    notes: &mut Notes,
    names: Ahead<QueueName>,
) -> Result<Next, WorkerError>
    requires notes { AreFitNotes notes.old }
    requires time { notes.old.at ≤ C.last clock.old }
    requires fits { IsFitPhase notes.old (Trying names) }
    ensures rule { S.rule store.new ≡ S.rule store.old }
    ensures later { S.faults store.old ≤ S.faults store.new }
    ensures failed { IfErr result (λ e. e ≡ worker.Failed → Rose (S.faults store.old) (S.faults store.new)) }
    ensures time { C.last clock.old ≤ C.last clock.new }
    ensures plan { notes.new.plan ≡ notes.old.plan }
    ensures at { notes.new.at ≤ C.last clock.new }
    ensures tried { notes.old.tried ≤ notes.new.tried }
    ensures notes { AreFitNotes notes.new }
    ensures fits { IfOk result (λ next. IsFitPhase notes.new next.phase) }
    ensures goes { IfOk result (GoesTo (C.last clock.old) (C.last clock.new) notes.old (Trying names) notes.new) }
    ensures went { S.tells → GoesOn (is_allowed (S.rule store.old)) (C.last clock.old) (C.last clock.new) notes.old (Trying names) (S.log store.old) (S.log store.new) notes.new result }
{
    let turns = notes.plan.turns;
    if notes.tried < turns {
        return attempt(alloc, store, clock, notes, names);
    }
    let end = End::Spent { turns };
    Ok(Next {
        phase: Phase::Over { end },
        turn: Turn::Ended(end),
    })
}

/// Tells the next of these dead letters, or how many there are.
fn tell(letters: Ahead<TaskId>, count: u64) -> Next
    ensures rests { (notes : Notes) → Rests notes (Telling letters count) (stands notes result.phase) (Ok result.turn) }
    ensures fits { (notes : Notes) → IsFitPhase notes result.phase }
{
    let mut letters = letters;
    match letters.take() {
        Some(id) => Next {
            phase: Phase::Telling { letters, count },
            turn: Turn::Said(Line::Letter(id)),
        },
        None => {
            let end = End::Letters { count };
            Next {
                phase: Phase::Over { end },
                turn: Turn::Ended(end),
            }
        }
    }
}

/// Goes on from a place that is not over.
fn go_on<S: Store<Pipeline>, C: Clock>(
    alloc: Global,
    store: &mut S,
    clock: &mut C,
    notes: &mut Notes,
    phase: Phase,
) -> Result<Next, WorkerError>
    requires going { is_over phase ≡ false }
    requires notes { AreFitNotes notes.old }
    requires time { notes.old.at ≤ C.last clock.old }
    requires fits { IsFitPhase notes.old phase }
    ensures rule { S.rule store.new ≡ S.rule store.old }
    ensures later { S.faults store.old ≤ S.faults store.new }
    ensures failed { IfErr result (λ e. e ≡ worker.Failed → Rose (S.faults store.old) (S.faults store.new)) }
    ensures time { C.last clock.old ≤ C.last clock.new }
    ensures plan { notes.new.plan ≡ notes.old.plan }
    ensures at { notes.new.at ≤ C.last clock.new }
    ensures tried { notes.old.tried ≤ notes.new.tried }
    ensures notes { AreFitNotes notes.new }
    ensures fits { IfOk result (λ next. IsFitPhase notes.new next.phase) }
    ensures may { IfErr result (λ e. e ≡ worker.Failed → may_call phase ≡ true) }
    ensures goes { IfOk result (GoesTo (C.last clock.old) (C.last clock.new) notes.old phase notes.new) }
    ensures went { S.tells → GoesOn (is_allowed (S.rule store.old)) (C.last clock.old) (C.last clock.new) notes.old phase (S.log store.old) (S.log store.new) notes.new result }
{
    match phase {
        Phase::Starting => list_stages(alloc, store, notes, Then::Ask),
        Phase::Learning { unread, then } => learn(alloc, store, notes, unread, then),
        Phase::Asking => ask(alloc, store, clock, notes),
        Phase::Trying { names } => try_next(alloc, store, clock, notes, names),
        Phase::Fetching {
            name,
            paths,
            given,
            names,
        } => fetch(store, notes, name, paths, given, names),
        Phase::Running { name, given, names } => run_task(alloc, store, notes, name, given, names),
        Phase::Finishing {
            name,
            outputs,
            names,
        } => hand_over(alloc, store, notes, name, outputs, names),
        Phase::Closing => list_stages(alloc, store, notes, Then::Count),
        Phase::ListingDead => list_dead(alloc, store, notes),
        Phase::ListingDone { letters } => list_done(alloc, store, notes, letters),
        Phase::Telling { letters, count } => Ok(tell(letters, count)),
        Phase::Over { end } => Ok(Next {
            phase: Phase::Over { end },
            turn: Turn::Ended(end),
        }),
        Phase::Broken { error } => Err(error),
    }
}

/// The place after an error: a copy of it is kept, or want of memory where none can be made.
fn broken_by(error: &WorkerError) -> Phase
    ensures { IsBrokenBy error.now result }
{
    match error.copy() {
        Ok(error) => Phase::Broken { error },
        Err(_) => Phase::Broken {
            error: WorkerError::Memory,
        },
    }
}

/// Looks at how long the lists are that a place holds, which is below what a `usize` counts.
fn look_at_lengths(phase: &Phase)
    ensures { IsShort phase.now }
{
    match phase {
        Phase::Learning { unread, .. } => {
            let _ = unread.len();
        }
        Phase::Fetching { paths, .. } => {
            let _ = paths.len();
        }
        Phase::Finishing { outputs, .. } => {
            let _ = outputs.len();
        }
        Phase::ListingDone { letters } => {
            let _ = letters.len();
        }
        _ => {}
    }
}

/// Where a worker stands after a step, and what the step gives.
fn settle(came: Result<Next, WorkerError>) -> (Phase, Result<Turn, WorkerError>)
    ensures { IsSettled came result.0 result.1 }
{
    match came {
        Ok(next) => {
            look_at_lengths(&next.phase);
            (next.phase, Ok(next.turn))
        }
        Err(error) => (broken_by(&error), Err(error)),
    }
}

/// An end or an error is given again.
fn repeat(phase: Phase) -> (Phase, Result<Turn, WorkerError>)
    requires over { is_over phase ≡ true }
    ensures rests { (notes : Notes) → Rests notes phase (stands notes result.0) result.1 }
    ensures same { result.0 ≡ phase }
    ensures last { is_last result.1 ≡ true }
{
    match phase {
        Phase::Over { end } => (Phase::Over { end }, Ok(Turn::Ended(end))),
        Phase::Broken { error } => {
            let told = match error.copy() {
                Ok(told) => told,
                Err(_) => WorkerError::Memory,
            };
            (Phase::Broken { error }, Err(told))
        }
        other => (other, Ok(Turn::On)),
    }
}

/// One step: where it leads, and what it gives.
pub(crate) fn advance<S: Store<Pipeline>, C: Clock>(
    alloc: Global,
    store: &mut S,
    clock: &mut C,
    notes: &mut Notes,
    phase: Phase,
) -> (Phase, Result<Turn, WorkerError>)
    requires notes { AreFitNotes notes.old }
    requires time { notes.old.at ≤ C.last clock.old }
    requires fits { IsFitPhase notes.old phase }
    ensures rule { S.rule store.new ≡ S.rule store.old }
    ensures later { S.faults store.old ≤ S.faults store.new }
    ensures failed { is_over phase ≡ false → IfErr result.1 (λ e. e ≡ worker.Failed → Rose (S.faults store.old) (S.faults store.new)) }
    ensures time { C.last clock.old ≤ C.last clock.new }
    ensures plan { notes.new.plan ≡ notes.old.plan }
    ensures at { notes.new.at ≤ C.last clock.new }
    ensures notes { AreFitNotes notes.new }
    ensures fits { IsFitPhase notes.new result.0 }
    ensures steps { S.tells → Stepped (is_allowed (S.rule store.old)) (C.last clock.old) (C.last clock.new) (stands notes.old phase) (S.log store.old) (S.log store.new) (stands notes.new result.0) result.1 }
    ensures left { is_over phase ≡ false → left_of (stands notes.new result.0) < left_of (stands notes.old phase) }
    ensures over { is_over result.0 ≡ is_last result.1 }
{
    if is_over(&phase) {
        return repeat(phase);
    }
    settle(go_on(alloc, store, clock, notes, phase))
}
