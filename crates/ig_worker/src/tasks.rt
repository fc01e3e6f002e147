//! A leased task: its inputs are read, it is run, and it is handed back.
ghost use Rattle.std.specs.Prelude.{◌≡◌, ◌≤◌, ◌<◌, [], true, length, IfOk, IfErr};
ghost use Rattle.std.specs.List.{All};
ghost use Rattle.ig_defs.specs.Calls.{HasCause};
ghost use Rattle.ig_defs.specs.Causes.{Rose};
ghost use Rattle.ig_defs.specs.QueueNames.{queue_fits, task_of};
ghost use Rattle.ig_cutout.specs.Inputs.{paths_of as input_paths};
ghost use Rattle.ig_record.specs.Sound.{is_sound};
ghost use Rattle.ig_record.specs.Columns.{inputs_of};
ghost use Rattle.ig_record.specs.Stage.{task_count};
ghost use Rattle.ig_task.specs.Pipeline.{is_allowed};
ghost use Rattle.ig_worker.specs.declared.error.WorkerError.TheVariants as worker;
ghost use Rattle.ig_task.specs.Wanted.{AreOutputs};
ghost use Rattle.ig_worker.specs.Acting.{BuriesRefused, WasCalled, outcome_of};
ghost use Rattle.ig_worker.specs.Fit.{AreFitNotes, AreOpen, IsFetching, IsFinishing, IsFitPhase, IsFound, IsRunning};
ghost use Rattle.ig_worker.specs.Led.{Goes, Led};
ghost use Rattle.ig_worker.specs.Moves.{HandsOver, IsOutcome, ReadsInput, RunsTask, by_presence, call_for};
ghost use Rattle.ig_worker.specs.Places.{fetching, next_try};

use crate::calls::{put, read, remove};
use crate::shifts::{close, give_up};
use crate::{Ahead, Line, Next, Notes, Phase, Turn, Why, WorkerError};
use ig_cutout::{Input, Inputs, Output};
use ig_queue::QueueName;
use ig_record::Stage;
use ig_space::{Paths, TaskId, TryClone};
use ig_store::{Store, StoreError};
use ig_task::{Pipeline, RunError, run};
use std::alloc::Global;

/// The task of which this is a name.
pub(crate) fn task_of(name: QueueName) -> TaskId
    ensures { result ≡ task_of name }
{
    TaskId {
        stage: name.stage,
        task: name.task,
    }
}

/// The place after a try: the next of these names is tried, and after the last one a round begins.
pub(crate) fn next_try(names: Ahead<QueueName>) -> Phase
    ensures { result ≡ next_try names }
{
    if names.is_empty() {
        Phase::Asking
    } else {
        Phase::Trying { names }
    }
}

/// The place of a leased task of whose inputs these were found: the next one is read, and after the last one the task is
/// run.
pub(crate) fn fetching(
    name: QueueName,
    paths: Paths,
    given: Inputs,
    names: Ahead<QueueName>,
) -> Phase
    ensures { result ≡ fetching name paths given names }
{
    if given.len() == paths.len() {
        Phase::Running { name, given, names }
    } else {
        Phase::Fetching {
            name,
            paths,
            given,
            names,
        }
    }
}

/// Reads the next input of a leased task. A task that lacks an input is left to its lease.
pub(crate) fn fetch<S: Store<Pipeline>>(
    store: &mut S,
    notes: &Notes,
    name: QueueName,
    paths: Paths,
    given: Inputs,
    names: Ahead<QueueName>,
) -> Result<Next, WorkerError>
    requires fits { IsFetching notes.now name paths given names }
    ensures rule { S.rule store.new ≡ S.rule store.old }
    ensures later { S.faults store.old ≤ S.faults store.new }
    ensures failed { IfErr result (λ e. e ≡ worker.Failed → Rose (S.faults store.old) (S.faults store.new)) }
    ensures fits { IfOk result (λ next. IsFitPhase notes.now next.phase) }
    ensures goes { IfOk result (Goes (λ m. ReadsInput notes.now name paths given names m) notes.now) }
    ensures went { S.tells → Led (is_allowed (S.rule store.old)) (S.log store.old) (S.log store.new) (λ m. ReadsInput notes.now name paths given names m) notes.now notes.now result }
{
    let path = paths.as_slice()[given.len()].copy()?;
    let Some(bytes) = read(store, &path)? else {
        let id = task_of(name);
        return Ok(Next {
            phase: next_try(names),
            turn: Turn::Said(Line::Missing { id, path }),
        });
    };
    let mut given = given;
    given.push(Input {
        path,
        found: Some(bytes),
    })?;
    Ok(Next {
        phase: fetching(name, paths, given, names),
        turn: Turn::On,
    })
}

/// Puts an output, or takes away what stands at its path.
fn settle<S: Store<Pipeline>>(store: &mut S, output: &Output) -> Result<(), StoreError>
    ensures rule { S.rule store.new ≡ S.rule store.old }
    ensures cause { HasCause (S.faults store.old) (S.faults store.new) result }
    ensures called { S.tells → WasCalled (is_allowed (S.rule store.old)) (S.log store.old) (S.log store.new) (call_for output.now) result }
{
    match &output.text {
        Some(text) => put(store, &output.path, text.as_bytes()),
        None => {
            remove(store, &output.path)?;
            Ok(())
        }
    }
}

/// What is said of a task by whether its file was there.
fn by_presence(there: bool, said: Line, gone: Line) -> Line
    ensures { result ≡ by_presence there said gone }
{
    if there { said } else { gone }
}

/// Calls a task done whose outputs all stand, unless its lease was over.
fn finish<S: Store<Pipeline>>(
    alloc: Global,
    store: &mut S,
    notes: &Notes,
    name: QueueName,
    names: Ahead<QueueName>,
) -> Result<Next, WorkerError>
    requires short { length notes.now.plan.queue ≤ 100 }
    requires fits { queue_fits name ≡ true }
    requires ahead { AreOpen notes.now names }
    ensures rule { S.rule store.new ≡ S.rule store.old }
    ensures later { S.faults store.old ≤ S.faults store.new }
    ensures failed { IfErr result (λ e. e ≡ worker.Failed → Rose (S.faults store.old) (S.faults store.new)) }
    ensures fits { IfOk result (λ next. IsFitPhase notes.now next.phase) }
    ensures goes { IfOk result (Goes (λ m. HandsOver notes.now name [] names m) notes.now) }
    ensures went { S.tells → Led (is_allowed (S.rule store.old)) (S.log store.old) (S.log store.new) (λ m. HandsOver notes.now name [] names m) notes.now notes.now result }
{
    let id = task_of(name);
    let there = close(alloc, store, &notes.plan.queue, name)?;
    let line = by_presence(there, Line::Done(id), Line::Late(id));
    Ok(Next {
        phase: next_try(names),
        turn: Turn::Said(line),
    })
}

/// Hands over the next output of a task; after the last one, calls the task done.
pub(crate) fn hand_over<S: Store<Pipeline>>(
    alloc: Global,
    store: &mut S,
    notes: &Notes,
    name: QueueName,
    outputs: Ahead<Output>,
    names: Ahead<QueueName>,
) -> Result<Next, WorkerError>
    requires notes { AreFitNotes notes.now }
    requires fits { IsFinishing notes.now name outputs names }
    ensures rule { S.rule store.new ≡ S.rule store.old }
    ensures later { S.faults store.old ≤ S.faults store.new }
    ensures failed { IfErr result (λ e. e ≡ worker.Failed → Rose (S.faults store.old) (S.faults store.new)) }
    ensures fits { IfOk result (λ next. IsFitPhase notes.now next.phase) }
    ensures goes { IfOk result (Goes (λ m. HandsOver notes.now name outputs names m) notes.now) }
    ensures went { S.tells → Led (is_allowed (S.rule store.old)) (S.log store.old) (S.log store.new) (λ m. HandsOver notes.now name outputs names m) notes.now notes.now result }
{
    let mut outputs = outputs;
    let Some(output) = outputs.take() else {
        return finish(alloc, store, notes, name, names);
    };
    settle(store, &output)?;
    Ok(Next {
        phase: Phase::Finishing {
            name,
            outputs,
            names,
        },
        turn: Turn::On,
    })
}

/// Makes a leased task a dead letter for this cause, unless its lease was over.
fn refuse<S: Store<Pipeline>>(
    alloc: Global,
    store: &mut S,
    notes: &Notes,
    name: QueueName,
    cause: Why,
    names: Ahead<QueueName>,
) -> Result<Next, WorkerError>
    requires short { length notes.now.plan.queue ≤ 100 }
    requires fits { queue_fits name ≡ true }
    requires ahead { AreOpen notes.now names }
    ensures rule { S.rule store.new ≡ S.rule store.old }
    ensures later { S.faults store.old ≤ S.faults store.new }
    ensures failed { IfErr result (λ e. e ≡ worker.Failed → Rose (S.faults store.old) (S.faults store.new)) }
    ensures fits { IfOk result (λ next. IsFitPhase notes.now next.phase) }
    ensures goes { IfOk result (Goes (λ m. BuriesRefused notes.now name cause names m) notes.now) }
    ensures went { S.tells → Led (is_allowed (S.rule store.old)) (S.log store.old) (S.log store.new) (λ m. BuriesRefused notes.now name cause names m) notes.now notes.now result }
{
    let id = task_of(name);
    let there = give_up(alloc, store, &notes.plan.queue, name)?;
    let line = by_presence(there, Line::Buried { id, cause }, Line::Late(id));
    Ok(Next {
        phase: next_try(names),
        turn: Turn::Said(line),
    })
}

/// What comes of a task over these inputs, all of which were found: its outputs, or why it is buried.
fn run_over(
    alloc: Global,
    stage: &Stage,
    task: u32,
    given: Inputs,
) -> Result<Result<Ahead<Output>, Why>, WorkerError>
    requires sound { is_sound stage.now ≡ true }
    requires below { task < task_count stage.now }
    requires paths { input_paths given ≡ inputs_of stage.now task }
    requires found { All IsFound given }
    ensures comes { IfOk result (λ came. IsOutcome stage.now task given (outcome_of came)) }
    ensures are { IfOk result (λ came. IfOk came (AreOutputs stage.now task)) }
    ensures memory { IfErr result (λ e. e ≡ worker.Memory) }
{
    match run(alloc, stage, task, &given) {
        Ok(outputs) => Ok(Ok(Ahead::of(alloc, outputs)?)),
        Err(RunError::Malformed { path, cause }) => Ok(Err(Why::Malformed { path, cause })),
        Err(RunError::TooManyParts { count }) => Ok(Err(Why::TooManyParts { count })),
        Err(RunError::Memory) => Err(WorkerError::Memory),
        Err(RunError::Missing { .. }) => unreachable!(),
    }
}

/// Runs a leased task over its inputs, and makes the first call that comes of it: the first output is handed over, or the
/// task is buried. The inputs are let go before.
pub(crate) fn run_task<S: Store<Pipeline>>(
    alloc: Global,
    store: &mut S,
    notes: &Notes,
    name: QueueName,
    given: Inputs,
    names: Ahead<QueueName>,
) -> Result<Next, WorkerError>
    requires notes { AreFitNotes notes.now }
    requires fits { IsRunning notes.now name given names }
    ensures rule { S.rule store.new ≡ S.rule store.old }
    ensures later { S.faults store.old ≤ S.faults store.new }
    ensures failed { IfErr result (λ e. e ≡ worker.Failed → Rose (S.faults store.old) (S.faults store.new)) }
    ensures fits { IfOk result (λ next. IsFitPhase notes.now next.phase) }
    ensures goes { IfOk result (Goes (λ m. RunsTask notes.now name given names m) notes.now) }
    ensures went { S.tells → Led (is_allowed (S.rule store.old)) (S.log store.old) (S.log store.new) (λ m. RunsTask notes.now name given names m) notes.now notes.now result }
{
    let Some(stage) = notes.known.find(name.stage) else {
        unreachable!()
    };
    match run_over(alloc, stage, name.task, given)? {
        Ok(outputs) => hand_over(alloc, store, notes, name, outputs, names),
        Err(cause) => refuse(alloc, store, notes, name, cause, names),
    }
}
