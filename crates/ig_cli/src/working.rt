//! Runs a worker till it ends, and prints what it says.
ghost use Rattle.std.specs.Prelude.{◌≡◌, ◌≤◌, ◌<◌, [], ◌∷◌, ◌++◌, ◌⊎◌, ◌==◌, if◌then◌else◌, Contains, None, Some, Err, IfOk, IfErr, false};
ghost use Rattle.ig_defs.specs.Causes.{Rose};
ghost use Rattle.ig_defs.specs.Log.{files_of};
ghost use Rattle.ig_meaning.specs.Lines.{fault_line, memory_text, store_text};
ghost use Rattle.ig_rule.specs.Sound.{Legal};
ghost use Rattle.ig_task.specs.Facts.{stage_reader};
ghost use Rattle.ig_task.specs.Pipeline.{is_allowed};
ghost use Rattle.ig_worker.specs.Knows.{Knows};
ghost use Rattle.ig_worker.specs.Left.{is_over, left_of};
ghost use Rattle.ig_worker.specs.Lines.{end_text};
ghost use Rattle.ig_worker.specs.Plans.{HasLimits};
ghost use Rattle.ig_cli.specs.Report.{err_line, Ends, HasTold};
ghost use Rattle.ig_cli.specs.Worked.{status_of_end, HasWorked};
ghost use Rattle.ig_cli.specs.Working.{ending_of_run, HasStopCause, IsStatusOfRun, Ran, SaysEnd, TakesEnd, TakesLine, Turned};
ghost use Rattle.ig_cli.specs.declared.working.Stop.TheVariants as stop;

use crate::lines::{FaultLine, line_of_worker};
use crate::report::complain;
use crate::worker_lines::{end_line, line_of};
use ig_store::{Clock, Sink, SinkFault, Store};
use ig_task::Pipeline;
use ig_worker::{End, Line, Plan, Turn, Worker, WorkerError};
use std::alloc::{AllocError, Global};
use std::thread::Threads;

/// Why a run stops before its end: the worker has stopped, the output failed, or there was no memory for a line.
#[derive(Debug, Drop)]
pub enum Stop {
    Worker(WorkerError),
    Output,
    Memory,
}

impl From<WorkerError> for Stop {
    ghost from_gives = { λ e made. made ≡ stop.Worker e };

    fn from(e: WorkerError) -> Stop {
        Stop::Worker(e)
    }
}

impl From<SinkFault> for Stop {
    ghost from_gives = { λ _ made. made ≡ stop.Output };

    fn from(_e: SinkFault) -> Stop {
        Stop::Output
    }
}

impl From<AllocError> for Stop {
    ghost from_gives = { λ _ made. made ≡ stop.Memory };

    fn from(_e: AllocError) -> Stop {
        Stop::Memory
    }
}

/// Writes a line out.
fn say<O: Sink>(alloc: Global, line: &Line, out: &mut O) -> Result<(), Stop>
    ensures later { O.faults out.old ≤ O.faults out.new }
    ensures failed { IfErr result (λ e. e ≡ stop.Output → Rose (O.faults out.old) (O.faults out.new)) }
    ensures took { TakesLine O.tells line.now (O.taken out.old) (O.taken out.new) result }
{
    let text = line_of(alloc, line)?;
    out.write(text.as_str().as_bytes())?;
    Ok(())
}

/// One step of the worker, and its line. Gives its end.
fn turn<R: Threads + Sync, S: Store<Pipeline>, C: Clock, O: Sink>(
    rt: &R,
    alloc: Global,
    worker: &mut Worker,
    store: &mut S,
    clock: &mut C,
    out: &mut O,
) -> Result<Option<End>, Stop>
    requires time { worker.old.notes.at ≤ C.last clock.old }
    requires going { is_over worker.old.phase ≡ false }
    ensures rule { S.rule store.new ≡ S.rule store.old }
    ensures later { S.faults store.old ≤ S.faults store.new }
    ensures out_later { O.faults out.old ≤ O.faults out.new }
    ensures cause { IfErr result (λ e. HasStopCause e (S.faults store.old) (S.faults store.new) (O.faults out.old) (O.faults out.new)) }
    ensures plan { worker.new.notes.plan ≡ worker.old.notes.plan }
    ensures time { C.last clock.old ≤ C.last clock.new }
    ensures at { worker.new.notes.at ≤ C.last clock.new }
    ensures left { left_of worker.new < left_of worker.old }
    ensures going { IfOk result (λ end. end ≡ None → is_over worker.new.phase ≡ false) }
    ensures turned { S.tells → Turned (is_allowed (S.rule store.old)) (C.last clock.old) (C.last clock.new) worker.old (S.log store.old) (S.log store.new) worker.new O.tells (O.taken out.old) (O.taken out.new) result }
    ensures legal { S.tells → (S.rule store.old).queue ≡ Some worker.old.notes.plan.queue → Legal stage_reader worker.old.notes.plan.queue (S.log store.old) → Knows worker.old (files_of (S.log store.old)) → Legal stage_reader worker.old.notes.plan.queue (S.log store.new) }
    ensures known { S.tells → (S.rule store.old).queue ≡ Some worker.old.notes.plan.queue → Legal stage_reader worker.old.notes.plan.queue (S.log store.old) → Knows worker.old (files_of (S.log store.old)) → IfOk result (λ end. Knows worker.new (files_of (S.log store.new))) }
{
    match worker.step(rt, store, clock)? {
        Turn::On => Ok(None),
        Turn::Said(line) => {
            say(alloc, &line, out)?;
            Ok(None)
        }
        Turn::Ended(end) => Ok(Some(end)),
    }
}

/// Starts a worker and takes its steps till it ends.
fn run<R: Threads + Sync, S: Store<Pipeline>, C: Clock, O: Sink>(
    rt: &R,
    alloc: Global,
    plan: Plan,
    store: &mut S,
    clock: &mut C,
    out: &mut O,
) -> Result<End, Stop>
    requires limits { HasLimits plan }
    requires rule { (S.rule store.old).queue ≡ Some plan.queue }
    ensures rule { S.rule store.new ≡ S.rule store.old }
    ensures later { S.faults store.old ≤ S.faults store.new }
    ensures out_later { O.faults out.old ≤ O.faults out.new }
    ensures cause { IfErr result (λ e. HasStopCause e (S.faults store.old) (S.faults store.new) (O.faults out.old) (O.faults out.new)) }
    ensures ran { S.tells → Ran (is_allowed (S.rule store.old)) plan (C.last clock.old) (C.last clock.new) (S.log store.old) (S.log store.new) O.tells (O.taken out.old) (O.taken out.new) result }
    ensures legal { S.tells → Legal stage_reader plan.queue (S.log store.old) → Legal stage_reader plan.queue (S.log store.new) }
{
    let mut worker = Worker::start(alloc, plan)?;
    loop {
        match turn(rt, alloc, &mut worker, store, clock, out)? {
            Some(end) => return Ok(end),
            None => {}
        }
    }
}

/// The status of a worker's end.
fn status_of(end: End) -> u8
    ensures { result ≡ status_of_end end }
{
    match end {
        End::Finished { .. } => 0,
        End::Waiting { .. } => 3,
        End::Letters { .. } => 4,
        End::Spent { .. } => 8,
    }
}

/// Prints the line of a worker's end, and gives the status.
fn conclude_end<O: Sink, E: Sink>(alloc: Global, end: End, out: &mut O, err: &mut E) -> u8
    ensures status { (result ≡ status_of_end end) ⊎ ((result ≡ 7) ⊎ (result ≡ 9)) }
    ensures nine { result ≡ 9 → Rose (O.faults out.old) (O.faults out.new) }
    ensures out_later { O.faults out.old ≤ O.faults out.new }
    ensures err_later { E.faults err.old ≤ E.faults err.new }
    ensures out { O.tells → TakesEnd (end_text end) result (O.taken out.old) (O.taken out.new) }
    ensures err { E.tells → HasTold (if result == 7 then fault_line memory_text else []) (E.faults err.old) (E.faults err.new) (E.taken err.old) (E.taken err.new) }
    ensures silent { ¬ (result ≡ 7) → err.new ≡ err.old }
{
    let Ok(line) = end_line(alloc, end) else {
        return complain(&FaultLine::Memory, err);
    };
    match out.write(line.as_str().as_bytes()) {
        Ok(()) => status_of(end),
        Err(_) => 9,
    }
}

/// Prints what a run that stopped so prints at last, and gives the status.
fn conclude<O: Sink, E: Sink>(
    alloc: Global,
    ran: &Result<End, Stop>,
    out: &mut O,
    err: &mut E,
) -> u8
    ensures status { IsStatusOfRun ran.now result }
    ensures nine { result ≡ 9 → (ran.now ≡ Err stop.Output) ⊎ Rose (O.faults out.old) (O.faults out.new) }
    ensures out_later { O.faults out.old ≤ O.faults out.new }
    ensures err_later { E.faults err.old ≤ E.faults err.new }
    ensures out { O.tells → SaysEnd ran.now result (O.taken out.old) (O.taken out.new) }
    ensures err { E.tells → HasTold (err_line (Ends (ending_of_run ran.now)) result) (E.faults err.old) (E.faults err.new) (E.taken err.old) (E.taken err.new) }
    ensures silent { ¬ (result ≡ 5) → ¬ (result ≡ 6) → ¬ (result ≡ 7) → err.new ≡ err.old }
{
    match ran {
        Ok(end) => conclude_end(alloc, *end, out, err),
        Err(Stop::Worker(e)) => complain(&line_of_worker(alloc, e), err),
        Err(Stop::Memory) => complain(&FaultLine::Memory, err),
        Err(Stop::Output) => 9,
    }
}

/// Runs a worker of this plan till it ends, and prints what it says, each line as it is said. Gives the exit status: 0 where all
/// tasks are done, 3 where some are not and none may be leased now, 4 where there are dead letters, 8 where it has tried as many
/// names as it may, 5 where a record is missing or malformed, 6 at a fault of the store, 7 where memory ran out, 9 at a fault of
/// the output.
pub fn work<R: Threads + Sync, S: Store<Pipeline>, C: Clock, O: Sink, E: Sink>(
    rt: &R,
    alloc: Global,
    plan: Plan,
    store: &mut S,
    clock: &mut C,
    out: &mut O,
    err: &mut E,
) -> u8
    requires limits { HasLimits plan }
    requires rule { (S.rule store.old).queue ≡ Some plan.queue }
    ensures rule { S.rule store.new ≡ S.rule store.old }
    ensures later { S.faults store.old ≤ S.faults store.new }
    ensures out_later { O.faults out.old ≤ O.faults out.new }
    ensures err_later { E.faults err.old ≤ E.faults err.new }
    ensures statuses { Contains (0 ∷ 3 ∷ 4 ∷ 5 ∷ 6 ∷ 7 ∷ 8 ∷ 9 ∷ []) result }
    ensures store_failed { result ≡ 6 → Rose (S.faults store.old) (S.faults store.new) }
    ensures out_failed { result ≡ 9 → Rose (O.faults out.old) (O.faults out.new) }
    ensures worked { S.tells → HasWorked (is_allowed (S.rule store.old)) plan (C.last clock.old) (C.last clock.new) (S.log store.old) (S.log store.new) result O.tells (O.taken out.old) (O.taken out.new) E.tells (E.faults err.old) (E.faults err.new) (E.taken err.old) (E.taken err.new) }
    ensures legal { S.tells → Legal stage_reader plan.queue (S.log store.old) → Legal stage_reader plan.queue (S.log store.new) }
    ensures told_store { E.tells → ¬ Rose (E.faults err.old) (E.faults err.new) → result ≡ 6 → E.taken err.new ≡ E.taken err.old ++ fault_line store_text }
    ensures told_memory { E.tells → ¬ Rose (E.faults err.old) (E.faults err.new) → result ≡ 7 → E.taken err.new ≡ E.taken err.old ++ fault_line memory_text }
    ensures silent { ¬ (result ≡ 5) → ¬ (result ≡ 6) → ¬ (result ≡ 7) → err.new ≡ err.old }
{
    let ran = run(rt, alloc, plan, store, clock, out);
    conclude(alloc, &ran, out, err)
}
