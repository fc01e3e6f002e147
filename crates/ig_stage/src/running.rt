//! Runs a stage that is planned: puts its info, and then, task by task, reads the inputs and puts the outputs.
ghost use Rattle.std.specs.Prelude.{◌≡◌, ◌<◌, [], ◌∷◌, Some, IfOk};
ghost use Rattle.ig_record.specs.Columns.{inputs_of};
ghost use Rattle.ig_record.specs.Stage.{task_count};
ghost use Rattle.ig_cutout.specs.Inputs.{paths_of};
ghost use Rattle.ig_stage.specs.Drafts.{CanRun};
ghost use Rattle.ig_stage.specs.Errors.{HasCauseFor};
ghost use Rattle.ig_stage.specs.Pipeline.{local_rule};
ghost use Rattle.ig_stage.specs.Running.{ending_of, PutsFile, PutsInfo, PutsOutputs, ReadsInputs, Runs, RunsTask};

use crate::LocalError;
use crate::calls::{put, read};
use ig_cutout::{Input, Inputs, Output, Outputs};
use ig_record::{Stage, inputs};
use ig_space::{Bytes, Path, Paths, TryClone};
use ig_store::Store;
use ig_task::{Pipeline, run as run_on};
use std::alloc::Global;

/// Reads the files at these paths, in order.
fn read_inputs<S: Store<Pipeline>>(
    alloc: Global,
    store: &mut S,
    paths: &Paths,
) -> Result<Inputs, LocalError>
    requires rule { S.rule store.old ≡ local_rule }
    ensures rule { S.rule store.new ≡ local_rule }
    ensures cause { HasCauseFor (S.faults store.old) (S.faults store.new) (ending_of result) }
    ensures paths { IfOk result (λ inputs. paths_of inputs ≡ paths.now) }
    ensures did { S.tells → ReadsInputs paths.now (S.log store.old) (S.log store.new) result }
{
    let mut inputs = Inputs::new(alloc);
    for path in paths.as_slice() {
        let path = path.copy()?;
        let found = read(store, &path)?;
        inputs.push(Input { path, found })?;
    }
    Ok(inputs)
}

/// Puts a file.
fn put_file<S: Store<Pipeline>>(store: &mut S, path: &Path, bytes: &Bytes) -> Result<(), LocalError>
    requires rule { S.rule store.old ≡ local_rule }
    ensures rule { S.rule store.new ≡ local_rule }
    ensures cause { HasCauseFor (S.faults store.old) (S.faults store.new) (ending_of result) }
    ensures did { S.tells → PutsFile (S.log store.old) (S.log store.new) path.now bytes.now result }
{
    put(store, path, bytes.as_bytes())?;
    Ok(())
}

/// Puts an output.
fn put_output<S: Store<Pipeline>>(store: &mut S, output: &Output) -> Result<(), LocalError>
    requires rule { S.rule store.old ≡ local_rule }
    ensures rule { S.rule store.new ≡ local_rule }
    ensures cause { HasCauseFor (S.faults store.old) (S.faults store.new) (ending_of result) }
    ensures did { S.tells → PutsOutputs (output.now ∷ []) (S.log store.old) (S.log store.new) result }
{
    match &output.text {
        Some(text) => put_file(store, &output.path, text),
        None => Ok(()),
    }
}

/// Puts the outputs of a task, in order.
fn put_outputs<S: Store<Pipeline>>(store: &mut S, outputs: &Outputs) -> Result<(), LocalError>
    requires rule { S.rule store.old ≡ local_rule }
    ensures rule { S.rule store.new ≡ local_rule }
    ensures cause { HasCauseFor (S.faults store.old) (S.faults store.new) (ending_of result) }
    ensures did { S.tells → PutsOutputs outputs.now (S.log store.old) (S.log store.new) result }
{
    for output in outputs.as_slice() {
        put_output(store, output)?;
    }
    Ok(())
}

/// Reads the inputs of a task, all of them, and puts what it makes of them.
fn run_task<S: Store<Pipeline>>(
    alloc: Global,
    store: &mut S,
    stage: &Stage,
    task: u32,
) -> Result<(), LocalError>
    requires rule { S.rule store.old ≡ local_rule }
    requires can_run { CanRun stage.now }
    requires below { task < task_count stage.now }
    ensures rule { S.rule store.new ≡ local_rule }
    ensures cause { HasCauseFor (S.faults store.old) (S.faults store.new) (ending_of result) }
    ensures ran { S.tells → RunsTask stage.now task (S.log store.old) (S.log store.new) result }
{
    let paths = inputs(alloc, stage, task)?;
    let given = read_inputs(alloc, store, &paths)?;
    let outputs = run_on(alloc, stage, task, &given)?;
    put_outputs(store, &outputs)
}

/// Puts the info of a stage, where it has one.
fn put_info<S: Store<Pipeline>>(store: &mut S, stage: &Stage) -> Result<(), LocalError>
    requires rule { S.rule store.old ≡ local_rule }
    ensures rule { S.rule store.new ≡ local_rule }
    ensures cause { HasCauseFor (S.faults store.old) (S.faults store.new) (ending_of result) }
    ensures did { S.tells → PutsInfo stage.now.info (S.log store.old) (S.log store.new) result }
{
    match &stage.info {
        Some(info) => put_file(store, &info.path, &info.text),
        None => Ok(()),
    }
}

/// Puts the info of a planned stage, if it has one, and runs its tasks, in order.
pub fn run<S: Store<Pipeline>>(
    alloc: Global,
    store: &mut S,
    stage: &Stage,
) -> Result<(), LocalError>
    requires rule { S.rule store.old ≡ local_rule }
    requires can_run { CanRun stage.now }
    ensures rule { S.rule store.new ≡ local_rule }
    ensures cause { HasCauseFor (S.faults store.old) (S.faults store.new) (ending_of result) }
    ensures ran { S.tells → Runs stage.now (S.log store.old) (S.log store.new) (ending_of result) }
{
    put_info(store, stage)?;
    let tasks = stage.tasks();
    for task in 0..tasks {
        run_task(alloc, store, stage, task)?;
    }
    Ok(())
}
