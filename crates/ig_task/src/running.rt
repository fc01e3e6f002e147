//! What a task makes of what was found of its inputs. Nothing is read or put here.
ghost use Rattle.std.specs.Prelude.{◌≡◌, ◌≢◌, ◌<◌, ◌+◌, [], ◌∷◌, ◌++◌, IfOk, IfErr, OnOk, None, Some, length, map, option_map, reverse, true};
ghost use Rattle.ig_space.specs.Grid.{size_of};
ghost use Rattle.ig_space.specs.Raw.{AllFit};
ghost use Rattle.ig_layer.specs.Layer.{Reading};
ghost use Rattle.ig_mode.specs.HasMips.{HasMip};
ghost use Rattle.ig_record.specs.declared.stage.Kind.TheVariants.{Xfer, Downsample, Count, Remove};
ghost use Rattle.ig_record.specs.Sound.{is_sound};
ghost use Rattle.ig_record.specs.Columns.{inputs_of, paths_of};
ghost use Rattle.ig_record.specs.Stage.{task_box, task_count};
ghost use Rattle.ig_meaning.specs.Task.{task_outputs, task_refusal};
ghost use Rattle.ig_meaning.specs.Wants.{removal_of};
ghost use Rattle.ig_cutout.specs.Inputs.{HoldsAll, paths_of as input_paths};
ghost use Rattle.ig_task.specs.Answers.{AreMadeOf, AreOfMip, missing_path, RefusesTask};
ghost use Rattle.ig_task.specs.Facts.{given_to};
ghost use Rattle.ig_task.specs.Wanted.{AreWanted};

use crate::RunError;
use ig_count::{count, write_counts};
use ig_cutout::{Inputs, Output, Outputs, assemble, cut_chunks};
use ig_mode::mips;
use ig_record::{Kind, Stage, box_written, paths};
use ig_space::{Path, Place, TryClone, Volume};
use std::alloc::{AllocError, Global};

/// The path of the first input that was not found.
fn absent(inputs: &Inputs) -> Option<&Path>
    ensures { option_map (λ path. path.now) result ≡ missing_path inputs.now }
{
    for input in inputs.as_slice() {
        if input.found.is_none() {
            return Some(&input.path);
        }
    }
    None
}

/// The scale that a copy writes.
fn dest(stage: &Stage) -> &Place
    requires sound { is_sound stage.now ≡ true }
    requires copies { stage.now.kind ≡ Xfer }
    ensures { stage.now.dests ≡ result.now ∷ [] }
{
    &stage.dests.as_slice()[0]
}

/// The chunks of a copy, of the labels of the task's box.
fn copied(alloc: Global, stage: &Stage, task: u32, volume: &Volume) -> Result<Outputs, AllocError>
    requires sound { is_sound stage.now ≡ true }
    requires copies { stage.now.kind ≡ Xfer }
    requires below { task < task_count stage.now }
    requires size { volume.now.size ≡ size_of (task_box stage.now task) }
    requires fit { AllFit stage.now.source.geometry.width volume.now.labels }
    ensures { IfOk result (AreMadeOf stage.now task volume.now.labels) }
{
    let outputs = cut_chunks(alloc, dest(stage), stage.task_box(task), volume)?;
    Ok(outputs)
}

/// The items of a list, the last one first.
fn reversed(alloc: Global, outputs: Outputs) -> Result<Outputs, AllocError>
    ensures { IfOk result (λ last_first. last_first ≡ reverse outputs) }
{
    let mut rest = outputs;
    let mut last_first = Outputs::new(alloc);
    while let Some(output) = rest.pop() {
        last_first.push(output)?;
    }
    Ok(last_first)
}

/// Moves the items of a list to the end of another.
fn add_all(alloc: Global, outputs: &mut Outputs, more: Outputs) -> Result<(), AllocError>
    ensures { OnOk result (outputs.new ≡ outputs.old ++ more) }
{
    let mut rest = reversed(alloc, more)?;
    while let Some(output) = rest.pop() {
        outputs.push(output)?;
    }
    Ok(())
}

/// The chunks of a mip of the labels of the task's box, in the scale at this place, from 0 on.
fn mip_chunks(
    alloc: Global,
    stage: &Stage,
    task: u32,
    place: u32,
    volume: &Volume,
    mip: &Volume,
) -> Result<Outputs, AllocError>
    requires sound { is_sound stage.now ≡ true }
    requires mips { stage.now.kind ≡ Downsample }
    requires below { task < task_count stage.now }
    requires size { volume.now.size ≡ size_of (task_box stage.now task) }
    requires fit { AllFit stage.now.source.geometry.width volume.now.labels }
    requires scale { place < length stage.now.dests }
    requires mip { HasMip (place + 1) volume.now mip.now }
    ensures { IfOk result (AreOfMip stage.now task place volume.now.labels) }
{
    let dest = &stage.dests.as_slice()[place as usize];
    let area = box_written(stage, task, place + 1);
    // read for what their contracts say: that each volume has as many labels as its size tells
    let (_labels, _halved) = (volume.labels(), mip.labels());
    cut_chunks(alloc, dest, area, mip)
}

/// The chunks of the mips of the labels of the task's box, scale by scale.
fn downsampled(
    alloc: Global,
    stage: &Stage,
    task: u32,
    volume: &Volume,
) -> Result<Outputs, AllocError>
    requires sound { is_sound stage.now ≡ true }
    requires mips { stage.now.kind ≡ Downsample }
    requires below { task < task_count stage.now }
    requires size { volume.now.size ≡ size_of (task_box stage.now task) }
    requires fit { AllFit stage.now.source.geometry.width volume.now.labels }
    ensures { IfOk result (AreMadeOf stage.now task volume.now.labels) }
{
    let levels = stage.dests.len() as u32;
    let volumes = mips(alloc, volume, levels)?;
    let mut outputs = Outputs::new(alloc);
    for place in 0..levels {
        let mip = &volumes.as_slice()[place as usize];
        let chunks = mip_chunks(alloc, stage, task, place, volume, mip)?;
        add_all(alloc, &mut outputs, chunks)?;
    }
    Ok(outputs)
}

/// The path of the counts of a task.
fn counts_path(alloc: Global, stage: &Stage, task: u32) -> Result<Path, AllocError>
    requires sound { is_sound stage.now ≡ true }
    requires counts { stage.now.kind ≡ Count }
    requires below { task < task_count stage.now }
    ensures { IfOk result (λ path. paths_of stage.now task ≡ path ∷ []) }
{
    let own = paths(alloc, stage, task)?;
    own.as_slice()[0].copy()
}

/// The file of the counts of the labels of the task's box.
fn counted(alloc: Global, stage: &Stage, task: u32, volume: &Volume) -> Result<Outputs, AllocError>
    requires sound { is_sound stage.now ≡ true }
    requires counts { stage.now.kind ≡ Count }
    requires below { task < task_count stage.now }
    ensures { IfOk result (AreMadeOf stage.now task volume.now.labels) }
{
    let counts = count(alloc, volume)?;
    let mut outputs = Outputs::new(alloc);
    outputs.push(Output {
        path: counts_path(alloc, stage, task)?,
        text: Some(write_counts(alloc, &counts)?),
    })?;
    Ok(outputs)
}

/// By the kind: the files that a task makes of the labels of its box.
fn made_of(alloc: Global, stage: &Stage, task: u32, volume: &Volume) -> Result<Outputs, AllocError>
    requires sound { is_sound stage.now ≡ true }
    requires makes { stage.now.kind ≢ Remove }
    requires below { task < task_count stage.now }
    requires size { volume.now.size ≡ size_of (task_box stage.now task) }
    requires fit { AllFit stage.now.source.geometry.width volume.now.labels }
    ensures { IfOk result (AreMadeOf stage.now task volume.now.labels) }
{
    match stage.kind {
        Kind::Xfer => copied(alloc, stage, task, volume),
        Kind::Downsample => downsampled(alloc, stage, task, volume),
        Kind::Count => counted(alloc, stage, task, volume),
        Kind::Faces | Kind::Links | Kind::Labels => unreachable!(),
        Kind::Relabel | Kind::Sum | Kind::Remove => unreachable!(),
    }
}

/// The files that a task makes of the chunks in its box, all of which were found.
fn files(alloc: Global, stage: &Stage, task: u32, given: &Inputs) -> Result<Outputs, RunError>
    requires sound { is_sound stage.now ≡ true }
    requires makes { stage.now.kind ≢ Remove }
    requires below { task < task_count stage.now }
    requires paths { input_paths given.now ≡ inputs_of stage.now task }
    requires found { missing_path given.now ≡ None }
    ensures made { IfOk result (λ outputs. (files : Reading) → HoldsAll files given.now → task_outputs stage.now task files ≡ Some outputs) }
    ensures refused { IfErr result (λ e. (files : Reading) → HoldsAll files given.now → RefusesTask e (task_refusal stage.now task files)) }
{
    let area = stage.task_box(task);
    let volume = assemble(alloc, &stage.source, area, given)?;
    let outputs = made_of(alloc, stage, task, &volume)?;
    Ok(outputs)
}

/// The chunks that a removal takes away.
fn removals(alloc: Global, stage: &Stage, task: u32) -> Result<Outputs, AllocError>
    requires sound { is_sound stage.now ≡ true }
    requires below { task < task_count stage.now }
    ensures { IfOk result (λ outputs. outputs ≡ map removal_of (paths_of stage.now task)) }
{
    let mut outputs = Outputs::new(alloc);
    for path in paths(alloc, stage, task)?.as_slice() {
        outputs.push(Output {
            path: path.copy()?,
            text: None,
        })?;
    }
    Ok(outputs)
}

/// By the kind: what a task makes of its inputs, all of which were found.
fn made(alloc: Global, stage: &Stage, task: u32, given: &Inputs) -> Result<Outputs, RunError>
    requires sound { is_sound stage.now ≡ true }
    requires below { task < task_count stage.now }
    requires paths { input_paths given.now ≡ inputs_of stage.now task }
    requires found { missing_path given.now ≡ None }
    ensures made { IfOk result (λ outputs. (files : Reading) → HoldsAll files given.now → task_outputs stage.now task files ≡ Some outputs) }
    ensures refused { IfErr result (λ e. (files : Reading) → HoldsAll files given.now → RefusesTask e (task_refusal stage.now task files)) }
{
    match stage.kind {
        Kind::Remove => Ok(removals(alloc, stage, task)?),
        Kind::Xfer | Kind::Downsample | Kind::Faces | Kind::Links | Kind::Labels => {
            files(alloc, stage, task, given)
        }
        Kind::Relabel | Kind::Count | Kind::Sum => files(alloc, stage, task, given),
    }
}

/// What a task makes of what was found of its inputs, in the order of its paths: files, and of a removal what is taken
/// away. `Missing` is the first input that was not found; else `Malformed` is the first that is no text of its chunk. Where the
/// inputs are those of the source in some files, and what earlier passes want, the outputs are what the stage wants.
pub fn run(alloc: Global, stage: &Stage, task: u32, given: &Inputs) -> Result<Outputs, RunError>
    requires sound { is_sound stage.now ≡ true }
    requires below { task < task_count stage.now }
    requires paths { input_paths given.now ≡ inputs_of stage.now task }
    ensures made { IfOk result (λ outputs. (files : Reading) → HoldsAll files given.now → task_outputs stage.now task files ≡ Some outputs) }
    ensures wanted { IfOk result (λ outputs. (files : Reading) → HoldsAll (given_to stage.now files) given.now → AreWanted stage.now task files outputs) }
    ensures refused { IfErr result (λ e. (files : Reading) → HoldsAll files given.now → RefusesTask e (task_refusal stage.now task files)) }
{
    if let Some(path) = absent(given) {
        return Err(RunError::Missing { path: path.copy()? });
    }
    made(alloc, stage, task, given)
}
