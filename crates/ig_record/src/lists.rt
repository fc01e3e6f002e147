//! What a stage reads and writes.
ghost use Rattle.std.specs.Prelude.{◌≡◌, ◌≤◌, ◌<◌, ◌^◌, ◌++◌, ◌∷◌, [], IfOk, IfSome, OnOk, length, option_map, true};
ghost use Rattle.std.specs.List.{AllByRecursion};
ghost use Rattle.ig_space.specs.Chunks.{chunks_in};
ghost use Rattle.ig_space.specs.Geometry.{geometry_fits};
ghost use Rattle.ig_space.specs.Grid.{IsWithin, space_of};
ghost use Rattle.ig_space.specs.Path.{is_segment};
ghost use Rattle.ig_mode.specs.HalvedGrids.{halved_box as halved_box_of};
ghost use Rattle.ig_mode.specs.Mips.{down_times as down_times_of, up_times as up_times_of};
ghost use Rattle.ig_record.specs.declared.stage.Kind.TheVariants.{Links, Labels};
ghost use Rattle.ig_record.specs.Columns.{box_read as box_read_by, box_written as box_written_by, chunks_met, chunks_written as chunks_written_by, dirs_of_all, faces_of_all, files_written as files_written_by, inputs_of, is_among as is_among_dirs, output_dirs, parts_file, paths_of, planes_file, removed_dir, scratch_read, under};
ghost use Rattle.ig_record.specs.Sound.{is_sound};
ghost use Rattle.ig_record.specs.SoundFacts.{IsScratch};
ghost use Rattle.ig_record.specs.Stage.{task_box, task_count};

use crate::files::{add_named, add_numbered, add_numbered_all, path_in};
use crate::layers::is_joined;
use crate::neighbours::upper_neighbours;
use crate::{Kind, Stage};
use ig_space::{Box3, Geometry, Path, Paths, Place, Point, TryClone, chunk_path, chunks_of};
use std::alloc::{AllocError, Global};

// ---- directories

/// The directories of these scales.
fn dirs_of(alloc: Global, places: &[Place]) -> Result<Paths, AllocError>
    ensures { IfOk result (λ paths. paths ≡ dirs_of_all places.now) }
{
    let mut dirs = Paths::new(alloc);
    for place in places {
        dirs.push(place.dir.copy()?)?;
    }
    Ok(dirs)
}

/// The directory of this name in the scratch, if there is a scratch.
fn dir_under(alloc: Global, scratch: &Option<Path>, name: &str) -> Result<Paths, AllocError>
    requires scratch { IfSome scratch.now IsScratch }
    requires name { is_segment name.now ≡ true }
    requires short { length name.now ≤ 6 }
    ensures { IfOk result (λ paths. paths ≡ under scratch.now name.now) }
{
    let mut dirs = Paths::new(alloc);
    if let Some(scratch) = scratch {
        dirs.push(path_in(alloc, scratch, name)?)?;
    }
    Ok(dirs)
}

/// The output directories: all that a stage writes lies directly in one of them.
pub fn dirs(alloc: Global, stage: &Stage) -> Result<Paths, AllocError>
    requires { IfSome stage.now.scratch IsScratch }
    ensures { IfOk result (λ paths. paths ≡ output_dirs stage.now) }
{
    match stage.kind {
        Kind::Xfer | Kind::Downsample | Kind::Relabel => dirs_of(alloc, stage.dests.as_slice()),
        Kind::Faces => dir_under(alloc, &stage.scratch, "faces"),
        Kind::Links => dir_under(alloc, &stage.scratch, "links"),
        Kind::Labels => dir_under(alloc, &stage.scratch, "labels"),
        Kind::Count => dir_under(alloc, &stage.scratch, "parts"),
        Kind::Sum => dir_under(alloc, &stage.scratch, "total"),
        Kind::Remove => Ok(Paths::new(alloc)),
    }
}

/// Whether the directory is that of one of these scales.
pub(crate) fn is_among(dir: &[u8], places: &[Place]) -> bool
    ensures { result ≡ is_among_dirs dir.now (dirs_of_all places.now) }
{
    for place in places {
        if dir == place.dir.as_bytes() {
            return true;
        }
    }
    false
}

/// Whether the directory is that of this name in the scratch.
fn is_under(dir: &[u8], scratch: &Option<Path>, name: &str) -> bool
    ensures { result ≡ is_among_dirs dir.now (under scratch.now name.now) }
{
    match scratch {
        Some(scratch) => is_joined(scratch.as_bytes(), name.as_bytes(), dir),
        None => false,
    }
}

/// Whether the directory is an output directory of the stage.
pub fn writes_in(stage: &Stage, dir: &[u8]) -> bool
    ensures { result ≡ is_among_dirs dir.now (output_dirs stage.now) }
{
    match stage.kind {
        Kind::Xfer | Kind::Downsample | Kind::Relabel => is_among(dir, stage.dests.as_slice()),
        Kind::Faces => is_under(dir, &stage.scratch, "faces"),
        Kind::Links => is_under(dir, &stage.scratch, "links"),
        Kind::Labels => is_under(dir, &stage.scratch, "labels"),
        Kind::Count => is_under(dir, &stage.scratch, "parts"),
        Kind::Sum => is_under(dir, &stage.scratch, "total"),
        Kind::Remove => false,
    }
}

/// The directory whose chunks the stage takes away.
pub fn removed(stage: &Stage) -> Option<&Path>
    ensures { option_map (λ p. p.now) result ≡ removed_dir stage.now }
{
    match stage.kind {
        Kind::Remove => Some(&stage.source.dir),
        Kind::Xfer | Kind::Downsample | Kind::Faces | Kind::Links => None,
        Kind::Labels | Kind::Relabel | Kind::Count | Kind::Sum => None,
    }
}

// ---- chunks

/// Adds the paths of the chunks of the place that meet the box, in grid order.
fn add_chunks(alloc: Global, paths: &mut Paths, place: &Place, area: Box3) -> Result<(), AllocError>
    requires fits { geometry_fits place.now.geometry ≡ true }
    requires within { IsWithin area (space_of place.now.geometry) }
    requires short { length place.now.dir ≤ 300 }
    ensures { OnOk result (paths.new ≡ paths.old ++ chunks_in place.now area) }
{
    let hull = place.geometry.chunks().hull(area);
    let before = paths.len();
    while ((paths.len() - before) as u128) < hull.count() {
        let area = hull.cell((paths.len() - before) as u64);
        paths.push(chunk_path(alloc, &place.dir, area)?)?;
    }
    Ok(())
}

/// A place, halved so often, rounded down.
fn down_times(times: u32, place: u64) -> u64
    ensures value { result ≡ down_times_of times place }
    ensures most { result ≤ place }
{
    let (mut rest, mut halved) = (times, place);
    while rest > 0 {
        halved /= 2;
        rest -= 1;
    }
    halved
}

/// A side, halved so often, rounded up each time.
fn up_times(times: u32, side: u64) -> u64
    ensures value { result ≡ up_times_of times side }
    ensures most { result ≤ side }
{
    let (mut rest, mut halved) = (times, side);
    while rest > 0 {
        halved = halved / 2 + halved % 2;
        rest -= 1;
    }
    halved
}

/// What mips make of a box of a scale.
fn halved_box(mips: u32, scale: &Geometry, area: Box3) -> Box3
    requires fits { geometry_fits scale.now ≡ true }
    requires within { IsWithin area (space_of scale.now) }
    ensures { result ≡ halved_box_of mips scale.now.offset area }
{
    let offset = scale.offset;
    let (x, y) = (down_times(mips, offset.x), down_times(mips, offset.y));
    Box3 {
        lo: Point {
            x: x + down_times(mips, area.lo.x - offset.x),
            y: y + down_times(mips, area.lo.y - offset.y),
            z: area.lo.z,
        },
        hi: Point {
            x: x + up_times(mips, area.hi.x - offset.x),
            y: y + up_times(mips, area.hi.y - offset.y),
            z: area.hi.z,
        },
    }
}

/// The box that a task has in the scale of this number, from 1 on, of those that the stage writes.
pub fn box_written(stage: &Stage, task: u32, number: u32) -> Box3
    requires sound { is_sound stage.now ≡ true }
    requires below { task < task_count stage.now }
    ensures { result ≡ box_written_by stage.now.kind stage.now task number }
{
    let area = stage.task_box(task);
    match stage.kind {
        Kind::Downsample => halved_box(number, &stage.source.geometry, area),
        Kind::Xfer | Kind::Faces | Kind::Links | Kind::Labels => area,
        Kind::Relabel | Kind::Count | Kind::Sum | Kind::Remove => area,
    }
}

/// The paths of the chunks that a task writes, scale by scale.
fn chunks_written(alloc: Global, stage: &Stage, task: u32) -> Result<Paths, AllocError>
    requires sound { is_sound stage.now ≡ true }
    requires below { task < task_count stage.now }
    ensures { IfOk result (λ paths. paths ≡ chunks_written_by stage.now.kind stage.now task) }
{
    let mut paths = Paths::new(alloc);
    let mut number = 1;
    for dest in stage.dests.as_slice() {
        add_chunks(alloc, &mut paths, dest, box_written(stage, task, number))?;
        number += 1;
    }
    Ok(paths)
}

// ---- what a task reads

/// The box whose source chunks a task reads.
fn box_read(stage: &Stage, task: u32) -> Option<Box3>
    requires sound { is_sound stage.now ≡ true }
    requires below { task < task_count stage.now }
    ensures value { result ≡ box_read_by stage.now.kind stage.now task }
    ensures within { IfSome result (λ area. IsWithin area (space_of stage.now.source.geometry)) }
{
    match stage.kind {
        Kind::Xfer | Kind::Downsample | Kind::Faces => Some(stage.task_box(task)),
        Kind::Relabel | Kind::Count => Some(stage.task_box(task)),
        Kind::Links | Kind::Labels | Kind::Sum | Kind::Remove => None,
    }
}

/// Adds the planes and the parts of a task's box.
fn add_faces(
    alloc: Global,
    paths: &mut Paths,
    scratch: &Option<Path>,
    task: u32,
) -> Result<(), AllocError>
    requires scratch { IfSome scratch.now IsScratch }
    requires small { task < 10 ^ 6 }
    ensures { OnOk result (paths.new ≡ paths.old ++ faces_of_all scratch.now (task ∷ [])) }
{
    add_numbered(alloc, paths, scratch, "faces", ".faces", task)?;
    add_numbered(alloc, paths, scratch, "faces", ".parts", task)
}

/// Adds the planes and the parts of these boxes.
fn add_faces_of(
    alloc: Global,
    paths: &mut Paths,
    scratch: &Option<Path>,
    tasks: &[u64],
) -> Result<(), AllocError>
    requires scratch { IfSome scratch.now IsScratch }
    requires small { AllByRecursion (λ k. k < 10 ^ 6) tasks.now }
    ensures { OnOk result (paths.new ≡ paths.old ++ faces_of_all scratch.now tasks.now) }
{
    for task in tasks {
        add_faces(alloc, paths, scratch, *task as u32)?;
    }
    Ok(())
}

/// Adds the paths that a task of links reads: of its own box, and of those one above it.
#[tactic(auto, using(crate::proofs::TaskCounts::sound_scratch))]
fn add_links_read(
    alloc: Global,
    paths: &mut Paths,
    stage: &Stage,
    task: u32,
) -> Result<(), AllocError>
    requires sound { is_sound stage.now ≡ true }
    requires below { task < task_count stage.now }
    ensures { OnOk result (paths.new ≡ paths.old ++ scratch_read Links stage.now task) }
{
    add_faces(alloc, paths, &stage.scratch, task)?;
    let above = upper_neighbours(alloc, stage, task)?;
    add_faces_of(alloc, paths, &stage.scratch, above.as_slice())
}

/// Adds the paths of all parts, and then of all links.
#[tactic(auto, using(crate::proofs::TaskCounts::sound_scratch))]
fn add_labels_read(alloc: Global, paths: &mut Paths, stage: &Stage) -> Result<(), AllocError>
    requires { is_sound stage.now ≡ true }
    ensures { OnOk result (paths.new ≡ paths.old ++ scratch_read Labels stage.now 0) }
{
    let cells = stage.cells();
    add_numbered_all(alloc, paths, &stage.scratch, "faces", ".parts", cells)?;
    add_numbered_all(alloc, paths, &stage.scratch, "links", ".links", cells)
}

/// Adds the paths of earlier passes' files that a task reads.
#[tactic(auto, using(crate::proofs::TaskCounts::sound_scratch))]
fn add_scratch_read(
    alloc: Global,
    paths: &mut Paths,
    stage: &Stage,
    task: u32,
) -> Result<(), AllocError>
    requires sound { is_sound stage.now ≡ true }
    requires below { task < task_count stage.now }
    ensures { OnOk result (paths.new ≡ paths.old ++ scratch_read stage.now.kind stage.now task) }
{
    let scratch = &stage.scratch;
    match stage.kind {
        Kind::Links => add_links_read(alloc, paths, stage, task),
        Kind::Labels => add_labels_read(alloc, paths, stage),
        Kind::Relabel => add_numbered(alloc, paths, scratch, "labels", ".table", task),
        Kind::Sum => add_numbered_all(alloc, paths, scratch, "parts", ".counts", stage.cells()),
        Kind::Xfer | Kind::Downsample | Kind::Faces | Kind::Count | Kind::Remove => Ok(()),
    }
}

/// The paths of the source chunks that a task reads.
fn chunks_read(alloc: Global, stage: &Stage, task: u32) -> Result<Paths, AllocError>
    requires sound { is_sound stage.now ≡ true }
    requires below { task < task_count stage.now }
    ensures { IfOk result (λ paths. paths ≡ chunks_met stage.now.source (box_read_by stage.now.kind stage.now task)) }
{
    match box_read(stage, task) {
        Some(area) => chunks_of(alloc, &stage.source, area),
        None => Ok(Paths::new(alloc)),
    }
}

/// The paths that a task reads, in order.
pub fn inputs(alloc: Global, stage: &Stage, task: u32) -> Result<Paths, AllocError>
    requires sound { is_sound stage.now ≡ true }
    requires below { task < task_count stage.now }
    ensures { IfOk result (λ paths. paths ≡ inputs_of stage.now task) }
{
    let mut paths = chunks_read(alloc, stage, task)?;
    add_scratch_read(alloc, &mut paths, stage, task)?;
    Ok(paths)
}

// ---- what a task owns

/// Adds the parts and the planes of a task's box.
fn add_parts(
    alloc: Global,
    paths: &mut Paths,
    scratch: &Option<Path>,
    task: u32,
) -> Result<(), AllocError>
    requires scratch { IfSome scratch.now IsScratch }
    requires small { task < 10 ^ 6 }
    ensures { OnOk result (paths.new ≡ paths.old ++ (parts_file scratch.now task ++ planes_file scratch.now task)) }
{
    add_numbered(alloc, paths, scratch, "faces", ".parts", task)?;
    add_numbered(alloc, paths, scratch, "faces", ".faces", task)
}

/// Adds the files that a task of a pass writes.
#[tactic(auto, using(crate::proofs::TaskCounts::sound_scratch))]
fn add_files_written(
    alloc: Global,
    paths: &mut Paths,
    stage: &Stage,
    task: u32,
) -> Result<(), AllocError>
    requires sound { is_sound stage.now ≡ true }
    requires below { task < task_count stage.now }
    ensures { OnOk result (paths.new ≡ paths.old ++ files_written_by stage.now.kind stage.now task) }
{
    let scratch = &stage.scratch;
    match stage.kind {
        Kind::Faces => add_parts(alloc, paths, scratch, task),
        Kind::Links => add_numbered(alloc, paths, scratch, "links", ".links", task),
        Kind::Labels => {
            add_numbered_all(alloc, paths, scratch, "labels", ".table", stage.cells())
        }
        Kind::Count => add_numbered(alloc, paths, scratch, "parts", ".counts", task),
        Kind::Sum => add_named(alloc, paths, scratch, "total", "all.counts"),
        Kind::Xfer | Kind::Downsample | Kind::Relabel | Kind::Remove => Ok(()),
    }
}

/// The files that a task of a pass writes.
fn files_written(alloc: Global, stage: &Stage, task: u32) -> Result<Paths, AllocError>
    requires sound { is_sound stage.now ≡ true }
    requires below { task < task_count stage.now }
    ensures { IfOk result (λ paths. paths ≡ files_written_by stage.now.kind stage.now task) }
{
    let mut paths = Paths::new(alloc);
    add_files_written(alloc, &mut paths, stage, task)?;
    Ok(paths)
}

/// The paths of the chunks of the source that meet a task's box.
fn source_chunks(alloc: Global, stage: &Stage, task: u32) -> Result<Paths, AllocError>
    requires sound { is_sound stage.now ≡ true }
    requires below { task < task_count stage.now }
    ensures { IfOk result (λ paths. paths ≡ chunks_in stage.now.source (task_box stage.now task)) }
{
    chunks_of(alloc, &stage.source, stage.task_box(task))
}

/// The paths that a task owns, in order: those that it writes, or takes away.
pub fn paths(alloc: Global, stage: &Stage, task: u32) -> Result<Paths, AllocError>
    requires sound { is_sound stage.now ≡ true }
    requires below { task < task_count stage.now }
    ensures { IfOk result (λ paths. paths ≡ paths_of stage.now task) }
{
    match stage.kind {
        Kind::Xfer | Kind::Downsample | Kind::Relabel => chunks_written(alloc, stage, task),
        Kind::Faces | Kind::Links | Kind::Labels => files_written(alloc, stage, task),
        Kind::Count | Kind::Sum => files_written(alloc, stage, task),
        Kind::Remove => source_chunks(alloc, stage, task),
    }
}
