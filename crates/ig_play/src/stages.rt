//! The readers of records and tasks, and what a stage's tasks read and own.
ghost use Rattle.std.specs.Prelude.{◌≡◌, true, IfOk};
ghost use Rattle.ig_record.specs.Sound.{is_sound};

use crate::numbers::point_text;
use crate::{Told, World};
use ig_record::{
    RecordError, Stage, dirs, inputs, kind_word, paths, read_stage, read_task, removed,
    write_stage, write_task,
};
use ig_space::{Paths, TaskId, TryClone};
use std::alloc::{AllocError, Global};

fn refusal(alloc: Global, error: &RecordError) -> Result<Told, AllocError> {
    Ok(Told::new(
        alloc,
        match error {
            RecordError::BadRecord { member } => format!(in alloc; "member {}", member.as_str())?,
            RecordError::Memory => String::from_str(alloc, "out of memory")?,
        },
    ))
}

/// The stage of the record at this path, or why it is refused.
fn stage_at(world: &World, number: u32, path: &str) -> Result<Result<Stage, Told>, AllocError>
    ensures { IfOk result (λ found. IfOk found (λ stage. is_sound stage ≡ true)) }
{
    let Some(bytes) = world.found(path)? else {
        return Ok(Err(Told::of(world.alloc, "no file")?));
    };
    match read_stage(world.alloc, number, bytes.as_bytes()) {
        Ok(stage) => Ok(Ok(stage.copy()?)),
        Err(e) => Ok(Err(refusal(world.alloc, &e)?)),
    }
}

/// Adds a line for each path.
fn say_all(told: &mut Told, alloc: Global, word: &str, list: &Paths) -> Result<(), AllocError> {
    for path in list.as_slice() {
        let line = format!(in alloc; "{word} {}", path.as_str())?;
        told.say(line.as_str())?;
    }
    Ok(())
}

/// The kind, the number of tasks and the directories.
#[tactic(auto, using(ig_record::specs::SoundStages::scratch_of_sound))]
fn stage_told(alloc: Global, stage: &Stage) -> Result<Told, AllocError>
    requires { is_sound stage.now ≡ true }
{
    let (word, tasks) = (kind_word(stage.kind), stage.tasks());
    let mut told = Told::new(alloc, format!(in alloc; "{word} tasks {tasks}")?);
    say_all(&mut told, alloc, "writes", &dirs(alloc, stage)?)?;
    if let Some(dir) = removed(stage) {
        let line = format!(in alloc; "removes {}", dir.as_str())?;
        told.say(line.as_str())?;
    }
    Ok(told)
}

/// `read_stage NUMBER PATH`.
pub(crate) fn ask_stage(world: &World, number: u32, path: &str) -> Result<Told, AllocError> {
    match stage_at(world, number, path)? {
        Ok(stage) => stage_told(world.alloc, &stage),
        Err(told) => Ok(told),
    }
}

/// `write_stage NUMBER FROM TO`: what is read is written again.
pub(crate) fn ask_write(
    world: &mut World,
    number: u32,
    path: &str,
    to: &str,
) -> Result<Told, AllocError> {
    let stage = match stage_at(world, number, path)? {
        Ok(stage) => stage,
        Err(told) => return Ok(told),
    };
    let text = write_stage(world.alloc, number, &stage)?;
    world.put(to, text.as_bytes())?;
    Told::of(world.alloc, "written")
}

/// The box of a task, what it reads and what it owns.
fn task_told(alloc: Global, stage: &Stage, task: u32) -> Result<Told, AllocError>
    requires { is_sound stage.now ≡ true }
{
    if task >= stage.tasks() {
        return Told::of(alloc, "no task");
    }
    let area = stage.task_box(task);
    let (lo, hi) = (point_text(alloc, area.lo)?, point_text(alloc, area.hi)?);
    let mut told = Told::new(alloc, format!(in alloc; "box {lo} {hi}")?);
    say_all(&mut told, alloc, "reads", &inputs(alloc, stage, task)?)?;
    say_all(&mut told, alloc, "owns", &paths(alloc, stage, task)?)?;
    Ok(told)
}

/// `task NUMBER PATH TASK`: of the stage of this number whose record has this path.
pub(crate) fn ask_task(
    world: &World,
    number: u32,
    path: &str,
    task: u32,
) -> Result<Told, AllocError> {
    match stage_at(world, number, path)? {
        Ok(stage) => task_told(world.alloc, &stage, task),
        Err(told) => Ok(told),
    }
}

/// Puts a task's text.
fn put_task(world: &mut World, stage: &Stage, id: TaskId, to: &str) -> Result<Told, AllocError>
    requires { is_sound stage.now ≡ true }
{
    if id.task >= stage.tasks() {
        return Told::of(world.alloc, "no task");
    }
    let text = write_task(world.alloc, id, stage)?;
    world.put(to, text.as_bytes())?;
    Told::of(world.alloc, "written")
}

/// `write_task NUMBER PATH TASK TO`.
pub(crate) fn ask_write_task(
    world: &mut World,
    number: u32,
    path: &str,
    task: u32,
    to: &str,
) -> Result<Told, AllocError> {
    let id = TaskId {
        stage: number,
        task,
    };
    match stage_at(world, number, path)? {
        Ok(stage) => put_task(world, &stage, id, to),
        Err(told) => Ok(told),
    }
}

/// What a task's text is read as.
fn read_told(alloc: Global, stage: &Stage, bytes: &[u8]) -> Result<Told, AllocError>
    requires { is_sound stage.now ≡ true }
{
    match read_task(alloc, bytes, stage) {
        Ok(id) => {
            let (stage, task) = (id.stage, id.task);
            Ok(Told::new(alloc, format!(in alloc; "stage {stage} task {task}")?))
        }
        Err(e) => refusal(alloc, &e),
    }
}

/// `read_task NUMBER RECORD PATH`: the task's text at this path, of the stage of that record.
pub(crate) fn ask_read_task(
    world: &World,
    number: u32,
    record: &str,
    path: &str,
) -> Result<Told, AllocError> {
    let stage = match stage_at(world, number, record)? {
        Ok(stage) => stage,
        Err(told) => return Ok(told),
    };
    match world.found(path)? {
        Some(bytes) => read_told(world.alloc, &stage, bytes.as_bytes()),
        None => Told::of(world.alloc, "no file"),
    }
}
