//! The names of chunks and of the files of a queue, and paths. Each name that is read is written again.
use crate::Told;
use crate::numbers::point_text;
use ig_queue::{
    QueueName, candidates, parse_queue_name, parse_stage_name, parse_task_name, progress,
    queue_name, stage_name, task_name,
};
use ig_space::{Names, Path, Text, TryClone, chunk_name, parse_chunk_name};
use std::alloc::{AllocError, Global};

/// What a queue name says.
pub(crate) fn queue_text(alloc: Global, name: QueueName) -> Result<String, AllocError> {
    let (visible, stage) = (name.visible, name.stage);
    let (task, attempt) = (name.task, name.attempt);
    format!(in alloc; "visible {visible} stage {stage} task {task} attempt {attempt}")
}

/// The name, and what it was read as.
fn both(alloc: Global, name: &Path, value: &str) -> Result<Told, AllocError> {
    Ok(Told::new(alloc, format!(in alloc; "{} {value}", name.as_str())?))
}

/// `parse_queue_name TEXT`.
pub(crate) fn ask_queue_name(alloc: Global, text: &str) -> Result<Told, AllocError> {
    match parse_queue_name(text) {
        Some(name) => {
            let value = queue_text(alloc, name)?;
            both(alloc, &queue_name(alloc, name)?, value.as_str())
        }
        None => Told::of(alloc, "none"),
    }
}

/// `parse_task_name TEXT`.
pub(crate) fn ask_task_name(alloc: Global, text: &str) -> Result<Told, AllocError> {
    match parse_task_name(text) {
        Some(id) => {
            let (stage, task) = (id.stage, id.task);
            let value = format!(in alloc; "stage {stage} task {task}")?;
            both(alloc, &task_name(alloc, id)?, value.as_str())
        }
        None => Told::of(alloc, "none"),
    }
}

/// `parse_stage_name TEXT`.
pub(crate) fn ask_stage_name(alloc: Global, text: &str) -> Result<Told, AllocError> {
    match parse_stage_name(text) {
        Some(stage) => {
            let value = format!(in alloc; "stage {stage}")?;
            both(alloc, &stage_name(alloc, stage)?, value.as_str())
        }
        None => Told::of(alloc, "none"),
    }
}

/// `parse_chunk_name TEXT`.
pub(crate) fn ask_chunk_name(alloc: Global, text: &str) -> Result<Told, AllocError> {
    match parse_chunk_name(text) {
        Some(area) => {
            let (lo, hi) = (point_text(alloc, area.lo)?, point_text(alloc, area.hi)?);
            let value = format!(in alloc; "box {lo} {hi}")?;
            both(alloc, &chunk_name(alloc, area)?, value.as_str())
        }
        None => Told::of(alloc, "none"),
    }
}

/// `path TEXT`.
pub(crate) fn ask_path(alloc: Global, text: &str) -> Result<Told, AllocError> {
    match Path::new(alloc, text)? {
        Some(path) => Ok(Told::new(alloc, format!(in alloc; "{}", path.as_str())?)),
        None => Told::of(alloc, "none"),
    }
}

/// `join DIR NAME`.
pub(crate) fn ask_join(alloc: Global, dir: &str, name: &str) -> Result<Option<Told>, AllocError> {
    let (Some(dir), Some(name)) = (Path::new(alloc, dir)?, Path::new(alloc, name)?) else {
        return Ok(None);
    };
    Ok(Some(match dir.copy()?.join(&name)? {
        Some(path) => Told::new(alloc, format!(in alloc; "{}", path.as_str())?),
        None => Told::of(alloc, "too long")?,
    }))
}

/// A listing that gave these names.
fn listing(alloc: Global, names: &[&str]) -> Result<Names, AllocError> {
    let mut listed = Names::new(alloc);
    for name in names {
        listed.push(Text::of(alloc, name)?)?;
    }
    Ok(listed)
}

/// `candidates NOW NAME..`: the names that may be leased at this second, in order.
pub(crate) fn ask_candidates(alloc: Global, now: u64, names: &[&str]) -> Result<Told, AllocError> {
    let listed = listing(alloc, names)?;
    let mut told = Told::of(alloc, "listed")?;
    for name in candidates(alloc, &listed, now)?.as_slice() {
        let text = queue_text(alloc, *name)?;
        told.say(text.as_str())?;
    }
    Ok(told)
}

/// `progress NOW NAME..`: how many names of tasks there are, and how many of them may be leased at this second.
pub(crate) fn ask_progress(alloc: Global, now: u64, names: &[&str]) -> Result<Told, AllocError> {
    let found = progress(&listing(alloc, names)?, now);
    let (listed, visible) = (found.listed, found.visible);
    Ok(Told::new(
        alloc,
        format!(in alloc; "listed {listed} visible {visible}")?,
    ))
}
