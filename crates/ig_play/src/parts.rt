//! The parts of one box by themselves.
use crate::Told;
use crate::codecs::{say_small, small_volume};
use ig_label::{Labels, label, runs_of};
use ig_space::{Point, TryClone};
use std::alloc::{AllocError, Global};

/// `runs_of SIZE LABEL..`: the first voxel, the length and the label of each run.
pub(crate) fn ask_runs(
    alloc: Global,
    size: Point,
    labels: &[u64],
) -> Result<Option<Told>, AllocError> {
    let Some(volume) = small_volume(alloc, size, labels)? else {
        return Ok(None);
    };
    let mut told = Told::of(alloc, "cut")?;
    for run in runs_of(alloc, &volume)?.copy()?.as_slice() {
        let (first, length, value) = (run.first, run.length, run.label);
        told.say(format!(in alloc; "{first} {length} {value}")?.as_str())?;
    }
    Ok(Some(told))
}

/// The part of each voxel in one line, and then the first voxel and the label of each part.
fn parts_told(alloc: Global, labels: &Labels) -> Result<Told, AllocError> {
    let mut told = Told::of(alloc, "labelled")?;
    say_small(alloc, &mut told, labels.local.as_slice())?;
    for (first, value) in labels
        .firsts
        .as_slice()
        .iter()
        .zip(labels.values.as_slice())
    {
        told.say(format!(in alloc; "{first} {value}")?.as_str())?;
    }
    Ok(told)
}

/// `label SIZE LABEL..`.
pub(crate) fn ask_label(
    alloc: Global,
    size: Point,
    labels: &[u64],
) -> Result<Option<Told>, AllocError> {
    match small_volume(alloc, size, labels)? {
        Some(volume) => Ok(Some(parts_told(alloc, &label(alloc, &volume)?.copy()?)?)),
        None => Ok(None),
    }
}
