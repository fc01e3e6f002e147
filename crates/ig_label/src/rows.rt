ghost use Rattle.std.specs.Prelude.{◌≡◌, ◌+◌, ◌%◌, ◌^◌, ◌<◌, ◌≤◌, [], ◌∷◌, ◌++◌, ◌==◌, IfOk, OnOk, length, if◌then◌else◌};
ghost use Rattle.ig_label.specs.Runs.{AreRuns, AreRunsTo, with_run};

use ig_space::{List, TryClone, Volume};
use std::alloc::{AllocError, Global};

/// A run of one label along x: its first voxel by its number in the volume, its length in voxels, and its label.
#[derive(Clone, Copy, Debug, PartialEq, Eq)]
pub struct Run {
    pub first: u32,
    pub length: u32,
    pub label: u64,
}

/// Runs of labels.
pub type Runs = List<Run>;

impl TryClone for Run {
    fn copy(&self) -> Result<Run, AllocError> {
        Ok(*self)
    }
}

/// The runs of one nonzero label along x, each as long as can be and in one row, ascending by `first`.
pub fn runs_of(alloc: Global, volume: &Volume) -> Result<Runs, AllocError>
    ensures { IfOk result (AreRuns volume.now.size.x volume.now.labels) }
{
    let width = volume.size().x as usize;
    let labels = volume.labels();
    let mut runs = Runs::from_vec(Vec::with_capacity(alloc, changes(labels))?);
    let mut first = 0;
    while first < labels.len() {
        push_row(&mut runs, labels, width, first)?;
        first += width;
    }
    Ok(runs)
}

/// How many labels differ from the one before: about as many runs there are.
fn changes(labels: &[u64]) -> usize {
    let mut count = 0;
    for place in 1..labels.len() {
        if labels[place] != labels[place - 1] {
            count += 1;
        }
    }
    count
}

/// Adds the runs of the row that begins at `first`.
fn push_row(runs: &mut Runs, labels: &[u64], width: usize, first: usize) -> Result<(), AllocError>
    requires small { length labels.now ≤ 2 ^ 24 }
    requires some { 1 ≤ width }
    requires row { first % width ≡ 0 }
    requires within { first + width ≤ length labels.now }
    requires so_far { AreRunsTo width labels.now first runs.old }
    ensures { OnOk result (AreRunsTo width labels.now (first + width) runs.new) }
{
    let end = first + width;
    let mut from = first;
    let mut label = labels[first];
    for place in first + 1..end {
        let next = labels[place];
        if next != label {
            push_run(runs, from, place, label)?;
            from = place;
            label = next;
        }
    }
    push_run(runs, from, end, label)
}

/// Adds the run of this label, unless that is 0.
fn push_run(runs: &mut Runs, from: usize, to: usize, label: u64) -> Result<(), AllocError>
    requires order { from ≤ to }
    requires small { to ≤ 2 ^ 24 }
    ensures { OnOk result (runs.new ≡ with_run runs.old from to label) }
{
    if label == 0 {
        return Ok(());
    }
    runs.push(Run {
        first: from as u32,
        length: (to - from) as u32,
        label,
    })
}
