//! The stages that a worker knows.
ghost use Rattle.std.specs.Prelude.{◌≡◌, ℕ, List as list, [], map, option_map, OnOk, OnErr};
ghost use Rattle.std.specs.List.{list_any};
ghost use Rattle.std.specs.List.Sorted.{IsStrictlySortedBy};
ghost use Rattle.std.specs.Ordering.{nat_cmp};
ghost use Rattle.ig_record.specs.Columns.{output_dirs};
ghost use Rattle.ig_worker.specs.Counting.{HasListed};
ghost use Rattle.ig_worker.specs.Fit.{AreStages, number_of};
ghost use Rattle.ig_worker.specs.Stages.{all_tasks, all_unlisted, is_removed, removes_among, removes_dir, stage_in, with_stage};

use crate::counting::unlisted;
use ig_record::{Stage, removed, writes_in};
use ig_space::Path;
use std::alloc::{AllocError, Global};
use std::collections::{BTreeMap, BTreeSet};
use std::marker::Model;

/// Stages by their numbers, seen by contracts as the list of both, in the order of the numbers.
#[derive(Debug, Drop)]
pub struct Records {
    stages: BTreeMap<u32, Stage>,
}

impl Model for Records {
    ghost use Rattle.std.specs.Prelude.{ℕ, List as list};
    ghost use Rattle.ig_record.specs.declared.stage.Stage.{Stage as Recorded};

    ghost Value = { list (ℕ × Recorded) };

    ghost view = { λ r. r.stages.entries };
}

impl Records {
    /// None yet.
    pub fn new(alloc: Global) -> Self
        ensures { result ≡ [] }
    {
        Records {
            stages: BTreeMap::new(alloc),
        }
    }

    /// The stage with this number.
    pub fn find(&self, number: u32) -> Option<&Stage>
        ensures { option_map (λ stage. stage.now) result ≡ stage_in self.now number }
    {
        self.stages.get(&number)
    }

    /// Notes the stage with this number.
    pub fn note(&mut self, number: u32, stage: Stage) -> Result<(), AllocError>
        ensures ok { OnOk result (self.new ≡ with_stage number stage self.old) }
        ensures err { OnErr result (self.new ≡ self.old) }
        ensures ascending { IsStrictlySortedBy nat_cmp (map number_of self.new) }
    {
        self.stages.insert(number, stage)?;
        Ok(())
    }

    /// Whether a stage, other than that with this number, removes the directory.
    pub(crate) fn removes_other(&self, number: u32, dir: &Path) -> bool
        ensures { result ≡ is_removed self.now number dir.now }
    {
        self.stages
            .iter()
            .any(|(other, stage)| removes(number, dir, *other, stage))
    }

    /// The same of one of the directories that a stage writes in, stage by stage.
    fn removes_among(&self, number: u32, writer: &Stage) -> bool
        ensures { result ≡ list_any (removes_among number (output_dirs writer.now)) self.now }
    {
        self.stages.iter().any(|(other, stage)| removes_one(number, writer, *other, stage))
    }

    /// Whether a stage, other than that with this number, removes one of the directories that a stage writes in.
    pub(crate) fn removes_output(&self, number: u32, writer: &Stage) -> bool
        ensures { result ≡ list_any (is_removed self.now number) (output_dirs writer.now) }
    {
        self.removes_among(number, writer)
    }
}

/// How many tasks stages have, and how many of them a listing does not show.
#[derive(Clone, Copy)]
pub(crate) struct Tally {
    pub tasks: u64,
    pub unlisted: u64,
}

impl Records {
    /// How many tasks the stages have, and how many of them have no place here.
    pub(crate) fn tally(&self, places: &BTreeSet<u64>) -> Tally
        requires known { AreStages self.now }
        ensures tasks { result.tasks ≡ all_tasks self.now }
        ensures unlisted { (given : list (list ℕ)) → HasListed given places.now → result.unlisted ≡ all_unlisted given self.now }
    {
        let mut tally = Tally {
            tasks: 0,
            unlisted: 0,
        };
        for (number, stage) in &self.stages {
            let tasks = stage.tasks();
            tally.tasks += u64::from(tasks);
            tally.unlisted += unlisted(places, *number, tasks);
        }
        tally
    }
}

/// Whether the stage is a removal other than that with this number, and removes the directory.
fn removes(number: u32, dir: &Path, other: u32, stage: &Stage) -> bool
    ensures { result ≡ removes_dir number dir.now (other, stage.now) }
{
    match removed(stage) {
        Some(removed) => other != number && *removed == *dir,
        None => false,
    }
}

/// Whether the stage is a removal other than that with this number, and removes a directory that the writer writes in.
fn removes_one(number: u32, writer: &Stage, other: u32, stage: &Stage) -> bool
    ensures { result ≡ removes_among number (output_dirs writer.now) (other, stage.now) }
{
    match removed(stage) {
        Some(dir) => other != number && writes_in(writer, dir.as_bytes()),
        None => false,
    }
}
