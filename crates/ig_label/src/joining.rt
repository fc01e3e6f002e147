ghost use Rattle.std.specs.Prelude.{ℕ, ◌≡◌, ◌+◌, ◌*◌, ◌^◌, ◌<◌, ◌≤◌, IfOk, length, if◌then◌else◌};
ghost use Rattle.ig_graph.specs.Sets.{AreClasses, united};
ghost use Rattle.ig_space.specs.Geometry.{count};
ghost use Rattle.ig_label.specs.Runs.{end_of, run_at};
ghost use Rattle.ig_label.specs.RunGraph.{run_graph, touches, touches_row};
ghost use Rattle.ig_label.specs.Joining.{AreAscending, HasJoined, HasJoinedTo};

use crate::Run;
use ig_graph::DisjointSets;
use ig_space::Point;
use std::alloc::{AllocError, Global};

/// For each run of a box the least run that is joined with it.
pub(crate) fn classes_of(alloc: Global, runs: &[Run], size: Point) -> Result<Vec<u32>, AllocError>
    requires ascending { AreAscending runs.now }
    requires within { (i : ℕ) → i < length runs.now → end_of (run_at runs.now i) ≤ count size }
    requires some { 1 ≤ count size }
    requires few { count size ≤ 2 ^ 24 }
    ensures { IfOk result (λ classes. AreClasses (run_graph size runs.now) classes.items) }
{
    let width = size.x as u32;
    let plane = (size.x * size.y) as u32;
    let end = (size.x * (size.y * size.z)) as u32;
    let mut sets = DisjointSets::new(alloc, runs.len() as u32)?;
    join_beside(&mut sets, runs, 0, end, plane);
    join_rows(&mut sets, runs, width, plane, end);
    Ok(sets.into_classes())
}

/// Puts runs of neighbouring rows in one plane together where they touch.
fn join_rows(sets: &mut DisjointSets, runs: &[Run], width: u32, plane: u32, end: u32)
    requires ascending { AreAscending runs.now }
    requires sets { length sets.old ≡ length runs.now }
    requires within { (i : ℕ) → i < length runs.now → end_of (run_at runs.now i) ≤ end }
    requires width { width ≤ 2 ^ 24 }
    requires some { 1 ≤ plane }
    requires few { end ≤ 2 ^ 24 }
    requires whole { (n : ℕ) × (end ≡ n * plane) }
    ensures { HasJoinedTo (touches_row width plane) (length runs.now) runs.now sets.old sets.new }
{
    let mut from = 0;
    let mut bound = 0;
    while bound < end {
        bound += plane;
        from = join_beside(sets, runs, from, bound, width);
    }
}

/// Puts runs together that touch, once the first is moved up by `shift` voxels: those from the place `from` on that begin
/// before `bound`. Gives the place of the first that does not.
fn join_beside(sets: &mut DisjointSets, runs: &[Run], from: usize, bound: u32, shift: u32) -> usize
    requires ascending { AreAscending runs.now }
    requires sets { length sets.old ≡ length runs.now }
    requires from { from ≤ length runs.now }
    requires shift { shift ≤ 2 ^ 24 }
    ensures from { from ≤ result }
    ensures within { result ≤ length runs.now }
    ensures before { (i : ℕ) → from ≤ i → i < result → (run_at runs.now i).first < bound }
    ensures after { result < length runs.now → bound ≤ (run_at runs.now result).first }
    ensures joined { HasJoined runs.now shift bound from from result sets.old sets.new }
{
    let mut low = from;
    let mut high = from;
    while high < runs.len() {
        if runs[high].first >= bound {
            return high;
        }
        join_touching(sets, runs, low, high, shift);
        if end(runs[low]) + shift < end(runs[high]) {
            low += 1;
        } else {
            high += 1;
        }
    }
    high
}

/// Puts two runs together where they touch.
fn join_touching(sets: &mut DisjointSets, runs: &[Run], low: usize, high: usize, shift: u32)
    requires ascending { AreAscending runs.now }
    requires sets { length sets.old ≡ length runs.now }
    requires low { low < length runs.now }
    requires high { high < length runs.now }
    requires shift { shift ≤ 2 ^ 24 }
    ensures { sets.new ≡ (if touches shift (run_at runs.now low) (run_at runs.now high) then united sets.old low high else sets.old) }
{
    if touch(runs[low], runs[high], shift) {
        sets.join(low as u32, high as u32);
    }
}

/// Whether two runs of one label have a common voxel, once the first is moved up by `shift` voxels.
fn touch(a: Run, b: Run, shift: u32) -> bool
    requires a_small { end_of a ≤ 2 ^ 24 }
    requires b_small { end_of b ≤ 2 ^ 24 }
    requires shift { shift ≤ 2 ^ 24 }
    ensures { result ≡ touches shift a b }
{
    a.label == b.label && a.first + shift < end(b) && b.first < end(a) + shift
}

/// The number of the voxel after the last of a run.
fn end(run: Run) -> u32
    requires { end_of run ≤ 2 ^ 24 }
    ensures { result ≡ end_of run }
{
    run.first + run.length
}
