ghost use Rattle.std.specs.Prelude.{ℕ, [], ◌≡◌, ◌+◌, ◌^◌, ◌<◌, ◌≤◌, IfOk, OnOk, length, map, replicate, slice_index};
ghost use Rattle.std.specs.List.{range_with_len};
ghost use Rattle.ig_space.specs.Geometry.{count};
ghost use Rattle.ig_graph.specs.Counts.{those_below};
ghost use Rattle.ig_graph.specs.Graph.{is_root, part_of};
ghost use Rattle.ig_label.specs.VoxelGraph.{label_at, voxel_graph};
ghost use Rattle.ig_label.specs.Runs.{end_of, run_at, IsIn};
ghost use Rattle.ig_label.specs.Joining.{AreAscending};
ghost use Rattle.ig_label.specs.Numbering.{AreLeast, firsts_in, number_in, values_in};
ghost use Rattle.ig_label.specs.Painting.{ArePainted};

use crate::joining::classes_of;
use crate::{Run, runs_of};
use ig_space::{Firsts, Locals, Point, TryClone, Values, Volume};
use std::alloc::{AllocError, Global};

/// The parts of a box: each voxel's part, x fastest, then y, then z, and 0 where its label is 0; and of the parts 1, 2, .. the
/// number of the first voxel and the label.
#[derive(Debug, Drop)]
pub struct Labels {
    pub size: Point,
    pub local: Locals,
    pub firsts: Firsts,
    pub values: Values,
}

impl TryClone for Labels {
    fn copy(&self) -> Result<Labels, AllocError> {
        Ok(Labels {
            size: self.size,
            local: self.local.copy()?,
            firsts: self.firsts.copy()?,
            values: self.values.copy()?,
        })
    }
}

/// The parts of a volume: voxels of one nonzero label that a path of steps by one along one axis joins, through voxels of that
/// label. They are numbered from 1 by their first voxels.
pub fn label(alloc: Global, volume: &Volume) -> Result<Labels, AllocError>
    ensures size { IfOk result (λ labels. labels.size ≡ volume.now.size) }
    ensures local { IfOk result (λ labels. labels.local ≡ map (part_of (voxel_graph volume.now)) (range_with_len 0 (count volume.now.size))) }
    ensures firsts { IfOk result (λ labels. labels.firsts ≡ those_below (is_root (voxel_graph volume.now)) (count volume.now.size)) }
    ensures values { IfOk result (λ labels. labels.values ≡ map (label_at volume.now) labels.firsts) }
{
    if volume.labels().is_empty() {
        return Ok(Labels {
            size: volume.size(),
            local: Locals::new(alloc),
            firsts: Firsts::new(alloc),
            values: Values::new(alloc),
        });
    }
    label_some(alloc, volume)
}

/// The parts of a volume that has voxels.
fn label_some(alloc: Global, volume: &Volume) -> Result<Labels, AllocError>
    requires some { 1 ≤ count volume.now.size }
    ensures size { IfOk result (λ labels. labels.size ≡ volume.now.size) }
    ensures local { IfOk result (λ labels. labels.local ≡ map (part_of (voxel_graph volume.now)) (range_with_len 0 (count volume.now.size))) }
    ensures firsts { IfOk result (λ labels. labels.firsts ≡ those_below (is_root (voxel_graph volume.now)) (count volume.now.size)) }
    ensures values { IfOk result (λ labels. labels.values ≡ map (label_at volume.now) labels.firsts) }
{
    let size = volume.size();
    let runs = runs_of(alloc, volume)?;
    let mut parts = classes_of(alloc, runs.as_slice(), size)?;
    let mut firsts = Firsts::new(alloc);
    let mut values = Values::new(alloc);
    number(runs.as_slice(), &mut parts, &mut firsts, &mut values)?;
    let mut local = vec![in alloc; 0; volume.labels().len()]?;
    paint(runs.as_slice(), &parts, &mut local);
    Ok(Labels {
        size,
        local: Locals::from_vec(local),
        firsts,
        values,
    })
}

/// Gives each run the number of its class in place of its class, and adds the first voxel and the label of each class.
fn number(
    runs: &[Run],
    classes: &mut [u32],
    firsts: &mut Firsts,
    values: &mut Values,
) -> Result<(), AllocError>
    requires least { AreLeast classes.old }
    requires length { length classes.old ≡ length runs.now }
    requires few { length runs.now ≤ 2 ^ 24 }
    requires no_firsts { firsts.old ≡ [] }
    requires no_values { values.old ≡ [] }
    ensures numbers { OnOk result ((i : ℕ) → i < length runs.now → slice_index classes.new i ≡ number_in classes.old i) }
    ensures firsts { OnOk result (firsts.new ≡ firsts_in runs.now classes.old (length runs.now)) }
    ensures values { OnOk result (values.new ≡ values_in runs.now classes.old (length runs.now)) }
{
    for place in 0..runs.len() {
        let class = classes[place] as usize;
        if class == place {
            let run = runs[place];
            firsts.push(run.first)?;
            values.push(run.label)?;
            classes[place] = firsts.len() as u32;
        } else {
            classes[place] = classes[class];
        }
    }
    Ok(())
}

/// Gives the voxels of each run its part.
fn paint(runs: &[Run], parts: &[u32], local: &mut [u32])
    requires ascending { AreAscending runs.now }
    requires parts { length parts.now ≡ length runs.now }
    requires within { (i : ℕ) → i < length runs.now → end_of (run_at runs.now i) ≤ length local.old }
    ensures { ArePainted runs.now parts.now (length runs.now) local.old local.new }
{
    for place in 0..runs.len() {
        paint_run(runs[place], parts[place], local);
    }
}

/// Gives the voxels of one run its part.
fn paint_run(run: Run, part: u32, local: &mut [u32])
    requires { end_of run ≤ length local.old }
    ensures inside { (p : ℕ) → IsIn run p → slice_index local.new p ≡ part }
    ensures before { (p : ℕ) → p < run.first → slice_index local.new p ≡ slice_index local.old p }
    ensures after { (p : ℕ) → end_of run ≤ p → slice_index local.new p ≡ slice_index local.old p }
{
    let from = run.first as usize;
    for place in from..from + run.length as usize {
        local[place] = part;
    }
}
