ghost use Rattle.std.specs.Prelude.{ℕ, ◌≡◌, ◌≢◌, ◌+◌, ◌-◌, ◌<◌, ◌≤◌, ◌^◌, All, IfOk, OnOk, Some, length, map, slice_index, take, unwrap_or, nat_eq};
ghost use Rattle.std.specs.HashMap as hash;
ghost use Rattle.std.specs.List.Sorted.{IsNonDecreasing};
ghost use Rattle.ig_count.specs.Tables.{AreCounts, as_count, counts_of, times, where_same};

use crate::{Counts, LabelCount};
use ig_space::Volume;
use std::alloc::{AllocError, Global};
use std::collections::HashMap;

/// The number of voxels of each label that occurs in the volume, 0 too.
pub fn count(alloc: Global, volume: &Volume) -> Result<Counts, AllocError>
    ensures counts { IfOk result (AreCounts volume.now.labels) }
    ensures table { IfOk result (λ counts. counts ≡ counts_of volume.now.labels) }
{
    if has_many(alloc, volume.labels())? {
        return count_sorted(alloc, volume.labels());
    }
    let tallies = tally_runs(alloc, volume.labels())?;
    let mut items = list_of(alloc, &tallies)?;
    items.sort_unstable_by_key(|item| item.label);
    Ok(Counts::of(items))
}

/// Whether most of some voxels differ in label: then to sort all is faster than a map. The table is the same either way.
fn has_many(alloc: Global, labels: &[u64]) -> Result<bool, AllocError> {
    let mut some = Vec::new(alloc);
    for label in labels.iter().step_by(1024) {
        some.push(*label)?;
    }
    let all = some.len();
    some.sort_unstable();
    some.dedup();
    Ok(some.len() > all / 4 * 3)
}

/// The number of voxels of each label, by sorting them.
fn count_sorted(alloc: Global, labels: &[u64]) -> Result<Counts, AllocError>
    ensures { IfOk result (AreCounts labels.now) }
{
    let mut sorted = Vec::from_slice(alloc, labels)?;
    sorted.sort_unstable();
    Ok(Counts::of(list_runs(alloc, sorted.as_slice())?))
}

/// The runs of ascending labels.
fn list_runs(alloc: Global, sorted: &[u64]) -> Result<Vec<LabelCount>, AllocError>
    requires { IsNonDecreasing sorted.now }
    ensures { IfOk result (λ items. AreCounts sorted.now items.items) }
{
    let mut items = Vec::new(alloc);
    let mut from = 0;
    while from < sorted.len() {
        let to = end_of_run(sorted, from);
        items.push(LabelCount {
            label: sorted[from],
            voxels: (to - from) as u64,
        })?;
        from = to;
    }
    Ok(items)
}

/// Each label with its number of voxels, in any order.
fn tally_runs(alloc: Global, labels: &[u64]) -> Result<HashMap<u64, u64>, AllocError>
    requires { length labels.now ≤ 2 ^ 24 }
    ensures tallies { IfOk result (λ tallies. (label : ℕ) → unwrap_or (hash.get nat_eq tallies label) 0 ≡ times labels.now label) }
    ensures some { IfOk result (λ tallies. (label : ℕ) (voxels : ℕ) → hash.get nat_eq tallies label ≡ Some voxels → 1 ≤ voxels) }
{
    let mut tallies = HashMap::new(alloc);
    let mut from = 0;
    while from < labels.len() {
        let to = end_of_run(labels, from);
        let label = labels[from];
        let before = tallies.get(&label).copied().unwrap_or(0);
        tallies.insert(label, before + (to - from) as u64)?;
        from = to;
    }
    Ok(tallies)
}

/// Where the run of one label ends that begins at this voxel.
fn end_of_run(labels: &[u64], from: usize) -> usize
    requires { from < length labels.now }
    ensures after { from < result }
    ensures within { result ≤ length labels.now }
    ensures next { result < length labels.now → slice_index labels.now result ≢ slice_index labels.now from }
    ensures times { (label : ℕ) → times (take result labels.now) label ≡ times (take from labels.now) label + where_same (slice_index labels.now from) label (result - from) }
{
    let label = labels[from];
    let mut to = from + 1;
    while to < labels.len() && labels[to] == label {
        to += 1;
    }
    to
}

/// The labels with their numbers of voxels.
fn list_of(alloc: Global, tallies: &HashMap<u64, u64>) -> Result<Vec<LabelCount>, AllocError>
    ensures items { IfOk result (λ items. items.items ≡ map as_count tallies.now.entries) }
    ensures unique { OnOk result (hash.IsUnique nat_eq tallies.now) }
    ensures found { OnOk result (All (λ e. hash.get nat_eq tallies.now e.0 ≡ Some e.1) tallies.now.entries) }
{
    let mut items = Vec::with_capacity(alloc, tallies.len())?;
    for (label, voxels) in tallies.iter() {
        items.push(LabelCount {
            label: *label,
            voxels: *voxels,
        })?;
    }
    Ok(items)
}
