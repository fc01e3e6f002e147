ghost use Rattle.std.specs.Prelude.{ℕ, ◌≡◌, ◌+◌, ◌<◌, ◌≤◌, ◌^◌, IfOk, OnOk, OnErr, drop, length};
ghost use Rattle.ig_count.specs.Tables.{IsMerged, IsTable, tally};
ghost use Rattle.ig_count.specs.Merging.{IsMergedTo};

use crate::{Counts, LabelCount};
use std::alloc::{AllocError, Global};

/// Adds the voxels of the other table, label by label. After a refusal the table is as it was.
pub fn merge(into: &mut Counts, more: &Counts) -> Result<(), AllocError>
    requires fits { (label : ℕ) → tally into.old label + tally more.now label < 2 ^ 64 }
    ensures merged { OnOk result (IsMerged into.old more.now into.new) }
    ensures unchanged { OnErr result (into.new ≡ into.old) }
{
    let items = merged(into.allocator(), into.as_slice(), more.as_slice())?;
    *into = Counts::of(items);
    Ok(())
}

/// The items of both tables, with the voxels of each label added up.
fn merged(
    alloc: Global,
    old: &[LabelCount],
    more: &[LabelCount],
) -> Result<Vec<LabelCount>, AllocError>
    requires old { IsTable old.now }
    requires more { IsTable more.now }
    requires fits { (label : ℕ) → tally old.now label + tally more.now label < 2 ^ 64 }
    ensures { IfOk result (λ items. IsMerged old.now more.now items.items) }
{
    let mut items = Vec::with_capacity(alloc, old.len() + more.len())?;
    let mut here = 0;
    let mut there = 0;
    while here < old.len() && there < more.len() {
        let next = push_next(&mut items, old, more, here, there)?;
        here = next.0;
        there = next.1;
    }
    if here < old.len() {
        items.extend_from_slice(&old[here..])?;
    } else {
        items.extend_from_slice(&more[there..])?;
    }
    Ok(items)
}

/// Adds the item of the least label that is left of both tables, and tells the places of what is left then.
fn push_next(
    items: &mut Vec<LabelCount>,
    old: &[LabelCount],
    more: &[LabelCount],
    here: usize,
    there: usize,
) -> Result<(usize, usize), AllocError>
    requires here { here < length old.now }
    requires there { there < length more.now }
    requires fits { (label : ℕ) → tally old.now label + tally more.now label < 2 ^ 64 }
    requires so_far { IsMergedTo old.now more.now (drop here old.now) (drop there more.now) items.old.items }
    ensures so_far { IfOk result (λ next. IsMergedTo old.now more.now (drop next.0 old.now) (drop next.1 more.now) items.new.items) }
    ensures less { IfOk result (λ next. here + there < next.0 + next.1) }
    ensures here { IfOk result (λ next. next.0 ≤ length old.now) }
    ensures there { IfOk result (λ next. next.1 ≤ length more.now) }
{
    let a = old[here];
    let b = more[there];
    if a.label < b.label {
        items.push(a)?;
        return Ok((here + 1, there));
    }
    if b.label < a.label {
        items.push(b)?;
        return Ok((here, there + 1));
    }
    items.push(LabelCount {
        label: a.label,
        voxels: a.voxels + b.voxels,
    })?;
    Ok((here + 1, there + 1))
}
