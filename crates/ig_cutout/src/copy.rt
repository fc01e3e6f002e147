//! Labels of one box into those of another.
ghost use Rattle.std.specs.Prelude.{◌≡◌, ◌≤◌, ◌<◌, ◌+◌, ◌*◌, ◌^◌, ℕ, length, slice_index};
ghost use Rattle.ig_space.specs.declared.geometry.Width.{Width};
ghost use Rattle.ig_space.specs.Geometry.{count};
ghost use Rattle.ig_space.specs.Grid.{Meets, size_of};
ghost use Rattle.ig_space.specs.Raw.{AllFit};
ghost use Rattle.ig_cutout.specs.Area.{HasRoom, IsInOrder, one_plane};
ghost use Rattle.ig_cutout.specs.Laid.{IsLaid};
ghost use Rattle.ig_cutout.specs.Pasted.{IsCopied};

use crate::area::{common, size_of};
use crate::layout::{Layout, layout_of};
use ig_space::{Box3, Point};

/// Copies a row that begins at this place of the source.
fn copy_row(source: &[u64], from: usize, row: &mut [u64])
    requires room { from + length row.old ≤ length source.now }
    requires few { length source.now ≤ 2 ^ 24 }
    ensures length { length row.new ≡ length row.old }
    ensures each { (k : ℕ) → k < length row.new → slice_index row.new k ≡ slice_index source.now (from + k) }
{
    let long = row.len();
    row.copy_from_slice(&source[from..from + long]);
}

/// Copies a plane of a part of this size, row by row.
fn copy_rows(source: &[u64], from: Layout, labels: &mut [u64], to: Layout, size: Point)
    requires source { HasRoom 1 from (one_plane size) (length source.now) }
    requires target { HasRoom 1 to (one_plane size) (length labels.old) }
    requires order { IsInOrder to (one_plane size) }
    requires few_in_source { length source.now ≤ 2 ^ 24 }
    requires few { length labels.old ≤ 2 ^ 24 }
    ensures laid { IsLaid (slice_index source.now) from to (one_plane size) labels.old labels.new }
    ensures fit { (width : Width) → AllFit width source.now → AllFit width labels.old → AllFit width labels.new }
{
    let long = size.x as usize;
    for y in 0..size.y as usize {
        let first = from.row_at(y);
        let begin = to.row_at(y);
        copy_row(source, first, &mut labels[begin..begin + long]);
    }
}

/// Copies a part of this size, plane by plane.
fn copy_planes(source: &[u64], from: Layout, labels: &mut [u64], to: Layout, size: Point)
    requires some { 1 ≤ size.y }
    requires source { HasRoom 1 from size (length source.now) }
    requires target { HasRoom 1 to size (length labels.old) }
    requires order { IsInOrder to size }
    requires few_in_source { length source.now ≤ 2 ^ 24 }
    requires few { length labels.old ≤ 2 ^ 24 }
    ensures laid { IsLaid (slice_index source.now) from to size labels.old labels.new }
    ensures fit { (width : Width) → AllFit width source.now → AllFit width labels.old → AllFit width labels.new }
{
    for z in 0..size.z as usize {
        copy_rows(source, from.at_plane(z), labels, to.at_plane(z), size);
    }
}

/// Copies the labels of the voxels that lie in both boxes from those of the source to those of the area.
pub(crate) fn copy_common(source: &[u64], chunk: Box3, labels: &mut [u64], area: Box3)
    requires meets { Meets chunk area }
    requires few_in_chunk { count (size_of chunk) ≤ 2 ^ 24 }
    requires few { count (size_of area) ≤ 2 ^ 24 }
    requires whole_source { length source.now ≡ count (size_of chunk) }
    requires whole { length labels.old ≡ count (size_of area) }
    ensures copied { IsCopied (slice_index source.now) area chunk labels.old labels.new }
    ensures fit { (width : Width) → AllFit width source.now → AllFit width labels.old → AllFit width labels.new }
{
    let part = common(chunk, area);
    let (from, to) = (layout_of(chunk, part), layout_of(area, part));
    copy_planes(source, from, labels, to, size_of(part));
}
