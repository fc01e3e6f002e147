//! Labels from raw texts into the labels of a box.
ghost use Rattle.std.specs.Prelude.{◌≡◌, ◌≤◌, ◌<◌, ◌+◌, ◌*◌, ◌^◌, ℕ, length, slice_index};
ghost use Rattle.ig_space.specs.Geometry.{label_len};
ghost use Rattle.ig_space.specs.Raw.{AllFit};
ghost use Rattle.ig_cutout.specs.Area.{HasRoom, IsInOrder, one_plane};
ghost use Rattle.ig_cutout.specs.Laid.{IsLaid, number_in};

use crate::layout::Layout;
use ig_space::{Point, Width, bytes_each, read_labels};

/// Reads a row that begins with the label at this place of the text.
fn read_row(text: &[u8], width: Width, from: usize, row: &mut [u64])
    requires room { label_len width * (from + length row.old) ≤ length text.now }
    ensures length { length row.new ≡ length row.old }
    ensures fit { AllFit width row.new }
    ensures each { (k : ℕ) → k < length row.new → slice_index row.new k ≡ number_in width text.now (from + k) }
{
    let each = bytes_each(width);
    let (begin, end) = (each * from, each * (from + row.len()));
    read_labels(&text[begin..end], width, row);
}

/// Reads a plane of a part of this size, row by row.
fn read_rows(
    text: &[u8],
    width: Width,
    source: Layout,
    labels: &mut [u64],
    target: Layout,
    size: Point,
)
    requires source { HasRoom (label_len width) source (one_plane size) (length text.now) }
    requires target { HasRoom 1 target (one_plane size) (length labels.old) }
    requires order { IsInOrder target (one_plane size) }
    requires few_bytes { length text.now ≤ 2 ^ 27 }
    requires few { length labels.old ≤ 2 ^ 24 }
    ensures laid { IsLaid (number_in width text.now) source target (one_plane size) labels.old labels.new }
    ensures fit { AllFit width labels.old → AllFit width labels.new }
{
    let long = size.x as usize;
    for y in 0..size.y as usize {
        let from = source.row_at(y);
        let to = target.row_at(y);
        read_row(text, width, from, &mut labels[to..to + long]);
    }
}

/// Reads a part of this size, plane by plane.
pub(crate) fn read_planes(
    text: &[u8],
    width: Width,
    source: Layout,
    labels: &mut [u64],
    target: Layout,
    size: Point,
)
    requires some { 1 ≤ size.y }
    requires source { HasRoom (label_len width) source size (length text.now) }
    requires target { HasRoom 1 target size (length labels.old) }
    requires order { IsInOrder target size }
    requires few_bytes { length text.now ≤ 2 ^ 27 }
    requires few { length labels.old ≤ 2 ^ 24 }
    ensures laid { IsLaid (number_in width text.now) source target size labels.old labels.new }
    ensures fit { AllFit width labels.old → AllFit width labels.new }
{
    for z in 0..size.z as usize {
        read_rows(
            text,
            width,
            source.at_plane(z),
            labels,
            target.at_plane(z),
            size,
        );
    }
}
