//! Raw texts from the labels of a box.
ghost use Rattle.std.specs.Prelude.{◌≡◌, ◌≤◌, ◌+◌, ◌*◌, ◌^◌, length, take, drop};
ghost use Rattle.ig_space.specs.Geometry.{label_len};
ghost use Rattle.ig_space.specs.Raw.{AllFit, raw_text};
ghost use Rattle.ig_cutout.specs.Area.{HasRoom, one_plane};
ghost use Rattle.ig_cutout.specs.Gathered.{planes_of, rows_of};

use crate::layout::Layout;
use ig_space::{Point, Width, bytes_each, write_labels};

/// Writes a row of labels that begins at this place.
fn write_row(labels: &[u64], from: usize, long: usize, width: Width, text: &mut [u8])
    requires fit { AllFit width labels.now }
    requires few { length labels.now ≤ 2 ^ 24 }
    requires within { from + long ≤ length labels.now }
    requires room { length text.old ≡ label_len width * long }
    ensures { text.new ≡ raw_text width (take long (drop from labels.now)) }
{
    write_labels(&labels[from..from + long], width, text);
}

/// Writes a plane of a part of this size, row by row.
fn write_rows(labels: &[u64], source: Layout, size: Point, width: Width, text: &mut [u8])
    requires fit { AllFit width labels.now }
    requires few { length labels.now ≤ 2 ^ 24 }
    requires some { 1 ≤ size.y }
    requires few_bytes { length text.old ≤ 2 ^ 27 }
    requires source { HasRoom 1 source (one_plane size) (length labels.now) }
    requires room { length text.old ≡ label_len width * size.x * size.y }
    ensures { text.new ≡ raw_text width (rows_of labels.now source size.x size.y) }
{
    let long = size.x as usize;
    let row = bytes_each(width) * long;
    for y in 0..size.y as usize {
        let from = source.row_at(y);
        let to = row * y;
        write_row(labels, from, long, width, &mut text[to..to + row]);
    }
}

/// Writes a part of this size, plane by plane.
pub(crate) fn write_planes(
    labels: &[u64],
    source: Layout,
    size: Point,
    width: Width,
    text: &mut [u8],
)
    requires fit { AllFit width labels.now }
    requires few { length labels.now ≤ 2 ^ 24 }
    requires y_some { 1 ≤ size.y }
    requires z_some { 1 ≤ size.z }
    requires few_bytes { length text.old ≤ 2 ^ 27 }
    requires source { HasRoom 1 source size (length labels.now) }
    requires room { length text.old ≡ label_len width * size.x * size.y * size.z }
    ensures { text.new ≡ raw_text width (planes_of labels.now source size.x size.y size.z) }
{
    let plane = bytes_each(width) * size.x as usize * size.y as usize;
    for z in 0..size.z as usize {
        let to = plane * z;
        write_rows(
            labels,
            source.at_plane(z),
            size,
            width,
            &mut text[to..to + plane],
        );
    }
}
