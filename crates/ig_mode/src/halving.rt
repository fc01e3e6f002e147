ghost use Rattle.std.specs.Prelude.{◌≡◌, ◌≤◌, ◌<◌, ◌+◌, ◌*◌, ◌^◌, ℕ, length, slice_index};
ghost use Rattle.ig_space.specs.Geometry.{count};
ghost use Rattle.ig_space.specs.Volume.{IsInside, place_of};
ghost use Rattle.ig_mode.specs.HasMips.{HasMip, labels_of};
ghost use Rattle.ig_mode.specs.Mips.{halved_size, mip};
ghost use Rattle.ig_mode.specs.Mode.{half_up, plane_mode, row_mode};

use crate::mode::edge_of;
use crate::mode_row;
use ig_space::{Point, Volume};

/// How many blocks a volume of this size has along each axis.
pub(crate) fn halved(size: Point) -> Point
    ensures { result ≡ halved_size size }
{
    Point {
        x: size.x - size.x / 2,
        y: size.y - size.y / 2,
        z: size.z,
    }
}

/// Writes the modes of the blocks of two rows of a plane, which begin at these places.
fn halve_row(plane: &[u64], wide: usize, upper: usize, lower: usize, out: &mut [u64])
    requires upper { upper + wide ≤ length plane.now }
    requires lower { lower + wide ≤ length plane.now }
    requires half { length out.old ≡ half_up wide }
    ensures length { length out.new ≡ length out.old }
    ensures each { (k : ℕ) → k < length out.new → slice_index out.new k ≡ row_mode wide plane.now upper lower k }
{
    mode_row(
        &plane[upper..upper + wide],
        &plane[lower..lower + wide],
        out,
    );
}

/// Writes the modes of the blocks of a plane with rows of this length, row by row.
fn halve_plane(plane: &[u64], wide: usize, tall: usize, out: &mut [u64])
    requires whole { length plane.now ≡ wide * tall }
    requires half { length out.old ≡ half_up wide * half_up tall }
    requires some { 1 ≤ wide }
    requires few { length plane.now ≤ 2 ^ 24 }
    ensures { (x y : ℕ) → x < half_up wide → y < half_up tall → slice_index out.new (x + half_up wide * y) ≡ plane_mode wide tall plane.now x y }
{
    let half = wide - wide / 2;
    for y in 0..tall - tall / 2 {
        let first = 2 * y;
        let second = edge_of(tall, first + 1);
        let begin = half * y;
        halve_row(
            plane,
            wide,
            wide * first,
            wide * second,
            &mut out[begin..begin + half],
        );
    }
}

/// Writes the modes of the blocks of a volume of this size, plane by plane; `half` is the size of what is written.
fn halve_planes(labels: &[u64], size: Point, out: &mut [u64], half: Point)
    requires size { half ≡ halved_size size }
    requires whole { length labels.now ≡ count size }
    requires half { length out.old ≡ count half }
    requires few { count size ≤ 2 ^ 24 }
    ensures { (x y z : ℕ) → IsInside half x y z → slice_index out.new (place_of half x y z) ≡ mip size (labels_of size labels.now) x y z }
{
    if labels.len() == 0 {
        return;
    }
    let (wide, tall) = (size.x as usize, size.y as usize);
    let (long, short) = (wide * tall, (half.x * half.y) as usize);
    for z in 0..size.z as usize {
        let (from, to) = (long * z, short * z);
        halve_plane(
            &labels[from..from + long],
            wide,
            tall,
            &mut out[to..to + short],
        );
    }
}

/// Writes the mip of `from`: the mode of each block of two by two voxels along x and y. `out` is half as long, up, along these.
pub fn halve(from: &Volume, out: &mut Volume)
    requires { out.old.size ≡ halved_size from.now.size }
    ensures { HasMip 1 from.now out.new }
{
    let half = out.size();
    halve_planes(from.labels(), from.size(), out.labels_mut(), half);
}
