//! The indices of the positions of a block.
ghost use Rattle.std.specs.Prelude.{◌≡◌, ◌≤◌, ◌<◌, ◌^◌, length, slice_index, ℕ};
ghost use Rattle.std.specs.List.{Contains};
ghost use Rattle.std.specs.List.Sorted.{IsStrictlyIncreasing};
ghost use Rattle.ig_space.specs.Geometry.{count};
ghost use Rattle.ig_cseg.specs.Blocks.{IsClip};
ghost use Rattle.ig_cseg.specs.BlockText.{index_at_position};
ghost use Rattle.ig_cseg.specs.CsegText.{distinct, index_in};

use crate::blocks::Clip;
use crate::table::index_of;

/// Writes the indices of the labels of a row, each run of equal labels looked up once.
fn write_row(labels: &[u64], table: &[u64], row: &mut [u32])
    requires some { 1 ≤ length labels.now }
    requires room { length row.old ≡ length labels.now }
    requires rises { IsStrictlyIncreasing table.now }
    requires has { (k : ℕ) → k < length labels.now → Contains table.now (slice_index labels.now k) }
    requires few { length table.now ≤ 2 ^ 32 }
    ensures { (k : ℕ) → k < length row.old → slice_index row.new k ≡ index_in table.now (slice_index labels.now k) }
{
    let mut label = labels[0];
    let mut index = index_of(table, label);
    for k in 0..row.len() {
        if labels[k] != label {
            label = labels[k];
            index = index_of(table, label);
        }
        row[k] = index;
    }
}

/// Writes the index of each voxel of a block at its position, where there is 0 before: the labels of its voxels, and
/// their table.
pub(crate) fn write_indices(labels: &[u64], table: &[u64], clip: &Clip, indices: &mut [u32])
    requires clip { IsClip clip.now.volume clip.now.block clip.now.lo clip.now.size }
    requires labels { length labels.now ≡ count clip.now.size }
    requires table { table.now ≡ distinct labels.now }
    requires room { count clip.now.block ≤ length indices.old }
    requires zero { (p : ℕ) → slice_index indices.old p ≡ 0 }
    ensures { (p : ℕ) → slice_index indices.new p ≡ index_at_position clip.now.block clip.now.size labels.now table.now p }
{
    let length = clip.size.x as usize;
    for row in 0..clip.rows() {
        let (from, to) = (row * length, clip.position(row));
        write_row(
            &labels[from..from + length],
            table,
            &mut indices[to..to + length],
        );
    }
}
