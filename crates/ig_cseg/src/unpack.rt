//! The labels of a file without faults.
ghost use Rattle.std.specs.Prelude.{◌≡◌, ◌≤◌, ◌<◌, ◌+◌, ◌*◌, ◌^◌, length, slice_index, ℕ, None};
ghost use Rattle.ig_space.specs.Geometry.{count};
ghost use Rattle.ig_cseg.specs.Blocks.{HasEntries, HasValues, IsClip, IsCut, IsHeader, IsReadable, corner, row_count, row_place};
ghost use Rattle.ig_cseg.specs.Labels.{IsRight};
ghost use Rattle.ig_cseg.specs.Cseg.{block_count, channel, clipped, entry, entry_len, fault_of, word_count};

use crate::blocks::{Clip, block_count};
use crate::header::Header;
use crate::words::{number, word};
use ig_space::{Point, Width};

/// Unpacks the labels of the positions from this one on, which have bits.
fn unpack_row<const N: usize>(bytes: &[u8], header: Header, position: usize, row: &mut [u64])
    requires some { 1 ≤ N }
    requires words { N ≤ 2 }
    requires header { IsHeader bytes.now header.block header.table header.bits header.values }
    requires few { header.bits ≤ 32 }
    requires position { position + length row.old ≤ 2 ^ 22 }
    requires values { HasValues bytes.now header.block position (length row.old) }
    requires entries { HasEntries N bytes.now header.block position (length row.old) }
    ensures { (k : ℕ) → k < length row.old → slice_index row.new k ≡ entry N bytes.now header.block (position + k) }
{
    for k in 0..row.len() {
        row[k] = number::<N>(bytes, header.entry::<N>(bytes, position + k));
    }
}

/// Writes the labels of the positions from this one on.
fn write_row<const N: usize>(bytes: &[u8], header: Header, position: usize, row: &mut [u64])
    requires some { 1 ≤ N }
    requires words { N ≤ 2 }
    requires header { IsHeader bytes.now header.block header.table header.bits header.values }
    requires few { header.bits ≤ 32 }
    requires more { 1 ≤ length row.old }
    requires position { position + length row.old ≤ 2 ^ 22 }
    requires values { (header.bits ≡ 0 → ⊥) → HasValues bytes.now header.block position (length row.old) }
    requires entries { HasEntries N bytes.now header.block position (length row.old) }
    ensures { (k : ℕ) → k < length row.old → slice_index row.new k ≡ entry N bytes.now header.block (position + k) }
{
    if header.bits == 0 {
        row.fill(number::<N>(bytes, header.table));
    } else {
        unpack_row::<N>(bytes, header, position, row);
    }
}

/// Writes the labels of the block into those of the volume.
fn unpack_block<const N: usize>(bytes: &[u8], header: Header, clip: &Clip, labels: &mut [u64])
    requires some { 1 ≤ N }
    requires words { N ≤ 2 }
    requires header { IsHeader bytes.now header.block header.table header.bits header.values }
    requires clip { IsClip clip.now.volume clip.now.block clip.now.lo clip.now.size }
    requires lo { clip.now.lo ≡ corner clip.now.volume clip.now.block header.block }
    requires size { clip.now.size ≡ clipped clip.now.volume clip.now.block header.block }
    requires below { header.block < block_count clip.now.volume clip.now.block }
    requires readable { IsReadable N clip.now.block clip.now.size bytes.now header.block }
    requires room { length labels.old ≡ count clip.now.volume }
    ensures kept { (k : ℕ) → IsRight N clip.now.block clip.now.volume bytes.now labels.old k → IsRight N clip.now.block clip.now.volume bytes.now labels.new k }
    ensures rows { (row : ℕ) → row < row_count clip.now.size → (x : ℕ) → x < clip.now.size.x → IsRight N clip.now.block clip.now.volume bytes.now labels.new (row_place clip.now.volume clip.now.lo clip.now.size row + x) }
{
    let length = clip.size.x as usize;
    for row in 0..clip.rows() {
        let start = clip.place(row);
        let part = &mut labels[start..start + length];
        write_row::<N>(bytes, header, clip.position(row), part);
    }
}

/// Writes the labels of all blocks.
fn unpack_blocks<const N: usize>(
    bytes: &[u8],
    origin: usize,
    size: Point,
    block: Point,
    labels: &mut [u64],
)
    requires some { 1 ≤ N }
    requires words { N ≤ 2 }
    requires cut { IsCut size block }
    requires origin { origin ≡ channel bytes.now }
    requires small { origin < 2 ^ 32 }
    requires within { origin + 2 * block_count size block ≤ word_count bytes.now }
    requires readable { (b : ℕ) → b < block_count size block → IsReadable N block (clipped size block b) bytes.now b }
    requires room { length labels.old ≡ count size }
    ensures { (k : ℕ) → k < count size → IsRight N block size bytes.now labels.new k }
{
    for number in 0..block_count(size, block) {
        let header = Header::read(bytes, origin, number as usize);
        let clip = Clip::of(size, block, number);
        unpack_block::<N>(bytes, header, &clip, labels);
    }
}

/// Writes the labels of a file without faults into those of a volume of this size.
pub(crate) fn unpack(bytes: &[u8], block: Point, width: Width, size: Point, labels: &mut [u64])
    requires cut { IsCut size block }
    requires clean { fault_of block width size bytes.now ≡ None }
    requires room { length labels.old ≡ count size }
    ensures { (k : ℕ) → k < count size → IsRight (entry_len width) block size bytes.now labels.new k }
{
    let origin = word(bytes, 0) as usize;
    match width {
        Width::W64 => unpack_blocks::<2>(bytes, origin, size, block, labels),
        Width::W8 | Width::W16 | Width::W32 => {
            unpack_blocks::<1>(bytes, origin, size, block, labels)
        }
    }
}
