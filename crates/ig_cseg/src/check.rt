//! What is wrong with a file, before any label is read.
ghost use Rattle.std.specs.Prelude.{◌≡◌, ◌≤◌, ◌<◌, ◌+◌, ◌*◌, ◌/◌, ◌^◌, Bool, false, true, nat_lt, ℕ};
ghost use Rattle.ig_cseg.specs.Blocks.{HasValues, IsClip, IsCut, IsHeader, row_count, row_position};
ghost use Rattle.ig_cseg.specs.Cseg.{block_count, block_fault, channel, clipped, entry_place, fault_of, first_fault, is_outside, some_below, table_outside, values_outside, word_count};

use crate::CsegFault;
use crate::blocks::{Clip, block_count};
use crate::header::Header;
use crate::words::{word, word_count};
use ig_space::{Point, Width};

/// Whether one of so many words from this place of the file on lies outside.
fn is_outside(bytes: &[u8], place: usize, count: usize) -> bool
    requires place { place < 2 ^ 40 }
    requires count { count < 2 ^ 40 }
    ensures { result ≡ nat_lt (word_count bytes.now) (place + count) }
{
    word_count(bytes) < place + count
}

/// Whether some voxel of the block has the word of its index outside the file.
fn values_outside(bytes: &[u8], header: Header, clip: &Clip) -> bool
    requires header { IsHeader bytes.now header.block header.table header.bits header.values }
    requires clip { IsClip clip.now.volume clip.now.block clip.now.lo clip.now.size }
    ensures { result ≡ values_outside clip.now.block clip.now.size bytes.now header.block }
{
    let last = header.values + clip.last_position() * header.bits / 32;
    header.bits != 0 && is_outside(bytes, last, 1)
}

/// Whether one of the positions from this one on has a word of its table entry outside the file.
fn row_outside<const N: usize>(bytes: &[u8], header: Header, position: usize, length: usize) -> bool
    requires words { N ≤ 2 }
    requires header { IsHeader bytes.now header.block header.table header.bits header.values }
    requires few { header.bits ≤ 32 }
    requires position { position + length ≤ 2 ^ 22 }
    requires values { HasValues bytes.now header.block position length }
    ensures { result ≡ some_below (λ k. is_outside bytes.now N (entry_place N bytes.now header.block (position + k))) length }
{
    for k in 0..length {
        if is_outside(bytes, header.entry::<N>(bytes, position + k), N) {
            return true;
        }
    }
    false
}

/// Whether some voxel of the block has a word of its table entry outside the file, found row by row.
fn some_row_outside<const N: usize>(bytes: &[u8], header: Header, clip: &Clip) -> bool
    requires words { N ≤ 2 }
    requires header { IsHeader bytes.now header.block header.table header.bits header.values }
    requires few { header.bits ≤ 32 }
    requires clip { IsClip clip.now.volume clip.now.block clip.now.lo clip.now.size }
    requires values { (row : ℕ) → row < row_count clip.now.size → HasValues bytes.now header.block (row_position clip.now.block clip.now.size row) clip.now.size.x }
    ensures { result ≡ table_outside clip.now.block clip.now.size N bytes.now header.block }
{
    for row in 0..clip.rows() {
        if row_outside::<N>(bytes, header, clip.position(row), clip.size.x as usize) {
            return true;
        }
    }
    false
}

/// Whether some voxel of the block has a word of its table entry outside the file. Where a table with an entry for
/// each index lies in the file, no index is looked at.
fn table_outside<const N: usize>(bytes: &[u8], header: Header, clip: &Clip) -> bool
    requires words { N ≤ 2 }
    requires header { IsHeader bytes.now header.block header.table header.bits header.values }
    requires few { header.bits ≤ 32 }
    requires clip { IsClip clip.now.volume clip.now.block clip.now.lo clip.now.size }
    requires values { values_outside clip.now.block clip.now.size bytes.now header.block ≡ false }
    ensures { result ≡ table_outside clip.now.block clip.now.size N bytes.now header.block }
{
    if !is_outside(bytes, header.table, N << header.bits) {
        return false;
    }
    header.bits == 0 || some_row_outside::<N>(bytes, header, clip)
}

/// What is wrong with the block.
fn block_fault<const N: usize>(bytes: &[u8], header: Header, clip: &Clip) -> Option<CsegFault>
    requires words { N ≤ 2 }
    requires header { IsHeader bytes.now header.block header.table header.bits header.values }
    requires clip { IsClip clip.now.volume clip.now.block clip.now.lo clip.now.size }
    ensures { result ≡ block_fault clip.now.block clip.now.size N bytes.now header.block }
{
    let block = header.block as u64;
    if !header.is_lawful() {
        return Some(CsegFault::BadBits { block });
    }
    if values_outside(bytes, header, clip) {
        return Some(CsegFault::ValuesOutside { block });
    }
    if table_outside::<N>(bytes, header, clip) {
        return Some(CsegFault::TableOutside { block });
    }
    None
}

/// What is wrong with the first block that has a fault.
fn first_fault<const N: usize>(
    bytes: &[u8],
    origin: usize,
    size: Point,
    block: Point,
) -> Option<CsegFault>
    requires words { N ≤ 2 }
    requires cut { IsCut size block }
    requires origin { origin ≡ channel bytes.now }
    requires small { origin < 2 ^ 32 }
    requires within { origin + 2 * block_count size block ≤ word_count bytes.now }
    ensures { result ≡ first_fault (λ b. block_fault block (clipped size block b) N bytes.now b) (block_count size block) }
{
    for number in 0..block_count(size, block) {
        let header = Header::read(bytes, origin, number as usize);
        let fault = block_fault::<N>(bytes, header, &Clip::of(size, block, number));
        if fault.is_some() {
            return fault;
        }
    }
    None
}

/// What is wrong with the file.
#[tactic(auto, unfolding(crate::specs::Cseg::fault_of))]
pub(crate) fn find_fault(bytes: &[u8], block: Point, width: Width, size: Point) -> Option<CsegFault>
    requires cut { IsCut size block }
    ensures { result ≡ fault_of block width size bytes.now }
{
    if bytes.len() % 4 != 0 {
        return Some(CsegFault::NotWords);
    }
    let words = word_count(bytes);
    if words == 0 {
        return Some(CsegFault::NoChannel);
    }
    let origin = word(bytes, 0) as usize;
    if words < origin + 2 * block_count(size, block) as usize {
        return Some(CsegFault::HeaderShort);
    }
    match width {
        Width::W64 => first_fault::<2>(bytes, origin, size, block),
        Width::W8 | Width::W16 | Width::W32 => first_fault::<1>(bytes, origin, size, block),
    }
}
