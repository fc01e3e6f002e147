//! The encoder.
ghost use Rattle.std.specs.Prelude.{◌≡◌, ◌≤◌, ◌<◌, ◌+◌, ◌*◌, ◌^◌, ◌∷◌, IfOk, IfErr, OnOk, None, true, length, replicate, ℕ};
ghost use Rattle.ig_space.specs.Geometry.{count, is_wide, padded_to};
ghost use Rattle.ig_space.specs.Raw.{AllFit, raw_text};
ghost use Rattle.ig_space.specs.Volume.{IsInside, voxel};
ghost use Rattle.ig_space.specs.declared.geometry.Width.TheVariants.{W32};
ghost use Rattle.ig_cseg.specs.Blocks.{IsClip, IsCut, corner};
ghost use Rattle.ig_cseg.specs.BlockText.{words_so_far};
ghost use Rattle.ig_cseg.specs.Cseg.{block_count, clipped, fault_of, label_at};
ghost use Rattle.ig_cseg.specs.CsegText.{cseg_text, cseg_words};
ghost use Rattle.ig_cseg.specs.EncodeError.{Explains};

use crate::EncodeError;
use crate::blocks::{Clip, block_count};
use crate::header::write_header;
use crate::pack::value_len;
use crate::parts::{Parts, append_block};
use ig_space::{Bytes, Point, Volume, Width, first_too_wide};
use std::alloc::{AllocError, Global};

/// A text whose channel begins at word 1, with headers of this many blocks that are 0.
fn begin(alloc: Global, blocks: usize) -> Result<Vec<u8>, AllocError>
    requires { blocks ≤ 2 ^ 22 }
    ensures { IfOk result (λ text. text.items ≡ raw_text W32 (1 ∷ replicate (2 * blocks) 0)) }
{
    let mut text = vec![in alloc; 0; 4 + 8 * blocks]?;
    text[0] = 1;
    Ok(text)
}

/// Appends the words of the block with this number and writes its header, where a label has N words.
fn add_block<const N: usize>(
    labels: &[u64],
    clip: &Clip,
    number: usize,
    parts: &mut Parts,
    text: &mut Vec<u8>,
) -> Result<(), AllocError>
    requires some { 1 ≤ N }
    requires words { N ≤ 2 }
    requires cut { IsCut clip.now.volume clip.now.block }
    requires clip { IsClip clip.now.volume clip.now.block clip.now.lo clip.now.size }
    requires lo { clip.now.lo ≡ corner clip.now.volume clip.now.block number }
    requires size { clip.now.size ≡ clipped clip.now.volume clip.now.block number }
    requires below { number < block_count clip.now.volume clip.now.block }
    requires length { length labels.now ≡ count clip.now.volume }
    requires before { text.old.items ≡ raw_text W32 (words_so_far clip.now.volume clip.now.block N labels.now number) }
    ensures { OnOk result (text.new.items ≡ raw_text W32 (words_so_far clip.now.volume clip.now.block N labels.now (number + 1))) }
{
    let values = text.len() / 4 - 1;
    let bits = append_block::<N>(labels, clip, parts, text)?;
    let table = values + value_len(bits, clip.positions());
    write_header(text, number, table, bits, values);
    Ok(())
}

/// The compressed text of the labels, where a label has N words.
fn encode_blocks<const N: usize>(
    alloc: Global,
    labels: &[u64],
    size: Point,
    block: Point,
) -> Result<Vec<u8>, AllocError>
    requires some { 1 ≤ N }
    requires words { N ≤ 2 }
    requires cut { IsCut size block }
    requires length { length labels.now ≡ count size }
    ensures { IfOk result (λ text. text.items ≡ raw_text W32 (cseg_words size block N labels.now)) }
{
    let count = block_count(size, block);
    let mut parts = Parts::new(alloc);
    let mut text = begin(alloc, count as usize)?;
    for number in 0..count {
        let clip = Clip::of(size, block, number);
        add_block::<N>(labels, &clip, number as usize, &mut parts, &mut text)?;
    }
    Ok(text)
}

/// The compressed text of the labels of a chunk of this size, which fit the width.
pub fn encode_fitting(
    alloc: Global,
    labels: &[u64],
    size: Point,
    block: Point,
    width: Width,
) -> Result<Bytes, AllocError>
    requires wide { is_wide width ≡ true }
    requires x { 1 ≤ block.x }
    requires y { 1 ≤ block.y }
    requires z { 1 ≤ block.z }
    requires few { count size ≤ 2 ^ 21 }
    requires padded { count (padded_to size block) ≤ 2 ^ 22 }
    requires length { length labels.now ≡ count size }
    requires fit { AllFit width labels.now }
    ensures text { IfOk result (λ bytes. bytes ≡ cseg_text block width size labels.now) }
{
    let text = match width {
        Width::W64 => encode_blocks::<2>(alloc, labels, size, block)?,
        Width::W8 | Width::W16 | Width::W32 => encode_blocks::<1>(alloc, labels, size, block)?,
    };
    Ok(Bytes::from_vec(text))
}

/// The compressed text of the labels of the volume. The sides of a block are in voxels (Neuroglancer
/// compressed_segmentation).
pub fn encode(
    alloc: Global,
    volume: &Volume,
    block: Point,
    width: Width,
) -> Result<Bytes, EncodeError>
    requires wide { is_wide width ≡ true }
    requires x { 1 ≤ block.x }
    requires y { 1 ≤ block.y }
    requires z { 1 ≤ block.z }
    requires few { count volume.now.size ≤ 2 ^ 21 }
    requires padded { count (padded_to volume.now.size block) ≤ 2 ^ 22 }
    ensures text { IfOk result (λ bytes. bytes ≡ cseg_text block width volume.now.size volume.now.labels) }
    ensures fit { OnOk result (AllFit width volume.now.labels) }
    ensures refusal { IfErr result (λ e. Explains width volume.now.labels e) }
    ensures clean { IfOk result (λ bytes. fault_of block width volume.now.size bytes ≡ None) }
    ensures reads_back { IfOk result (λ bytes. (x y z : ℕ) → IsInside volume.now.size x y z → label_at block width volume.now.size bytes x y z ≡ voxel volume.now x y z) }
{
    if let Some(index) = first_too_wide(volume.labels(), width) {
        return Err(EncodeError::ValueTooWide {
            index: index as u64,
        });
    }
    match encode_fitting(alloc, volume.labels(), volume.size(), block, width) {
        Ok(bytes) => Ok(bytes),
        Err(_) => Err(EncodeError::Memory),
    }
}
