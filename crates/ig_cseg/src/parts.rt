//! A block from its parts.
ghost use Rattle.std.specs.Prelude.{◌≡◌, ◌≤◌, ◌++◌, IfOk, OnOk, flat_map, length};
ghost use Rattle.ig_space.specs.Geometry.{count};
ghost use Rattle.ig_space.specs.Raw.{raw_text};
ghost use Rattle.ig_space.specs.declared.geometry.Width.TheVariants.{W32};
ghost use Rattle.ig_cseg.specs.Blocks.{IsClip};
ghost use Rattle.ig_cseg.specs.BlockText.{box_labels, box_words, index_words};
ghost use Rattle.ig_cseg.specs.CsegText.{distinct, fewest_bits, label_words};

use crate::blocks::Clip;
use crate::gather::gather;
use crate::indexing::write_indices;
use crate::pack::{append_words, value_len};
use crate::table::{fewest_bits, tabulate};
use crate::words::push_label;
use std::alloc::{AllocError, Global};

/// What a block is put together from. It is kept from block to block, and so is its memory.
#[derive(Drop)]
pub(crate) struct Parts {
    voxels: Vec<u64>,
    table: Vec<u64>,
    indices: Vec<u32>,
}

impl Parts {
    /// Parts without labels.
    pub(crate) fn new(alloc: Global) -> Self {
        Parts {
            voxels: Vec::new(alloc),
            table: Vec::new(alloc),
            indices: Vec::new(alloc),
        }
    }
}

/// Appends the words of the indices of a block: the labels of its voxels, their table and the bits of an index.
fn append_indices(
    voxels: &[u64],
    table: &[u64],
    bits: usize,
    clip: &Clip,
    indices: &mut Vec<u32>,
    text: &mut Vec<u8>,
) -> Result<(), AllocError>
    requires clip { IsClip clip.now.volume clip.now.block clip.now.lo clip.now.size }
    requires voxels { length voxels.now ≡ count clip.now.size }
    requires table { table.now ≡ distinct voxels.now }
    requires bits { bits ≡ fewest_bits (length table.now) }
    ensures { OnOk result (text.new.items ≡ text.old.items ++ raw_text W32 (index_words clip.now.block clip.now.size voxels.now table.now bits)) }
{
    if bits == 0 {
        return Ok(());
    }
    let each = 32 / bits;
    let words = value_len(bits, clip.positions());
    indices.clear();
    indices.resize(words * each, 0)?;
    write_indices(voxels, table, clip, indices);
    append_words(indices, bits, each, words, text)
}

/// Appends the words of a table, where a label has N words.
fn append_table<const N: usize>(table: &[u64], text: &mut Vec<u8>) -> Result<(), AllocError>
    requires some { 1 ≤ N }
    requires few { N ≤ 2 }
    ensures { OnOk result (text.new.items ≡ text.old.items ++ raw_text W32 (flat_map (label_words N) table.now)) }
{
    for label in table {
        push_label::<N>(text, *label)?;
    }
    Ok(())
}

/// Appends the words of the block, and says how many bits an index has, where a label has N words.
pub(crate) fn append_block<const N: usize>(
    labels: &[u64],
    clip: &Clip,
    parts: &mut Parts,
    text: &mut Vec<u8>,
) -> Result<usize, AllocError>
    requires some { 1 ≤ N }
    requires few { N ≤ 2 }
    requires clip { IsClip clip.now.volume clip.now.block clip.now.lo clip.now.size }
    requires room { length labels.now ≡ count clip.now.volume }
    ensures bits { IfOk result (λ bits. bits ≡ fewest_bits (length (distinct (box_labels clip.now.volume clip.now.lo clip.now.size labels.now)))) }
    ensures text { OnOk result (text.new.items ≡ text.old.items ++ raw_text W32 (box_words N clip.now.block clip.now.size (box_labels clip.now.volume clip.now.lo clip.now.size labels.now))) }
{
    gather(labels, clip, &mut parts.voxels)?;
    tabulate(&parts.voxels, &mut parts.table)?;
    let bits = fewest_bits(parts.table.len());
    append_indices(
        &parts.voxels,
        &parts.table,
        bits,
        clip,
        &mut parts.indices,
        text,
    )?;
    append_table::<N>(&parts.table, text)?;
    Ok(bits)
}
