//! The words of indices.
ghost use Rattle.std.specs.Prelude.{◌≡◌, ◌≤◌, ◌<◌, ◌*◌, ◌++◌, ◌^◌, OnOk, length, slice_index, ℕ};
ghost use Rattle.ig_space.specs.Raw.{raw_text};
ghost use Rattle.ig_space.specs.declared.geometry.Width.TheVariants.{W32};
ghost use Rattle.ig_cseg.specs.BlockText.{packed_words};
ghost use Rattle.ig_cseg.specs.CsegText.{packed, value_len};

use crate::words::push_word;
use std::alloc::AllocError;

/// How many words the indices of so many positions take.
pub(crate) fn value_len(bits: usize, positions: usize) -> usize
    requires bits { bits ≤ 32 }
    requires positions { positions ≤ 2 ^ 22 }
    ensures { result ≡ value_len bits positions }
{
    (positions * bits + 31) / 32
}

/// The word of the indices, the first one lowest.
fn pack(indices: &[u32], bits: usize) -> u32
    requires room { bits * length indices.now ≤ 32 }
    requires small { (k : ℕ) → k < length indices.now → slice_index indices.now k < 2 ^ bits }
    ensures { result ≡ packed bits (slice_index indices.now) (length indices.now) }
{
    let mut word = 0;
    for k in 0..indices.len() {
        word |= u64::from(indices[k]) << (bits * k);
    }
    word as u32
}

/// Appends the words of the indices, `each` of them in a word.
pub(crate) fn append_words(
    indices: &[u32],
    bits: usize,
    each: usize,
    words: usize,
    text: &mut Vec<u8>,
) -> Result<(), AllocError>
    requires room { bits * each ≤ 32 }
    requires whole { length indices.now ≡ words * each }
    requires small { (p : ℕ) → slice_index indices.now p < 2 ^ bits }
    ensures { OnOk result (text.new.items ≡ text.old.items ++ raw_text W32 (packed_words bits each (slice_index indices.now) words)) }
{
    for word in 0..words {
        let start = word * each;
        push_word(text, pack(&indices[start..start + each], bits))?;
    }
    Ok(())
}
