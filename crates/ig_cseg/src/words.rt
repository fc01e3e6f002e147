//! The 32-bit words of a file.
ghost use Rattle.std.specs.Prelude.{◌≡◌, ◌≤◌, ◌+◌, ◌*◌, ◌++◌, OnOk, length};
ghost use Rattle.byteorder.specs.Endian.{little_bytes};
ghost use Rattle.ig_space.specs.Raw.{raw_text};
ghost use Rattle.ig_space.specs.declared.geometry.Width.TheVariants.{W32};
ghost use Rattle.ig_cseg.specs.Cseg.{number, word, word_count};
ghost use Rattle.ig_cseg.specs.CsegText.{label_words};

use byteorder::{ByteOrder, LittleEndian};
use std::alloc::AllocError;

/// How many words there are.
pub(crate) fn word_count(bytes: &[u8]) -> usize
    ensures { result ≡ word_count bytes.now }
{
    bytes.len() / 4
}

/// The word at this place.
#[tactic(auto, unfolding(crate::specs::Cseg::word))]
pub(crate) fn word(bytes: &[u8], place: usize) -> u32
    requires { place + 1 ≤ word_count bytes.now }
    ensures { result ≡ word bytes.now place }
{
    LittleEndian::read_u32(&bytes[4 * place..])
}

/// The number in N words from this place on, 1 or 2 of them, the low one first.
pub(crate) fn number<const N: usize>(bytes: &[u8], place: usize) -> u64
    requires some { 1 ≤ N }
    requires few { N ≤ 2 }
    requires within { place + N ≤ word_count bytes.now }
    ensures { result ≡ number N bytes.now place }
{
    let low = u64::from(word(bytes, place));
    if N == 1 {
        return low;
    }
    low | u64::from(word(bytes, place + 1)) << 32
}

/// Appends a word in its bytes, the lowest first.
pub(crate) fn push_word(text: &mut Vec<u8>, word: u32) -> Result<(), AllocError>
    ensures { OnOk result (text.new.items ≡ text.old.items ++ little_bytes 4 word) }
{
    text.extend_from_slice(word.to_le_bytes().as_slice())
}

/// Appends a label in N words, 1 or 2 of them, the low one first.
pub(crate) fn push_label<const N: usize>(text: &mut Vec<u8>, label: u64) -> Result<(), AllocError>
    requires some { 1 ≤ N }
    requires few { N ≤ 2 }
    ensures { OnOk result (text.new.items ≡ text.old.items ++ raw_text W32 (label_words N label)) }
{
    push_word(text, (label & 0xffff_ffff) as u32)?;
    if N == 1 {
        return Ok(());
    }
    push_word(text, (label >> 32) as u32)
}
