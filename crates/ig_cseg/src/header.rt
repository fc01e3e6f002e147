//! The header of a block.
ghost use Rattle.std.specs.Prelude.{◌≡◌, ◌≤◌, ◌<◌, ◌+◌, ◌*◌, ◌/◌, ◌++◌, ◌^◌, ◌∷◌, [], drop, length, take};
ghost use Rattle.ig_space.specs.Raw.{raw_text};
ghost use Rattle.ig_space.specs.declared.geometry.Width.TheVariants.{W32};
ghost use Rattle.ig_cseg.specs.Blocks.{IsHeader};
ghost use Rattle.ig_cseg.specs.Cseg.{channel, entry_place, index_at, is_lawful, word_count};

use crate::words::word;
use byteorder::{ByteOrder, LittleEndian};

/// What the two words of a block's header say. Places count in words from the begin of the file.
#[derive(Clone, Copy)]
pub(crate) struct Header {
    pub(crate) block: usize,
    pub(crate) table: usize,
    pub(crate) bits: usize,
    pub(crate) values: usize,
}

impl Header {
    /// The header of the block with this number.
    pub(crate) fn read(bytes: &[u8], origin: usize, block: usize) -> Self
        requires origin { origin ≡ channel bytes.now }
        requires within { origin + (2 * block + 2) ≤ word_count bytes.now }
        requires small { origin < 2 ^ 32 }
        ensures header { IsHeader bytes.now result.block result.table result.bits result.values }
        ensures block { result.block ≡ block }
    {
        let first = word(bytes, origin + 2 * block);
        let second = word(bytes, origin + (2 * block + 1));
        Header {
            block,
            table: origin + (first & 0xff_ffff) as usize,
            bits: (first >> 24) as usize,
            values: origin + second as usize,
        }
    }

    /// Whether an index may have so many bits.
    pub(crate) fn is_lawful(&self) -> bool
        ensures { result ≡ is_lawful self.now.bits }
    {
        matches!(self.bits, 0 | 1 | 2 | 4 | 8 | 16 | 32)
    }

    /// The index at this position, which has bits.
    pub(crate) fn index(&self, bytes: &[u8], position: usize) -> usize
        requires header { IsHeader bytes.now self.now.block self.now.table self.now.bits self.now.values }
        requires few { self.now.bits ≤ 32 }
        requires position { position ≤ 2 ^ 22 }
        requires within { self.now.values + position * self.now.bits / 32 + 1 ≤ word_count bytes.now }
        ensures value { result ≡ index_at bytes.now self.now.block position }
        ensures small { result < 2 ^ 32 }
    {
        let bit = position * self.bits;
        let word = u64::from(word(bytes, self.values + bit / 32));
        (word >> (bit % 32) & ((1 << self.bits) - 1)) as usize
    }

    /// Where the table entry of this position begins, which has bits, where an entry has N words.
    pub(crate) fn entry<const N: usize>(&self, bytes: &[u8], position: usize) -> usize
        requires words { N ≤ 2 }
        requires header { IsHeader bytes.now self.now.block self.now.table self.now.bits self.now.values }
        requires few { self.now.bits ≤ 32 }
        requires position { position ≤ 2 ^ 22 }
        requires within { self.now.values + position * self.now.bits / 32 + 1 ≤ word_count bytes.now }
        ensures value { result ≡ channel bytes.now + entry_place N bytes.now self.now.block position }
        ensures small { result < 2 ^ 40 }
    {
        self.table + N * self.index(bytes, position)
    }
}

/// Writes the header of a block of a channel that begins at word 1: its number, where its table is, how many bits an
/// index has, and where its values are, both in words from the begin of the channel.
pub(crate) fn write_header(text: &mut [u8], block: usize, table: usize, bits: usize, values: usize)
    requires within { 4 * (2 * block + 3) ≤ length text.old }
    requires table { table < 2 ^ 24 }
    requires bits { bits ≤ 32 }
    requires values { values < 2 ^ 32 }
    ensures { text.new ≡ take (4 * (2 * block + 1)) text.old ++ (raw_text W32 ((table + 2 ^ 24 * bits) ∷ values ∷ []) ++ drop (4 * (2 * block + 3)) text.old) }
{
    let place = 4 * (2 * block + 1);
    LittleEndian::write_u32(&mut text[place..], (bits << 24 | table) as u32);
    LittleEndian::write_u32(&mut text[place + 4..], values as u32);
}
