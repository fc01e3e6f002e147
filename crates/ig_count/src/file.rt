ghost use Rattle.std.specs.Prelude.{◌≡◌, ◌<◌, None, IfOk, IfErr, IfSome, OnOk};
ghost use Rattle.ig_count.specs.CountsFile.{AreFew, count_in, count_text, count_wrong, counts_in, counts_text, counts_wrong};
ghost use Rattle.ig_faces.specs.Explaining.{Explains};

use crate::{Counts, LabelCount};
use ig_faces::{BadFile, FileError, Record, Rule, read_file, write_file};
use ig_space::Bytes;
use std::alloc::{AllocError, Global};

impl Record for LabelCount {
    ghost EACH = { 16 };

    ghost read = { count_in };

    ghost text = { count_text };

    const EACH: usize = 16;

    fn read_from(bytes: &[u8]) -> LabelCount {
        LabelCount {
            label: u64::read_from(bytes),
            voxels: u64::read_from(&bytes[8..]),
        }
    }

    fn write_to(self, bytes: &mut [u8]) {
        self.label.write_to(bytes);
        self.voxels.write_to(&mut bytes[8..]);
    }
}

/// The most voxels that a label may have in a file.
const MOST_VOXELS: u64 = 1 << 44;

/// What must hold of the items of a file: the labels ascend, and each has 1 to 2^44 voxels.
struct Items;

impl Rule<LabelCount> for Items {
    ghost wrong = { λ rule before item. count_wrong before item };

    fn find_wrong(&self, before: Option<LabelCount>, next: LabelCount) -> Option<usize>
        ensures value { result ≡ count_wrong before next }
        ensures within { IfSome result (λ at. at < 16) }
    {
        if let Some(before) = before
            && next.label <= before.label
        {
            return Some(0);
        }
        if next.voxels == 0 || next.voxels > MOST_VOXELS {
            return Some(8);
        }
        None
    }
}

/// The file of the table: the number of its labels, then each label and its voxels, in 8 bytes each with the lowest first.
pub fn write_counts(alloc: Global, counts: &Counts) -> Result<Bytes, AllocError>
    ensures text { IfOk result (λ bytes. bytes ≡ counts_text counts.now) }
    ensures back { IfOk result (λ bytes. counts_in bytes ≡ counts.now) }
    ensures right { IfOk result (λ bytes. AreFew counts.now → counts_wrong bytes ≡ None) }
{
    let items = counts.as_slice();
    write_file(alloc, items.len() as u64, items)
}

/// The table that stands in a file. A wrong file is refused at the byte where the first wrong field begins: at its end where its
/// length isn't that of its items, at a label that isn't above the one before, at voxels of 0 or above 2^44.
pub fn read_counts(alloc: Global, bytes: &[u8]) -> Result<Counts, FileError>
    ensures counts { IfOk result (λ counts. counts ≡ counts_in bytes.now) }
    ensures text { IfOk result (λ counts. counts_text counts ≡ bytes.now) }
    ensures few { IfOk result AreFew }
    ensures right { OnOk result (counts_wrong bytes.now ≡ None) }
    ensures bad { IfErr result (Explains (counts_wrong bytes.now)) }
{
    if bytes.len() < 8 {
        return Err(FileError::Bad(BadFile {
            at: bytes.len() as u64,
        }));
    }
    let items = read_file(alloc, bytes, 8, u64::read_from(bytes), &Items)?;
    Ok(Counts::of(items))
}
