//! Files that begin with the number of their records, in 4 bytes.
ghost use Rattle.std.specs.Prelude.{ℕ, Option, ◌≡◌, ◌<◌, ◌≤◌, ◌^◌, IfOk, IfErr, OnOk, None, length};
ghost use Rattle.ig_faces.specs.Counted.{counted_in, counted_text, counted_wrong};
ghost use Rattle.ig_faces.specs.Explaining.{Explains};
ghost use Rattle.ig_faces.specs.Records.{first_wrong, number_in};

use crate::{BadFile, FileError, Record, Rule, read_file, write_file};
use ig_space::Bytes;
use std::alloc::{AllocError, Global};

/// A file of the number of records, in 4 bytes, and the records.
pub(crate) fn write_counted<R: Record>(alloc: Global, records: &[R]) -> Result<Bytes, AllocError>
    requires each { R.EACH ≤ 16 }
    requires fewer { length records.now < 2 ^ 32 }
    ensures text { IfOk result (λ bytes. bytes ≡ counted_text R.text records.now) }
    ensures many { IfOk result (λ bytes. number_in 4 bytes ≡ length records.now) }
    ensures back { IfOk result (λ bytes. counted_in R.read R.EACH bytes ≡ records.now) }
    ensures right { IfOk result (λ bytes. (wrong : Option R → R → Option ℕ) → first_wrong wrong R.EACH 4 None records.now ≡ None → counted_wrong wrong R.read R.EACH bytes ≡ None) }
{
    write_file(alloc, records.len() as u32, records)
}

/// The records of a file that is right.
pub(crate) fn read_counted<R: Record, T: Rule<R>>(
    alloc: Global,
    bytes: &[u8],
    rule: &T,
) -> Result<Vec<R>, FileError>
    requires { 1 ≤ R.EACH }
    ensures records { IfOk result (λ records. records.items ≡ counted_in R.read R.EACH bytes.now) }
    ensures many { IfOk result (λ records. length records.items ≡ number_in 4 bytes.now) }
    ensures text { IfOk result (λ records. counted_text R.text records.items ≡ bytes.now) }
    ensures right { OnOk result (counted_wrong (T.wrong rule.now) R.read R.EACH bytes.now ≡ None) }
    ensures tested { IfOk result (λ records. first_wrong (T.wrong rule.now) R.EACH 4 None records.items ≡ None) }
    ensures bad { IfErr result (Explains (counted_wrong (T.wrong rule.now) R.read R.EACH bytes.now)) }
{
    if bytes.len() < 4 {
        return Err(FileError::Bad(BadFile {
            at: bytes.len() as u64,
        }));
    }
    read_file(alloc, bytes, 4, u64::from(u32::read_from(bytes)), rule)
}
