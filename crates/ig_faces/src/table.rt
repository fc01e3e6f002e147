//! The file of the numbers of parts.
ghost use Rattle.std.specs.Prelude.{ℕ, ◌≡◌, ◌<◌, ◌^◌, IfOk, IfErr, IfSome, OnOk, None, length, slice_index};
ghost use Rattle.ig_faces.specs.Explaining.{Explains};
ghost use Rattle.ig_faces.specs.Records.{first_wrong};
ghost use Rattle.ig_faces.specs.TableFile.{IsNumber, number_wrong, table_in, table_text, table_wrong};

use crate::counted::{read_counted, write_counted};
use crate::{BadFile, FileError, Record, Rule};
use ig_space::{Bytes, List};
use std::alloc::{AllocError, Global};

/// The number of each of the parts 1, 2, .. of a box.
pub type Table = List<u32>;

/// The greatest number of a part.
const MOST: u32 = 1 << 24;

/// What must hold of the numbers of parts: each is one of 1 to 2^24.
#[derive(Clone, Copy)]
struct NumberRule;

impl Rule<u32> for NumberRule {
    ghost wrong = { λ rule before number. number_wrong before number };

    fn find_wrong(&self, before: Option<u32>, next: u32) -> Option<usize>
        ensures value { result ≡ number_wrong before next }
        ensures within { IfSome result (λ at. at < 4) }
    {
        let _ = before;
        if next == 0 || next > MOST {
            Some(0)
        } else {
            None
        }
    }
}

/// The file of the numbers of parts: how many there are, then each number, in 4 bytes with the lowest first.
pub fn write_table(alloc: Global, numbers: &[u32]) -> Result<Bytes, AllocError>
    requires { length numbers.now < 2 ^ 32 }
    ensures text { IfOk result (λ bytes. bytes ≡ table_text numbers.now) }
    ensures back { IfOk result (λ bytes. table_in bytes ≡ numbers.now) }
    ensures right { IfOk result (λ bytes. first_wrong number_wrong 4 4 None numbers.now ≡ None → table_wrong (length numbers.now) bytes ≡ None) }
{
    write_counted(alloc, numbers)
}

/// The numbers of so many parts that stand in a file. A wrong file is refused at the byte where the first wrong field begins: at its
/// end where it is not of so many parts or its length isn't theirs, at a number of 0 or above 2^24.
pub fn read_table(alloc: Global, bytes: &[u8], count: u32) -> Result<Table, FileError>
    ensures numbers { IfOk result (λ numbers. numbers ≡ table_in bytes.now) }
    ensures text { IfOk result (λ numbers. table_text numbers ≡ bytes.now) }
    ensures many { IfOk result (λ numbers. length numbers ≡ count) }
    ensures each { IfOk result (λ numbers. (k : ℕ) → k < length numbers → IsNumber (slice_index numbers k)) }
    ensures right { OnOk result (table_wrong count bytes.now ≡ None) }
    ensures bad { IfErr result (Explains (table_wrong count bytes.now)) }
{
    if bytes.len() < 4 || u32::read_from(bytes) != count {
        return Err(FileError::Bad(BadFile {
            at: bytes.len() as u64,
        }));
    }
    Ok(Table::from_vec(read_counted(alloc, bytes, &NumberRule)?))
}
