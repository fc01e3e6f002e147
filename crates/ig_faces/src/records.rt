//! Records of one length, one after the other in a file.
ghost use Rattle.std.specs.Prelude.{ℕ, List, Option, ◌≡◌, ◌+◌, ◌*◌, ◌^◌, ◌<◌, ◌≤◌, ◌↔◌, ◌++◌, IfOk, IfSome, IfErr, OnOk, IsTrue, None, length, take, drop, flat_map};
ghost use Rattle.ig_faces.specs.Explaining.{Explains};
ghost use Rattle.ig_faces.specs.Records.{records_in, first_wrong, file_wrong, ReadsBack};

use crate::{BadFile, FileError};
use ig_space::Bytes;
use std::alloc::{AllocError, Global};

/// Numbers that stand side by side in a file, each with its lowest byte first.
pub trait Record: Copy {
    ghost EACH: { ℕ };

    ghost read: { List ℕ → Self };

    ghost text: { Self → List ℕ };

    /// How many bytes it has.
    const EACH: usize;

    /// The record in the first bytes.
    fn read_from(bytes: &[u8]) -> Self
        requires { EACH ≤ length bytes.now }
        ensures value { result ≡ read bytes.now }
        ensures text { text result ≡ take EACH bytes.now };

    /// Writes it over the first bytes.
    fn write_to(self, bytes: &mut [u8])
        requires { EACH ≤ length bytes.old }
        ensures text { bytes.new ≡ text self ++ drop EACH bytes.old }
        ensures back { ReadsBack EACH read text self };
}

/// What must hold of each record of a file, beside the one before.
pub trait Rule<R: Record> {
    ghost wrong: { Self → Option R → R → Option ℕ };

    /// Where the first wrong field begins, in bytes from the record's begin.
    fn find_wrong(&self, before: Option<R>, next: R) -> Option<usize>
        ensures value { result ≡ wrong self.now before next }
        ensures within { IfSome result (λ at. at < R.EACH) };
}

/// Whether a file of this length has a head of so many bytes and then so many records, and no more.
pub fn has_length(length: usize, head: usize, each: usize, count: u64) -> bool
    requires { 1 ≤ each }
    ensures { IsTrue result ↔ (length ≡ head + each * count) }
{
    if length < head {
        return false;
    }
    let rest = length - head;
    rest % each == 0 && (rest / each) as u64 == count
}

/// The records in these bytes, which are as many as the records have.
pub fn read_records<R: Record>(
    alloc: Global,
    bytes: &[u8],
    count: usize,
) -> Result<Vec<R>, AllocError>
    requires { length bytes.now ≡ R.EACH * count }
    ensures value { IfOk result (λ records. records.items ≡ records_in R.read R.EACH count bytes.now) }
    ensures text { IfOk result (λ records. flat_map R.text records.items ≡ bytes.now) }
{
    let mut records = Vec::with_capacity(alloc, count)?;
    for place in 0..count {
        records.push(R::read_from(&bytes[R::EACH * place..]))?;
    }
    Ok(records)
}

/// Writes the records into bytes that are as many as theirs.
pub fn write_records<R: Record>(records: &[R], bytes: &mut [u8])
    requires { length bytes.old ≡ R.EACH * length records.now }
    ensures text { bytes.new ≡ flat_map R.text records.now }
    ensures back { records_in R.read R.EACH (length records.now) bytes.new ≡ records.now }
{
    for (place, record) in records.iter().enumerate() {
        record.write_to(&mut bytes[R::EACH * place..]);
    }
}

/// Where the first wrong field of the records begins, which follow a head of so many bytes.
pub fn find_wrong<R: Record, T: Rule<R>>(rule: &T, records: &[R], head: usize) -> Option<u64>
    requires { head + R.EACH * length records.now < 2 ^ 64 }
    ensures { result ≡ first_wrong (T.wrong rule.now) R.EACH head None records.now }
{
    let mut before = None;
    for (place, record) in records.iter().enumerate() {
        if let Some(at) = rule.find_wrong(before, *record) {
            return Some((head + R::EACH * place + at) as u64);
        }
        before = Some(*record);
    }
    None
}

/// The records of a file that has a head of so many bytes, then so many records, and no more, each of them right.
pub fn read_file<R: Record, T: Rule<R>>(
    alloc: Global,
    bytes: &[u8],
    head: usize,
    count: u64,
    rule: &T,
) -> Result<Vec<R>, FileError>
    requires some { 1 ≤ R.EACH }
    requires head { head ≤ 8 }
    ensures records { IfOk result (λ records. records.items ≡ records_in R.read R.EACH count (drop head bytes.now)) }
    ensures many { IfOk result (λ records. length records.items ≡ count) }
    ensures text { IfOk result (λ records. flat_map R.text records.items ≡ drop head bytes.now) }
    ensures tested { IfOk result (λ records. first_wrong (T.wrong rule.now) R.EACH head None records.items ≡ None) }
    ensures right { OnOk result (file_wrong (T.wrong rule.now) R.read head R.EACH count bytes.now ≡ None) }
    ensures bad { IfErr result (Explains (file_wrong (T.wrong rule.now) R.read head R.EACH count bytes.now)) }
{
    if !has_length(bytes.len(), head, R::EACH, count) {
        return Err(FileError::Bad(BadFile {
            at: bytes.len() as u64,
        }));
    }
    let records = read_records(alloc, &bytes[head..], count as usize)?;
    if let Some(at) = find_wrong(rule, records.as_slice(), head) {
        return Err(FileError::Bad(BadFile { at }));
    }
    Ok(records)
}

/// A file of a head and the records.
pub fn write_file<H: Record, R: Record>(
    alloc: Global,
    head: H,
    records: &[R],
) -> Result<Bytes, AllocError>
    requires { H.EACH + R.EACH * length records.now < 2 ^ 64 }
    ensures text { IfOk result (λ bytes. bytes ≡ H.text head ++ flat_map R.text records.now) }
    ensures head { IfOk result (λ bytes. H.read bytes ≡ head) }
    ensures back { IfOk result (λ bytes. records_in R.read R.EACH (length records.now) (drop H.EACH bytes) ≡ records.now) }
    ensures length { IfOk result (λ bytes. length bytes ≡ H.EACH + R.EACH * length records.now) }
{
    let mut bytes = vec![in alloc; 0; H::EACH + R::EACH * records.len()]?;
    head.write_to(&mut bytes);
    write_records(records, &mut bytes[H::EACH..]);
    Ok(Bytes::from_vec(bytes))
}
