//! The file of the parts of a box.
ghost use Rattle.std.specs.Prelude.{ℕ, Option, ◌≡◌, ◌<◌, ◌≤◌, ◌^◌, IfOk, IfErr, IfSome, OnOk, None, length, map, slice_index};
ghost use Rattle.ig_faces.specs.Explaining.{Explains};
ghost use Rattle.ig_faces.specs.PartsFile.{first_of, label_of, part_in, part_text, part_wrong, parts_in, parts_of, parts_text, parts_wrong};
ghost use Rattle.ig_faces.specs.Records.{first_wrong};

use crate::counted::{read_counted, write_counted};
use crate::{FileError, Record, Rule};
use ig_space::{Bytes, Firsts, Values};
use std::alloc::{AllocError, Global};

/// The parts 1, 2, .. of a box: the first voxel of each, by its number in the box, and its label.
#[derive(Debug, Drop)]
pub struct Parts {
    pub firsts: Firsts,
    pub values: Values,
}

/// One part: its first voxel, by its number in the box, and its label.
#[derive(Clone, Copy)]
pub(crate) struct Part {
    pub first: u32,
    pub label: u64,
}

impl Record for Part {
    ghost EACH = { 12 };

    ghost read = { part_in };

    ghost text = { part_text };

    const EACH: usize = 12;

    fn read_from(bytes: &[u8]) -> Part {
        Part {
            first: u32::read_from(bytes),
            label: u64::read_from(&bytes[4..]),
        }
    }

    fn write_to(self, bytes: &mut [u8]) {
        self.first.write_to(bytes);
        self.label.write_to(&mut bytes[4..]);
    }
}

/// What must hold of the parts of a box of so many voxels: their first voxels ascend and are the box's, and no label is 0.
#[derive(Clone, Copy)]
struct PartRule {
    voxels: u32,
}

impl Rule<Part> for PartRule {
    ghost wrong = { λ rule before part. part_wrong rule.voxels before part };

    fn find_wrong(&self, before: Option<Part>, next: Part) -> Option<usize>
        ensures value { result ≡ part_wrong self.now.voxels before next }
        ensures within { IfSome result (λ at. at < 12) }
    {
        if let Some(before) = before
            && next.first <= before.first
        {
            return Some(0);
        }
        if next.first >= self.voxels {
            return Some(0);
        }
        if next.label == 0 { Some(4) } else { None }
    }
}

/// The parts with these first voxels and labels.
fn join(alloc: Global, firsts: &[u32], values: &[u64]) -> Result<Vec<Part>, AllocError>
    requires { length firsts.now ≡ length values.now }
    ensures parts { IfOk result (λ parts. parts.items ≡ parts_of firsts.now values.now) }
    ensures many { IfOk result (λ parts. length parts.items ≡ length firsts.now) }
{
    let mut parts = Vec::with_capacity(alloc, firsts.len())?;
    for place in 0..firsts.len() {
        parts.push(Part {
            first: firsts[place],
            label: values[place],
        })?;
    }
    Ok(parts)
}

/// The first voxels and the labels of parts.
fn split(alloc: Global, parts: &[Part]) -> Result<Parts, AllocError>
    ensures firsts { IfOk result (λ split. split.firsts ≡ map first_of parts.now) }
    ensures values { IfOk result (λ split. split.values ≡ map label_of parts.now) }
{
    let mut firsts = Vec::with_capacity(alloc, parts.len())?;
    let mut values = Vec::with_capacity(alloc, parts.len())?;
    for part in parts {
        firsts.push(part.first)?;
        values.push(part.label)?;
    }
    Ok(Parts {
        firsts: Firsts::from_vec(firsts),
        values: Values::from_vec(values),
    })
}

/// The file of parts with these first voxels and labels: their number in 4 bytes, then the first voxel of each in 4 and its
/// label in 8, the lowest byte first.
pub fn write_parts(alloc: Global, firsts: &[u32], values: &[u64]) -> Result<Bytes, AllocError>
    requires same { length firsts.now ≡ length values.now }
    requires fewer { length firsts.now < 2 ^ 32 }
    ensures text { IfOk result (λ bytes. bytes ≡ parts_text (parts_of firsts.now values.now)) }
    ensures back { IfOk result (λ bytes. parts_in bytes ≡ parts_of firsts.now values.now) }
    ensures right { IfOk result (λ bytes. (voxels : ℕ) → first_wrong (part_wrong voxels) 12 4 None (parts_of firsts.now values.now) ≡ None → parts_wrong voxels bytes ≡ None) }
{
    let parts = join(alloc, firsts, values)?;
    write_counted(alloc, parts.as_slice())
}

/// The parts that stand in a file, of a box of so many voxels. A wrong file is refused at the byte where the first wrong field
/// begins: at its end where its length isn't that of its parts, at a first voxel that isn't after the one before or isn't one of
/// the box, at a label of 0.
pub fn read_parts(alloc: Global, bytes: &[u8], voxels: u32) -> Result<Parts, FileError>
    ensures firsts { IfOk result (λ parts. parts.firsts ≡ map first_of (parts_in bytes.now)) }
    ensures values { IfOk result (λ parts. parts.values ≡ map label_of (parts_in bytes.now)) }
    ensures below { IfOk result (λ parts. (k : ℕ) → k < length parts.firsts → slice_index parts.firsts k < voxels) }
    ensures labels { IfOk result (λ parts. (k : ℕ) → k < length parts.values → 1 ≤ slice_index parts.values k) }
    ensures same { IfOk result (λ parts. length parts.values ≡ length parts.firsts) }
    ensures text { IfOk result (λ parts. parts_text (parts_of parts.firsts parts.values) ≡ bytes.now) }
    ensures right { OnOk result (parts_wrong voxels bytes.now ≡ None) }
    ensures bad { IfErr result (Explains (parts_wrong voxels bytes.now)) }
{
    let parts = read_counted(alloc, bytes, &PartRule { voxels })?;
    Ok(split(alloc, parts.as_slice())?)
}
