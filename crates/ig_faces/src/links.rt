//! The file of links.
ghost use Rattle.std.specs.Prelude.{ℕ, Option, ◌≡◌, ◌<◌, ◌^◌, All, IfOk, IfErr, IfSome, OnOk, None, length};
ghost use Rattle.ig_faces.specs.Explaining.{Explains};
ghost use Rattle.ig_faces.specs.LinksFile.{ends_wrong, is_before, link_in, link_text, link_wrong, links_in, links_text, links_wrong, neighbour, Others};
ghost use Rattle.ig_faces.specs.Records.{first_wrong};

use crate::counted::{read_counted, write_counted};
use crate::{FileError, Record, Rule};
use ig_space::{Bytes, List, TryClone};
use std::alloc::{AllocError, Global};

/// A part of a box and one of the box beside it along an axis that are one: the axis is 0, 1 or 2 for x, y or z, and the parts are
/// counted from 1.
#[derive(Clone, Copy, Debug, PartialEq, Eq)]
pub struct Link {
    pub axis: u32,
    pub own: u32,
    pub other: u32,
}

/// Links, ascending by axis, own part and other part.
pub type Links = List<Link>;

impl TryClone for Link {
    fn copy(&self) -> Result<Link, AllocError> {
        Ok(*self)
    }
}

impl Record for Link {
    ghost EACH = { 12 };

    ghost read = { link_in };

    ghost text = { link_text };

    const EACH: usize = 12;

    fn read_from(bytes: &[u8]) -> Link {
        Link {
            axis: u32::read_from(bytes),
            own: u32::read_from(&bytes[4..]),
            other: u32::read_from(&bytes[8..]),
        }
    }

    fn write_to(self, bytes: &mut [u8]) {
        self.axis.write_to(bytes);
        self.own.write_to(&mut bytes[4..]);
        self.other.write_to(&mut bytes[8..]);
    }
}

/// What must hold of the links of a box of so many parts, whose neighbours along x, y and z have so many: they ascend, each has a
/// neighbour, and its parts are those of the two boxes.
#[derive(Clone, Copy)]
struct LinkRule {
    own: u32,
    others: [Option<u32>; 3],
}

/// Whether a link comes before another: by its axis, then its own part, then its other part.
fn is_before(a: Link, b: Link) -> bool
    ensures { result ≡ is_before a b }
{
    a.axis < b.axis || a.axis == b.axis && (a.own < b.own || a.own == b.own && a.other < b.other)
}

/// How many parts the neighbour along the axis has, if there is one.
fn neighbour(others: &[Option<u32>; 3], axis: u32) -> Option<u32>
    ensures { result ≡ neighbour others.now axis }
{
    match others.get(axis as usize) {
        Some(other) => *other,
        None => None,
    }
}

impl Rule<Link> for LinkRule {
    ghost wrong = { λ rule before link. link_wrong rule.own rule.others before link };

    fn find_wrong(&self, before: Option<Link>, next: Link) -> Option<usize>
        ensures value { result ≡ link_wrong self.now.own self.now.others before next }
        ensures within { IfSome result (λ at. at < 12) }
    {
        if let Some(before) = before
            && !is_before(before, next)
        {
            return Some(0);
        }
        let Some(other) = neighbour(&self.others, next.axis) else {
            return Some(0);
        };
        if next.own == 0 || next.own > self.own {
            return Some(4);
        }
        if next.other == 0 || next.other > other {
            return Some(8);
        }
        None
    }
}

/// The file of links: their number, then the axis, the own part and the other part of each, in 4 bytes with the lowest first.
pub fn write_links(alloc: Global, links: &Links) -> Result<Bytes, AllocError>
    requires { length links.now < 2 ^ 32 }
    ensures text { IfOk result (λ bytes. bytes ≡ links_text links.now) }
    ensures back { IfOk result (λ bytes. links_in bytes ≡ links.now) }
    ensures right { IfOk result (λ bytes. (own : ℕ) (others : Others) → first_wrong (link_wrong own others) 12 4 None links.now ≡ None → links_wrong own others bytes ≡ None) }
{
    write_counted(alloc, links.as_slice())
}

/// The links that stand in a file, of a box of so many parts whose neighbours along x, y and z have so many. A wrong file is refused
/// at the byte where the first wrong field begins: at its end where its length isn't that of its links, at a link that isn't above
/// the one before, at an axis with no neighbour, at a part that is none of its box.
pub fn read_links(
    alloc: Global,
    bytes: &[u8],
    own: u32,
    others: [Option<u32>; 3],
) -> Result<Links, FileError>
    ensures links { IfOk result (λ links. links ≡ links_in bytes.now) }
    ensures text { IfOk result (λ links. links_text links ≡ bytes.now) }
    ensures each { IfOk result (λ links. All (λ link. ends_wrong own (neighbour others link.axis) link ≡ None) links) }
    ensures right { OnOk result (links_wrong own others bytes.now ≡ None) }
    ensures bad { IfErr result (Explains (links_wrong own others bytes.now)) }
{
    Ok(Links::from_vec(read_counted(alloc, bytes, &LinkRule { own, others })?))
}
