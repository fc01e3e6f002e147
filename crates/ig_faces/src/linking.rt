//! The links of the parts of two boxes side by side.
ghost use Rattle.std.specs.Prelude.{ℕ, ◌≡◌, ◌≤◌, ◌<◌, ◌↔◌, IfOk, OnOk, length, slice_index};
ghost use Rattle.std.specs.List.{Contains};
ghost use Rattle.std.specs.List.Sorted.{IsStrictlySortedBy};
ghost use Rattle.ig_faces.specs.declared.links.Link.{Link as Joint};
ghost use Rattle.ig_faces.specs.Linking.{HasOrIs, IsLinked, link_between, order, rank};

use crate::{Link, Links};
use std::alloc::{AllocError, Global};

/// The distinct links of two boxes side by side along an axis, ascending: of the part at a place of the own high plane and the part at
/// that place of the neighbour's low plane, where both are parts and their labels are equal. The label of part p stands at p - 1.
pub fn links_of(
    alloc: Global,
    axis: u32,
    high: &[u32],
    low: &[u32],
    own: &[u64],
    other: &[u64],
) -> Result<Links, AllocError>
    requires axis { axis < 3 }
    requires planes { length low.now ≡ length high.now }
    requires high { (k : ℕ) → k < length high.now → slice_index high.now k ≤ length own.now }
    requires low { (k : ℕ) → k < length low.now → slice_index low.now k ≤ length other.now }
    ensures ascending { IfOk result (IsStrictlySortedBy order) }
    ensures each { IfOk result (λ links. (link : Joint) → Contains links link ↔ IsLinked axis high.now low.now own.now other.now link) }
{
    let mut links = links_at_places(alloc, axis, high, low, own, other)?;
    arrange(&mut links);
    Ok(Links::from_vec(links))
}

/// The links at all places, with repeats.
fn links_at_places(
    alloc: Global,
    axis: u32,
    high: &[u32],
    low: &[u32],
    own: &[u64],
    other: &[u64],
) -> Result<Vec<Link>, AllocError>
    requires planes { length low.now ≡ length high.now }
    requires high { (k : ℕ) → k < length high.now → slice_index high.now k ≤ length own.now }
    requires low { (k : ℕ) → k < length low.now → slice_index low.now k ≤ length other.now }
    ensures { IfOk result (λ links. (link : Joint) → Contains links.items link ↔ IsLinked axis high.now low.now own.now other.now link) }
{
    let mut links = Vec::new(alloc);
    for place in 0..high.len() {
        let found = link_between(axis, own, other, high[place], low[place]);
        push_found(&mut links, found)?;
    }
    Ok(links)
}

/// Adds a link, if there is one.
fn push_found(links: &mut Vec<Link>, found: Option<Link>) -> Result<(), AllocError>
    ensures { OnOk result ((link : Joint) → Contains links.new.items link ↔ HasOrIs links.old.items found link) }
{
    if let Some(link) = found {
        links.push(link)?;
    }
    Ok(())
}

/// The link of an own part and another's, where both are parts and have one label.
fn link_between(axis: u32, own: &[u64], other: &[u64], p: u32, q: u32) -> Option<Link>
    requires own { p ≤ length own.now }
    requires other { q ≤ length other.now }
    ensures { result ≡ link_between axis own.now other.now p q }
{
    if p == 0 || q == 0 {
        return None;
    }
    if own[p as usize - 1] != other[q as usize - 1] {
        return None;
    }
    Some(Link {
        axis,
        own: p,
        other: q,
    })
}

/// By what links come in order: the axis, the own part and the other part.
fn rank(link: &Link) -> [u32; 3]
    ensures { result ≡ rank link.now }
{
    [link.axis, link.own, link.other]
}

/// Puts links in order, each once.
fn arrange(links: &mut Vec<Link>)
    ensures sorted { IsStrictlySortedBy order links.new.items }
    ensures same { (link : Joint) → Contains links.new.items link ↔ Contains links.old.items link }
{
    links.sort_unstable_by_key(
        |link|
            ensures { result ≡ rank link.now }
        { rank(link) },
    );
    links.dedup();
}
