//! The numbers of the parts of a whole volume by themselves.
ghost use Rattle.std.specs.Prelude.{IsTrue};
ghost use Rattle.ig_global.specs.EdgeGraph.{AreWithin};
ghost use Rattle.ig_global.specs.Numbers.{AreBelow};

use crate::Told;
use crate::codecs::{labels_of, say_small, small_of};
use crate::numbers::small;
use ig_global::{Edge, Edges, number, number_parts, total, walk};
use ig_space::Classes;
use std::alloc::{AllocError, Global};

/// At most so many boxes, nodes and links.
pub(crate) const MOST: usize = 10_000;

/// `A-B`.
fn edge(word: &str) -> Option<Edge> {
    let (a, b) = word.split_once('-')?;
    Some(Edge {
        a: small(a)?,
        b: small(b)?,
    })
}

/// The links that words write; none where one is no link.
fn edges_of(alloc: Global, words: &[&str]) -> Result<Option<Vec<Edge>>, AllocError> {
    let mut edges = Vec::new(alloc);
    for word in words {
        match edge(word) {
            Some(edge) => edges.push(edge)?,
            None => return Ok(None),
        }
    }
    Ok(Some(edges))
}

/// Whether the ends of each link are below the number of nodes.
pub(crate) fn are_within(nodes: u32, edges: &[Edge]) -> bool
    ensures { IsTrue result → AreWithin nodes edges.now }
{
    for place in 0..edges.len() {
        if edges[place].a >= nodes || edges[place].b >= nodes {
            return false;
        }
    }
    true
}

/// Whether each class is the number of a node.
fn are_below(classes: &[u32]) -> bool
    ensures { IsTrue result → AreBelow classes.now }
{
    for place in 0..classes.len() {
        if classes[place] as usize >= classes.len() {
            return false;
        }
    }
    true
}

/// The words before the first `/`, and those after it; none where there is none.
fn halves<'a>(words: &'a [&'a str]) -> Option<(&'a [&'a str], &'a [&'a str])> {
    let place = words.iter().position(|word| *word == "/")?;
    Some((words.get(..place)?, words.get(place.saturating_add(1)..)?))
}

/// An answer with the numbers in one line.
pub(crate) fn listed(
    alloc: Global,
    answer: &str,
    numbers: &[u32],
) -> Result<Option<Told>, AllocError> {
    let mut told = Told::of(alloc, answer)?;
    say_small(alloc, &mut told, numbers)?;
    Ok(Some(told))
}

/// `total COUNT..`.
pub(crate) fn ask_total(alloc: Global, counts: &[&str]) -> Result<Option<Told>, AllocError> {
    let Some(counts) = small_of(alloc, counts)? else {
        return Ok(None);
    };
    if counts.len() > MOST {
        return Ok(None);
    }
    let answer = match total(counts.as_slice()) {
        Ok(count) => format!(in alloc; "{count}")?,
        Err(error) => format!(in alloc; "too many parts {}", error.count)?,
    };
    Ok(Some(Told::new(alloc, answer)))
}

/// `walk NODES LINK..`: the class of each node.
pub(crate) fn ask_walk(
    alloc: Global,
    nodes: &str,
    links: &[&str],
) -> Result<Option<Told>, AllocError> {
    let (Some(nodes), Some(edges)) = (small(nodes), edges_of(alloc, links)?) else {
        return Ok(None);
    };
    if nodes as usize > MOST || !are_within(nodes, edges.as_slice()) {
        return Ok(None);
    }
    let classes = walk(alloc, nodes, &Edges::from_vec(edges))?;
    listed(alloc, "walked", classes.as_slice())
}

/// `number CLASS.. / FIRST..`: the number of each node's class.
pub(crate) fn ask_number(alloc: Global, words: &[&str]) -> Result<Option<Told>, AllocError> {
    let Some((classes, firsts)) = halves(words) else {
        return Ok(None);
    };
    let (Some(classes), Some(firsts)) = (small_of(alloc, classes)?, labels_of(alloc, firsts)?)
    else {
        return Ok(None);
    };
    if classes.len() > MOST || firsts.len() != classes.len() || !are_below(classes.as_slice()) {
        return Ok(None);
    }
    let table = number(alloc, &Classes::from_vec(classes), firsts.as_slice())?;
    listed(alloc, "numbered", table.as_slice())
}

/// `number_parts FIRST.. / LINK..`: the number of each part of a box in the whole volume.
pub(crate) fn ask_parts(alloc: Global, words: &[&str]) -> Result<Option<Told>, AllocError> {
    let Some((firsts, links)) = halves(words) else {
        return Ok(None);
    };
    let (Some(firsts), Some(edges)) = (labels_of(alloc, firsts)?, edges_of(alloc, links)?) else {
        return Ok(None);
    };
    if firsts.len() > MOST || !are_within(firsts.len() as u32, edges.as_slice()) {
        return Ok(None);
    }
    let table = number_parts(alloc, &Edges::from_vec(edges), firsts.as_slice())?;
    listed(alloc, "numbered", table.as_slice())
}
