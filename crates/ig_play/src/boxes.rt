//! The parts of a whole volume from those of its boxes, for boxes of any size.
ghost use Rattle.std.specs.Prelude.{ℕ, ◌≡◌, ◌<◌, ◌≤◌, IsTrue, length, slice_index};
ghost use Rattle.ig_space.specs.Geometry.{count};

use crate::Told;
use crate::codecs::{has_few, product, small_volume};
use crate::files::is_box;
use crate::globals::{MOST, are_within, listed};
use crate::layer::{chunks_along, labels_in, side};
use ig_faces::{Planes, faces_of, links_of};
use ig_global::{Edge, Edges, number_parts, total};
use ig_label::{Labels, label};
use ig_space::Point;
use std::alloc::{AllocError, Global};

/// A box of a volume: its first voxel, its parts, the planes of its faces, and the node of its first part.
#[derive(Drop)]
struct Cell {
    lo: Point,
    parts: Labels,
    planes: Planes,
    begin: u32,
}

/// Whether a box of this size has so many voxels.
fn has_voxels(size: Point, voxels: usize) -> bool
    ensures { IsTrue result → voxels ≡ count size }
{
    match product(size.x, size.y, size.z) {
        Some(own) => own == voxels as u64,
        None => false,
    }
}

/// The box from `lo` to `hi`; none where it has no voxels.
fn cell_between(
    alloc: Global,
    labels: &[u64],
    size: Point,
    lo: Point,
    hi: Point,
    begin: u32,
) -> Result<Option<Cell>, AllocError> {
    let own = Point {
        x: hi.x.saturating_sub(lo.x),
        y: hi.y.saturating_sub(lo.y),
        z: hi.z.saturating_sub(lo.z),
    };
    let inside = labels_in(alloc, labels, size, lo, hi)?;
    let Some(volume) = small_volume(alloc, own, inside.as_slice())? else {
        return Ok(None);
    };
    let parts = label(alloc, &volume)?;
    if !is_box(own) || !has_voxels(own, parts.local.len()) {
        return Ok(None);
    }
    let planes = faces_of(alloc, own, parts.local.as_slice())?;
    Ok(Some(Cell {
        lo,
        parts,
        planes,
        begin,
    }))
}

/// How many parts the box has.
fn parts_of(cell: &Cell) -> u32 {
    u32::try_from(cell.parts.firsts.len()).unwrap_or(0)
}

/// The boxes of this size that the volume is cut into, x fastest, then y, then z.
fn cells_of(
    alloc: Global,
    labels: &[u64],
    size: Point,
    step: Point,
) -> Result<Option<Vec<Cell>>, AllocError> {
    let (mut cells, mut begin) = (Vec::new(alloc), 0u32);
    for z in 0..chunks_along(size.z, step.z) {
        for y in 0..chunks_along(size.y, step.y) {
            for x in 0..chunks_along(size.x, step.x) {
                let (x, y) = (side(x, step.x, size.x), side(y, step.y, size.y));
                let z = side(z, step.z, size.z);
                let (lo, hi) = (point(x.0, y.0, z.0), point(x.1, y.1, z.1));
                let Some(cell) = cell_between(alloc, labels, size, lo, hi, begin)? else {
                    return Ok(None);
                };
                begin = begin.saturating_add(parts_of(&cell));
                cells.push(cell)?;
            }
        }
    }
    Ok(Some(cells))
}

fn point(x: u64, y: u64, z: u64) -> Point {
    Point { x, y, z }
}

/// Whether each number is at most this one.
fn are_at_most(numbers: &[u32], top: usize) -> bool
    ensures { IsTrue result → (k : ℕ) → k < length numbers.now → slice_index numbers.now k ≤ top }
{
    for place in 0..numbers.len() {
        if numbers[place] as usize > top {
            return false;
        }
    }
    true
}

/// The axis along which a box is followed by the one that begins at `next`.
fn axis_to(lo: Point, next: Point, step: Point) -> Option<u32> {
    let moved = (
        next.x != lo.x.saturating_add(step.x),
        next.y != lo.y.saturating_add(step.y),
        next.z != lo.z.saturating_add(step.z),
    );
    let same = (next.x == lo.x, next.y == lo.y, next.z == lo.z);
    match (moved, same) {
        ((false, _, _), (_, true, true)) => Some(0),
        ((_, false, _), (true, _, true)) => Some(1),
        ((_, _, false), (true, true, _)) => Some(2),
        _ => None,
    }
}

/// The number of a box's part among those of all boxes.
fn node(cell: &Cell, part: u32) -> u32 {
    cell.begin.wrapping_add(part).wrapping_sub(1)
}

/// Adds an edge for each link of a box and the one that follows it along an axis. False where their planes don't fit.
fn add_links(
    alloc: Global,
    edges: &mut Vec<Edge>,
    axis: u32,
    own: &Cell,
    next: &Cell,
) -> Result<bool, AllocError> {
    if axis >= 3 {
        return Ok(false);
    }
    let low = 2 * axis as usize;
    let (Some(high), Some(low)) = (own.planes.get(low + 1), next.planes.get(low)) else {
        return Ok(false);
    };
    let (high, low) = (high.as_slice(), low.as_slice());
    let (values, others) = (own.parts.values.as_slice(), next.parts.values.as_slice());
    if low.len() != high.len()
        || !are_at_most(high, values.len())
        || !are_at_most(low, others.len())
    {
        return Ok(false);
    }
    for link in links_of(alloc, axis, high, low, values, others)?.as_slice() {
        edges.push(Edge {
            a: node(own, link.own),
            b: node(next, link.other),
        })?;
    }
    Ok(true)
}

/// The edges between the parts of all boxes.
fn edges_of(alloc: Global, cells: &[Cell], step: Point) -> Result<Option<Vec<Edge>>, AllocError> {
    let mut edges = Vec::new(alloc);
    for own in cells {
        for next in cells {
            let Some(axis) = axis_to(own.lo, next.lo, step) else {
                continue;
            };
            if !add_links(alloc, &mut edges, axis, own, next)? {
                return Ok(None);
            }
        }
    }
    Ok(Some(edges))
}

/// The number in the whole volume of a voxel by its number in a box.
fn place_in(size: Point, cell: &Cell, number: u64) -> u64 {
    let own = cell.parts.size;
    let (width, height) = (own.x.max(1), own.y.max(1));
    let x = cell.lo.x.wrapping_add(number % width);
    let y = cell.lo.y.wrapping_add(number / width % height);
    let z = cell.lo.z.wrapping_add(number / width / height);
    let row = size.y.wrapping_mul(z).wrapping_add(y);
    size.x.wrapping_mul(row).wrapping_add(x)
}

/// The first voxel in the whole volume of each part of the boxes.
fn firsts_of(alloc: Global, size: Point, cells: &[Cell]) -> Result<Vec<u64>, AllocError> {
    let mut firsts = Vec::new(alloc);
    for cell in cells {
        for first in cell.parts.firsts.as_slice() {
            firsts.push(place_in(size, cell, u64::from(*first)))?;
        }
    }
    Ok(firsts)
}

/// Gives the voxels of a box the numbers that its parts have.
fn paint(size: Point, cell: &Cell, table: &[u32], whole: &mut [u32]) {
    for (number, part) in cell.parts.local.as_slice().iter().enumerate() {
        let place = place_in(size, cell, number as u64) as usize;
        let own = match part {
            0 => Some(&0),
            part => table.get(node(cell, *part) as usize),
        };
        if let (Some(to), Some(own)) = (whole.get_mut(place), own) {
            *to = *own;
        }
    }
}

/// Whether the boxes have so many parts together.
fn have_total(alloc: Global, cells: &[Cell], parts: usize) -> Result<bool, AllocError> {
    let counts: Vec<u32> = cells.iter().map(parts_of).collect(alloc)?;
    if counts.len() > MOST {
        return Ok(false);
    }
    Ok(total(counts.as_slice()).is_ok_and(|count| count as usize == parts))
}

/// `label_by_boxes SIZE BOX LABEL..`: the part of each voxel in the whole volume, from the parts of boxes of this size.
pub(crate) fn ask_boxes(
    alloc: Global,
    size: Point,
    step: Point,
    labels: &[u64],
) -> Result<Option<Told>, AllocError> {
    if !has_few(size, MOST as u64) || !has_voxels(size, labels.len()) {
        return Ok(None);
    }
    let Some(cells) = cells_of(alloc, labels, size, step)? else {
        return Ok(None);
    };
    let Some(edges) = edges_of(alloc, cells.as_slice(), step)? else {
        return Ok(None);
    };
    let firsts = firsts_of(alloc, size, cells.as_slice())?;
    if firsts.len() > MOST
        || !have_total(alloc, cells.as_slice(), firsts.len())?
        || !are_within(firsts.len() as u32, edges.as_slice())
    {
        return Ok(None);
    }
    let table = number_parts(alloc, &Edges::from_vec(edges), firsts.as_slice())?;
    let mut whole = vec![in alloc; u32::MAX; labels.len()]?;
    for cell in &cells {
        paint(size, cell, table.as_slice(), &mut whole);
    }
    listed(alloc, "numbered", whole.as_slice())
}
