//! The parts of a box beside a plain flood fill, over boxes of many kinds.
use ig_label::label;
use ig_space::{Point, Volume};
use std::alloc::{AllocError, Global};
use std::process::Abort;
use std::test::Fail;

/// How the labels of a box are made.
#[derive(Clone, Copy)]
enum Kind {
    /// Each of so many labels as likely, 0 among them.
    Random(u64),
    /// One voxel in sixteen.
    Sparse,
    OneLabel,
    Checkerboard,
    /// Rows that are joined at one end, and then at the other.
    Snake,
    /// One ring in another, with a gap between.
    Rings,
}

const KINDS: [Kind; 7] = [
    Kind::Random(2),
    Kind::Random(4),
    Kind::Sparse,
    Kind::OneLabel,
    Kind::Checkerboard,
    Kind::Snake,
    Kind::Rings,
];

/// The next number of a generator.
fn draw(state: &mut u64) -> u64 {
    *state ^= *state << 13;
    *state ^= *state >> 7;
    *state ^= *state << 17;
    *state
}

/// Where a voxel of a snake is: in each second row, or at one end of the rows between.
fn is_snake(x: u64, y: u64, width: u64) -> bool {
    y % 2 == 0 || (y % 4 == 1 && x.saturating_add(1) == width) || (y % 4 == 3 && x == 0)
}

/// How far a voxel is from the edge of its plane.
fn ring(x: u64, y: u64, size: Point) -> u64 {
    let right = size.x.saturating_sub(x).saturating_sub(1);
    let low = size.y.saturating_sub(y).saturating_sub(1);
    x.min(y).min(right).min(low)
}

/// The label of a voxel.
fn made(kind: Kind, size: Point, x: u64, y: u64, z: u64, state: &mut u64) -> u64 {
    let number = draw(state) >> 8;
    match kind {
        Kind::Random(labels) => number.checked_rem(labels).unwrap_or(0),
        Kind::Sparse => u64::from(number % 16 == 0),
        Kind::OneLabel => 9,
        Kind::Checkerboard => (x ^ y ^ z) % 2,
        Kind::Snake => u64::from(is_snake(x, y, size.x)),
        Kind::Rings => u64::from(ring(x, y, size) % 2 == 0),
    }
}

/// The labels of a box.
fn labels_of(alloc: Global, kind: Kind, size: Point) -> Result<Vec<u64>, AllocError> {
    let (mut labels, mut state) = (Vec::new(alloc), 88172645463325252u64);
    for z in 0..size.z {
        for y in 0..size.y {
            for x in 0..size.x {
                labels.push(made(kind, size, x, y, z, &mut state))?;
            }
        }
    }
    Ok(labels)
}

/// Marks a voxel that has the label of the one that leads to it, and notes it as one to go on from.
fn visit(
    labels: &[u64],
    local: &mut [u32],
    waiting: &mut Vec<usize>,
    from: usize,
    to: usize,
) -> Result<(), AllocError> {
    let (Some(old), Some(new)) = (labels.get(from), labels.get(to)) else {
        return Ok(());
    };
    let part = local.get(from).copied().unwrap_or(0);
    if let Some(mark) = local.get_mut(to) {
        if old == new && *mark == 0 {
            *mark = part;
            waiting.push(to)?;
        }
    }
    Ok(())
}

/// Visits the six voxels beside this one, where they are in the box.
fn visit_beside(
    labels: &[u64],
    local: &mut [u32],
    waiting: &mut Vec<usize>,
    size: Point,
    at: usize,
) -> Result<(), AllocError> {
    let (width, height) = (size.x.max(1) as usize, size.y.max(1) as usize);
    let (x, y) = (at % width, at / width % height);
    let plane = width.saturating_mul(height);
    for (is_inside, to) in [
        (x > 0, at.wrapping_sub(1)),
        (x.saturating_add(1) < width, at.wrapping_add(1)),
        (y > 0, at.wrapping_sub(width)),
        (y.saturating_add(1) < height, at.wrapping_add(width)),
        (at >= plane, at.wrapping_sub(plane)),
        (true, at.wrapping_add(plane)),
    ] {
        if is_inside {
            visit(labels, local, waiting, at, to)?;
        }
    }
    Ok(())
}

/// Marks all that is joined with a voxel that is marked.
fn flood(
    alloc: Global,
    labels: &[u64],
    local: &mut [u32],
    size: Point,
    first: usize,
) -> Result<(), AllocError> {
    let mut waiting = Vec::new(alloc);
    waiting.push(first)?;
    for _ in 0..=labels.len() {
        let Some(at) = waiting.pop() else {
            break;
        };
        visit_beside(labels, local, &mut waiting, size, at)?;
    }
    Ok(())
}

/// The parts by a flood from each voxel that has none yet, and the first voxel of each.
fn flooded(alloc: Global, labels: &[u64], size: Point) -> Result<(Vec<u32>, Vec<u32>), AllocError> {
    let mut local = vec![in alloc; 0; labels.len()]?;
    let mut firsts = Vec::new(alloc);
    for (place, value) in labels.iter().enumerate() {
        if *value == 0 || local.get(place).copied().unwrap_or(1) != 0 {
            continue;
        }
        firsts.push((place % (1 << 32)) as u32)?;
        if let Some(mark) = local.get_mut(place) {
            *mark = (firsts.len() % (1 << 32)) as u32;
        }
        flood(alloc, labels, &mut local, size, place)?;
    }
    Ok((local, firsts))
}

/// Asserts that the parts of such a box are those of a flood fill.
fn expect_parts(rt: &impl Abort, alloc: Global, kind: Kind, size: Point) -> Result<(), Fail> {
    let labels = labels_of(alloc, kind, size)?;
    assert!(rt; size.x <= 64 && size.y <= 64 && size.z <= 64);
    let mut volume = Volume::zeros(alloc, size)?;
    let cells = volume.labels_mut();
    assert_eq!(rt; cells.len(), labels.len());
    cells.copy_from_slice(labels.as_slice());
    let found = label(alloc, &volume)?;
    let (local, firsts) = flooded(alloc, labels.as_slice(), size)?;
    assert!(rt; found.local.as_slice() == local.as_slice());
    assert!(rt; found.firsts.as_slice() == firsts.as_slice());
    for (first, value) in firsts.iter().zip(found.values.as_slice()) {
        assert_eq!(rt; labels.get(*first as usize), Some(value));
    }
    Ok(())
}

#[test]
fn parts_are_those_of_a_flood_fill(rt: HostRuntime) -> Result<(), Fail> {
    for kind in KINDS {
        for (x, y, z) in [
            (1, 1, 1),
            (33, 1, 1),
            (1, 33, 1),
            (1, 1, 33),
            (5, 4, 3),
            (2, 31, 7),
            (32, 32, 1),
            (24, 23, 22),
        ] {
            expect_parts(&rt, rt.alloc(), kind, Point { x, y, z })?;
        }
    }
    Ok(())
}
