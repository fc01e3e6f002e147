//! The planes of the faces of a box.
ghost use Rattle.std.specs.Prelude.{ℕ, ◌≡◌, ◌+◌, ◌*◌, ◌<◌, ◌≤◌, ◌^◌, ◌++◌, IfOk, OnOk, length, map, slice_index};
ghost use Rattle.ig_faces.specs.Faces.{faces, grid_plane, x_plane, y_plane, z_plane};
ghost use Rattle.ig_faces.specs.PlanesFile.{IsBox, plane_sizes};
ghost use Rattle.ig_space.specs.Chunks.{listed};
ghost use Rattle.ig_space.specs.Geometry.{count};

use crate::{Plane, Planes};
use ig_space::Point;
use std::alloc::{AllocError, Global};

/// Adds the parts of a row of so many voxels, from a place on, by this step.
fn push_row(
    parts: &mut Vec<u32>,
    local: &[u32],
    from: usize,
    step: usize,
    width: usize,
) -> Result<(), AllocError>
    requires step { step ≤ 2 ^ 24 }
    requires width { width ≤ 2 ^ 24 }
    requires within { (k : ℕ) → k < width → from + k * step < length local.now }
    ensures { OnOk result (parts.new.items ≡ parts.old.items ++ listed (λ k. slice_index local.now (from + k * step)) width) }
{
    for k in 0..width {
        parts.push(local[from + k * step])?;
    }
    Ok(())
}

/// The parts of so many rows of so many voxels, from a place on, by a step within a row and one from row to row.
fn plane(
    alloc: Global,
    local: &[u32],
    from: usize,
    step: usize,
    width: usize,
    leap: usize,
    rows: usize,
) -> Result<Plane, AllocError>
    requires few { length local.now ≤ 2 ^ 24 }
    requires some { 1 ≤ width }
    requires step { step ≤ 2 ^ 24 }
    requires width { width ≤ 2 ^ 24 }
    requires leap { leap ≤ 2 ^ 24 }
    requires rows { rows ≤ 2 ^ 24 }
    requires within { (i j : ℕ) → i < width → j < rows → from + i * step + j * leap < length local.now }
    ensures { IfOk result (λ plane. plane ≡ grid_plane local.now from step width leap rows) }
{
    let mut parts = Vec::with_capacity(alloc, width * rows)?;
    for row in 0..rows {
        push_row(&mut parts, local, from + row * leap, step, width)?;
    }
    Ok(Plane::from_vec(parts))
}

/// The six planes of the faces of a box: x low, x high, y low, y high, z low, z high, of the parts of its voxels, x fastest, then y,
/// then z. Low is the plane of the least coordinate; a plane has its two other axes, the lower one fastest.
pub fn faces_of(alloc: Global, size: Point, local: &[u32]) -> Result<Planes, AllocError>
    requires size { IsBox size }
    requires local { length local.now ≡ count size }
    ensures planes { IfOk result (λ planes. planes ≡ faces size local.now) }
    ensures sizes { IfOk result (λ planes. map length planes ≡ plane_sizes size) }
{
    let mut planes = Planes::new(alloc);
    planes.push(x_plane(alloc, size, local, 0)?)?;
    planes.push(x_plane(alloc, size, local, size.x - 1)?)?;
    planes.push(y_plane(alloc, size, local, 0)?)?;
    planes.push(y_plane(alloc, size, local, size.y - 1)?)?;
    planes.push(z_plane(alloc, size, local, 0)?)?;
    planes.push(z_plane(alloc, size, local, size.z - 1)?)?;
    Ok(planes)
}

/// The plane of the voxels with this x.
fn x_plane(alloc: Global, size: Point, local: &[u32], x: u64) -> Result<Plane, AllocError>
    requires size { IsBox size }
    requires local { length local.now ≡ count size }
    requires inside { x < size.x }
    ensures { IfOk result (λ plane. plane ≡ x_plane size local.now x) }
{
    let row = size.x as usize;
    let side = size.y as usize;
    plane(
        alloc,
        local,
        x as usize,
        row,
        side,
        row * side,
        size.z as usize,
    )
}

/// The plane of the voxels with this y.
fn y_plane(alloc: Global, size: Point, local: &[u32], y: u64) -> Result<Plane, AllocError>
    requires size { IsBox size }
    requires local { length local.now ≡ count size }
    requires inside { y < size.y }
    ensures { IfOk result (λ plane. plane ≡ y_plane size local.now y) }
{
    let row = size.x as usize;
    let layer = row * size.y as usize;
    plane(
        alloc,
        local,
        row * y as usize,
        1,
        row,
        layer,
        size.z as usize,
    )
}

/// The plane of the voxels with this z.
fn z_plane(alloc: Global, size: Point, local: &[u32], z: u64) -> Result<Plane, AllocError>
    requires size { IsBox size }
    requires local { length local.now ≡ count size }
    requires inside { z < size.z }
    ensures { IfOk result (λ plane. plane ≡ z_plane size local.now z) }
{
    let row = size.x as usize;
    let side = size.y as usize;
    plane(alloc, local, row * side * z as usize, 1, row, row, side)
}
