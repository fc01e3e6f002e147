//! The chunks that meet a box.
ghost use Rattle.std.specs.Prelude.{◌≡◌, ◌≤◌, ◌<◌, IfOk, length, true};
ghost use Rattle.ig_space.specs.Chunk.{chunk_path};
ghost use Rattle.ig_space.specs.Chunks.{chunks_in};
ghost use Rattle.ig_space.specs.Geometry.{geometry_fits};
ghost use Rattle.ig_space.specs.Grid.{IsBox, IsWithin, space_of};

use crate::{Box3, Path, Paths, Place, chunk_name};
use std::alloc::{AllocError, Global};

/// The path of the chunk with this box in the directory.
pub fn chunk_path(alloc: Global, dir: &Path, area: Box3) -> Result<Path, AllocError>
    requires short { length dir.now ≤ 300 }
    requires area { IsBox area }
    ensures { IfOk result (λ path. path ≡ chunk_path dir.now area) }
{
    let name = chunk_name(alloc, area)?;
    Ok(dir.join(&name)?.unwrap())
}

/// The paths of the chunks of the place that meet the box, in grid order.
pub fn chunks_of(alloc: Global, place: &Place, area: Box3) -> Result<Paths, AllocError>
    requires fits { geometry_fits place.now.geometry ≡ true }
    requires within { IsWithin area (space_of place.now.geometry) }
    requires short { length place.now.dir ≤ 300 }
    ensures { IfOk result (λ paths. paths ≡ chunks_in place.now area) }
{
    let hull = place.geometry.chunks().hull(area);
    let mut paths = Paths::new(alloc);
    while (paths.len() as u128) < hull.count() {
        let area = hull.cell(paths.len() as u64);
        paths.push(chunk_path(alloc, &place.dir, area)?)?;
    }
    Ok(paths)
}
