ghost use Rattle.std.specs.Prelude.{◌≡◌, ◌≤◌, ◌^◌, IfOk, length};
ghost use Rattle.ig_global.specs.EdgeGraph.{AreWithin};
ghost use Rattle.ig_global.specs.Laws.{ShowParts};

use crate::{Edges, Table, number, walk};
use std::alloc::{AllocError, Global};

/// The part in the whole volume of each part of its boxes, where `edges` has the links of these and `firsts` the first voxel of each.
pub fn number_parts(alloc: Global, edges: &Edges, firsts: &[u64]) -> Result<Table, AllocError>
    requires few { length firsts.now ≤ 2 ^ 24 }
    requires within { AreWithin (length firsts.now) edges.now }
    ensures size { IfOk result (λ numbers. length numbers ≡ length firsts.now) }
    ensures parts { IfOk result (λ numbers. ShowParts firsts.now edges.now numbers) }
{
    let classes = walk(alloc, firsts.len() as u32, edges)?;
    let numbers = number(alloc, &classes, firsts)?;
    Ok(numbers)
}
