ghost use Rattle.std.specs.Prelude.{ℕ, ◌≡◌, ◌<◌, ◌≤◌, ◌^◌, IfOk, length, fold};
ghost use Rattle.ig_graph.specs.Sets.{AreClasses};
ghost use Rattle.ig_global.specs.EdgeGraph.{AreWithin, edge_graph};
ghost use Rattle.ig_global.specs.Numbers.{AreBelow};
ghost use Rattle.ig_global.specs.Unions.{all_united};

use crate::{Edge, Edges};
use ig_graph::DisjointSets;
use ig_space::Classes;
use std::alloc::{AllocError, Global};

/// For each node below `nodes` the least node that a path along edges, taken either way, leads to from it.
pub fn walk(alloc: Global, nodes: u32, edges: &Edges) -> Result<Classes, AllocError>
    requires few { nodes ≤ 2 ^ 24 }
    requires within { AreWithin nodes edges.now }
    ensures classes { IfOk result (AreClasses (edge_graph nodes edges.now)) }
    ensures below { IfOk result AreBelow }
{
    let mut sets = DisjointSets::new(alloc, nodes)?;
    join_all(&mut sets, edges.as_slice());
    Ok(Classes::from_vec(sets.into_classes()))
}

/// Puts the sets of the ends of each edge together.
fn join_all(sets: &mut DisjointSets, edges: &[Edge])
    requires { AreWithin (length sets.old) edges.now }
    ensures { sets.new ≡ all_united sets.old edges.now }
{
    for edge in edges {
        sets.join(edge.a, edge.b);
    }
}
