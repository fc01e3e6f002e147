ghost use Rattle.std.specs.Prelude.{◌≡◌, ◌<◌, IfOk, length, vec_len};
ghost use Rattle.ig_graph.specs.Sets.{each_alone, united};
ghost use Rattle.ig_graph.specs.Forest.{AreParents, top, tops};
ghost use Rattle.ig_graph.specs.Kept.{IsSameForest};

use std::alloc::{AllocError, Global};
use std::marker::Model;

/// Sets of the numbers below a size, by a word a number. Contracts see the least member of each number's set.
#[derive(Debug, Drop)]
pub struct DisjointSets {
    parents: Vec<u32>,
}

impl Model for DisjointSets {
    ghost use Rattle.std.specs.Prelude.{ℕ, List};
    ghost use Rattle.ig_graph.specs.Forest.{AreParents, tops};

    ghost Value = { List ℕ };

    ghost view = { λ s. tops s.parents.items };

    ghost invariant = { λ s. AreParents s.parents.items };
}

impl DisjointSets {
    /// Each number below `count` in a set of its own.
    pub fn new(alloc: Global, count: u32) -> Result<Self, AllocError>
        ensures { IfOk result (λ sets. sets ≡ each_alone count) }
    {
        let mut parents = Vec::with_capacity(alloc, count as usize)?;
        for number in 0..count {
            parents.push(number)?;
        }
        Ok(DisjointSets { parents })
    }

    /// Puts the sets of two numbers together.
    pub fn join(&mut self, a: u32, b: u32)
        requires a_below { a < length self.old }
        requires b_below { b < length self.old }
        ensures { self.new ≡ united self.old a b }
    {
        join(self.parents.as_mut_slice(), a, b);
    }

    /// The least member of each number's set.
    pub fn into_classes(self) -> Vec<u32>
        ensures { result.items ≡ self }
    {
        let DisjointSets { mut parents } = self;
        flatten(parents.as_mut_slice());
        parents
    }
}

/// The least member of the number's set. The way to it gets shorter.
fn find(parents: &mut [u32], number: u32) -> u32
    requires parents { AreParents parents.old }
    requires below { number < length parents.old }
    ensures top { result ≡ top parents.old number }
    ensures same { IsSameForest parents.old parents.new }
{
    let mut at = number;
    let mut parent = parents[at as usize];
    while parent != at {
        let next = parents[parent as usize];
        parents[at as usize] = next;
        at = next;
        parent = parents[at as usize];
    }
    at
}

/// Puts the sets of two numbers together: the greater of their least members gets the lesser as its parent.
fn join(parents: &mut [u32], a: u32, b: u32)
    requires parents { AreParents parents.old }
    requires a_below { a < length parents.old }
    requires b_below { b < length parents.old }
    ensures parents { AreParents parents.new }
    ensures united { tops parents.new ≡ united (tops parents.old) a b }
{
    let a = find(parents, a);
    let b = find(parents, b);
    if a < b {
        parents[b as usize] = a;
    } else {
        parents[a as usize] = b;
    }
}

/// Gives each number the least member of its set as its parent.
fn flatten(parents: &mut [u32])
    requires parents { AreParents parents.old }
    ensures { parents.new ≡ tops parents.old }
{
    for number in 0..parents.len() {
        parents[number] = parents[parents[number] as usize];
    }
}
