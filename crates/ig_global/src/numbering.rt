ghost use Rattle.std.specs.Prelude.{ℕ, ◌≡◌, ◌<◌, ◌≤◌, ◌+◌, ◌^◌, IfOk, OnOk, length, slice_index, nat_lt, count_by, vec_len};
ghost use Rattle.std.specs.List.Sorted.{IsNonDecreasing};
ghost use Rattle.ig_global.specs.Numbers.{AreBelow, AreDone, AreNumbers, HaveLeast, HaveTallies, number_by};

use crate::Table;
use ig_space::Classes;
use std::alloc::{AllocError, Global};

/// The number of each node's class, counted from 1: one more than there are classes whose least first value is below its own.
/// `classes` has each node's class, by a node that stands for it, and `firsts` each node's first value.
pub fn number(alloc: Global, classes: &Classes, firsts: &[u64]) -> Result<Table, AllocError>
    requires firsts { length firsts.now ≡ length classes.now }
    requires classes { AreBelow classes.now }
    requires few { length classes.now ≤ 2 ^ 24 }
    ensures { IfOk result (AreNumbers classes.now firsts.now) }
{
    let numbers = number_all(alloc, classes.as_slice(), firsts)?;
    Ok(Table::from_vec(numbers))
}

/// The same for a slice of classes.
fn number_all(alloc: Global, classes: &[u32], firsts: &[u64]) -> Result<Vec<u32>, AllocError>
    requires firsts { length firsts.now ≡ length classes.now }
    requires classes { AreBelow classes.now }
    requires few { length classes.now ≤ 2 ^ 24 }
    ensures { IfOk result (λ numbers. AreNumbers classes.now firsts.now numbers.items) }
{
    let least = least_firsts(alloc, classes, firsts)?;
    let ascending = ascending_firsts(alloc, classes, least.as_slice())?;
    let mut numbers = Vec::with_capacity(alloc, classes.len())?;
    for place in 0..classes.len() {
        let number = number_at(
            classes,
            least.as_slice(),
            ascending.as_slice(),
            numbers.as_slice(),
            place,
        );
        numbers.push(number)?;
    }
    Ok(numbers)
}

/// For each number the least first value of the nodes of this class, or the greatest number of 64 bits where there is none.
fn least_firsts(alloc: Global, classes: &[u32], firsts: &[u64]) -> Result<Vec<u64>, AllocError>
    requires firsts { length firsts.now ≡ length classes.now }
    requires classes { AreBelow classes.now }
    ensures { IfOk result (λ least. HaveLeast classes.now firsts.now (length classes.now) least.items) }
{
    let mut least = vec![in alloc; u64::MAX; classes.len()]?;
    for place in 0..classes.len() {
        let class = classes[place] as usize;
        if firsts[place] < least[class] {
            least[class] = firsts[place];
        }
    }
    Ok(least)
}

/// The least first values of the classes that stand for themselves, ascending.
fn ascending_firsts(alloc: Global, classes: &[u32], least: &[u64]) -> Result<Vec<u64>, AllocError>
    requires length { length least.now ≡ length classes.now }
    ensures sorted { IfOk result (λ ascending. IsNonDecreasing ascending.items) }
    ensures tallies { IfOk result (λ ascending. HaveTallies classes.now least.now (length classes.now) ascending.items) }
{
    let mut ascending = Vec::new(alloc);
    for place in 0..classes.len() {
        add_first(&mut ascending, classes, least, place)?;
    }
    ascending.sort_unstable();
    Ok(ascending)
}

/// Adds the least first value of the node's class, where it stands for that.
fn add_first(
    ascending: &mut Vec<u64>,
    classes: &[u32],
    least: &[u64],
    place: usize,
) -> Result<(), AllocError>
    requires below { place < length classes.now }
    requires length { length least.now ≡ length classes.now }
    requires tallies { HaveTallies classes.now least.now place ascending.old.items }
    ensures { OnOk result (HaveTallies classes.now least.now (place + 1) ascending.new.items) }
{
    if classes[place] as usize != place {
        return Ok(());
    }
    ascending.push(least[place])?;
    Ok(())
}

/// The number of the node's class, where the nodes before it have theirs.
fn number_at(
    classes: &[u32],
    least: &[u64],
    ascending: &[u64],
    numbers: &[u32],
    place: usize,
) -> u32
    requires below { place < length classes.now }
    requires classes { AreBelow classes.now }
    requires few { length classes.now ≤ 2 ^ 24 }
    requires least { length least.now ≡ length classes.now }
    requires sorted { IsNonDecreasing ascending.now }
    requires tallies { HaveTallies classes.now least.now (length classes.now) ascending.now }
    requires length { length numbers.now ≡ place }
    requires done { AreDone classes.now least.now place numbers.now }
    ensures { result ≡ number_by classes.now least.now place }
{
    let class = classes[place] as usize;
    if class < place && classes[class] as usize == class {
        return numbers[class];
    }
    count_below(ascending, least[class]) as u32 + 1
}

/// How many of the ascending numbers are below the bound.
fn count_below(ascending: &[u64], bound: u64) -> usize
    requires { IsNonDecreasing ascending.now }
    ensures { result ≡ count_by (λ x. nat_lt x bound) ascending.now }
{
    ascending.partition_point(|first| *first < bound)
}
