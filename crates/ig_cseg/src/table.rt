//! The table of a block.
ghost use Rattle.std.specs.Prelude.{◌≡◌, ◌≤◌, ◌↔◌, ◌^◌, OnOk, length, ℕ};
ghost use Rattle.std.specs.List.{Contains};
ghost use Rattle.std.specs.List.Sorted.{IsStrictlyIncreasing};
ghost use Rattle.ig_cseg.specs.CsegText.{distinct, fewest_bits, index_in};

use std::alloc::AllocError;

/// Collects the first label of each run of equal ones.
fn collect_runs(labels: &[u64], runs: &mut Vec<u64>) -> Result<(), AllocError>
    ensures { OnOk result ((label : ℕ) → Contains runs.new.items label ↔ Contains labels.now label) }
{
    runs.clear();
    for k in 0..labels.len() {
        if k == 0 || labels[k] != labels[k - 1] {
            runs.push(labels[k])?;
        }
    }
    Ok(())
}

/// Collects the distinct labels, ascending.
pub(crate) fn tabulate(labels: &[u64], table: &mut Vec<u64>) -> Result<(), AllocError>
    ensures { OnOk result (table.new.items ≡ distinct labels.now) }
{
    collect_runs(labels, table)?;
    table.sort_unstable();
    table.dedup();
    Ok(())
}

/// The fewest lawful bits for the indices of a table of this length.
pub(crate) fn fewest_bits(length: usize) -> usize
    ensures { result ≡ fewest_bits length }
{
    match length {
        0..=1 => 0,
        2 => 1,
        3..=4 => 2,
        5..=16 => 4,
        17..=256 => 8,
        257..=65536 => 16,
        _ => 32,
    }
}

/// Where the label stands in the table, which has it.
pub(crate) fn index_of(table: &[u64], label: u64) -> u32
    requires rises { IsStrictlyIncreasing table.now }
    requires has { Contains table.now label }
    requires few { length table.now ≤ 2 ^ 32 }
    ensures { result ≡ index_in table.now label }
{
    match table.binary_search(&label) {
        Ok(index) => index as u32,
        Err(_) => unreachable!(),
    }
}
