//! The laws of tables. Each function has no code: its contract is a law.
ghost use Rattle.std.specs.Prelude.{ℕ, ◌≡◌, ◌≤◌, ◌↔◌, ◌^◌, List, length};
ghost use Rattle.ig_count.specs.CountsFile.{AreFew};
ghost use Rattle.ig_count.specs.Tables.{AreCounts, counts_of, IsListed, IsMerged, IsTable, tally, times};
ghost use Rattle.ig_count.specs.declared.counts.LabelCount.{LabelCount as Item};

/// Voxels have one table of their labels.
pub fn one_table()
    ensures { (labels : List ℕ) (one other : List Item) → AreCounts labels one → AreCounts labels other → one ≡ other }
{}

/// It is the one that is made voxel by voxel.
pub fn counts_of_is_table()
    ensures { (labels : List ℕ) → AreCounts labels (counts_of labels) }
{}

/// Of at most 2^44 voxels no label has too many for a file.
pub fn few_counted()
    ensures { (labels : List ℕ) → length labels ≤ 2 ^ 44 → AreFew (counts_of labels) }
{}

/// It lists exactly the labels that occur.
pub fn lists_labels()
    ensures { (labels : List ℕ) (counts : List Item) → AreCounts labels counts → (label : ℕ) → (IsListed label counts ↔ 1 ≤ times labels label) }
{}

/// Two tables merge to one table.
pub fn one_merged()
    ensures { (old more one other : List Item) → IsMerged old more one → IsMerged old more other → one ≡ other }
{}

/// In a table with at most 2^44 voxels a label, each label has at most so many: so two of them merge.
pub fn few_fit()
    ensures { (counts : List Item) → IsTable counts → AreFew counts → (label : ℕ) → tally counts label ≤ 2 ^ 44 }
{}
