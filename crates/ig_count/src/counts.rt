ghost use Rattle.std.specs.Prelude.{◌≡◌, [], length, slice_get};
ghost use Rattle.std.specs.Option.{option_copied};
ghost use Rattle.ig_count.specs.Tables.{IsTable};

use ig_space::TryClone;
use std::alloc::{AllocError, Global};
use std::marker::Model;

/// A label and its number of voxels.
#[derive(Clone, Copy, Debug, PartialEq, Eq)]
pub struct LabelCount {
    pub label: u64,
    pub voxels: u64,
}

/// Labels with their numbers of voxels, ascending by label; each label has a voxel. It keeps the allocator that it was made with.
#[derive(Debug, Drop)]
pub struct Counts {
    items: Vec<LabelCount>,
}

impl Model for Counts {
    ghost use Rattle.std.specs.Prelude.{List};
    ghost use Rattle.ig_count.specs.declared.counts.LabelCount.{LabelCount as Item};
    ghost use Rattle.ig_count.specs.Tables.{IsTable};

    ghost Value = { List Item };

    ghost view = { λ counts. counts.items.items };

    ghost invariant = { λ counts. IsTable counts.items.items };
}

impl Counts {
    /// The table of no voxels.
    pub fn new(alloc: Global) -> Self
        ensures { result ≡ [] }
    {
        Counts {
            items: Vec::new(alloc),
        }
    }

    /// These items as a table.
    pub(crate) fn of(items: Vec<LabelCount>) -> Self
        requires { IsTable items.items }
        ensures { result ≡ items.items }
    {
        Counts { items }
    }

    /// How many labels there are.
    pub fn len(&self) -> usize
        ensures { result ≡ length self.now }
    {
        self.items.len()
    }

    /// The label and its voxels at this place, counted from 0.
    pub fn get(&self, place: usize) -> Option<&LabelCount>
        ensures { option_copied result ≡ slice_get self.now place }
    {
        self.items.get(place)
    }

    /// All labels and their voxels.
    pub fn as_slice(&self) -> &[LabelCount]
        ensures items { result.now ≡ self.now }
        ensures table { IsTable self.now }
    {
        self.items.as_slice()
    }

    /// The allocator that it was made with.
    pub(crate) fn allocator(&self) -> Global {
        *self.items.allocator()
    }
}

impl TryClone for Counts {
    fn copy(&self) -> Result<Self, AllocError> {
        Ok(Counts {
            items: self.items.clone()?,
        })
    }
}
