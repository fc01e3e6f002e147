ghost use Rattle.std.specs.Prelude.{◌≡◌, ◌≤◌, ◌<◌, ◌^◌, IfOk, length, replicate, slice_set};
ghost use Rattle.ig_space.specs.Geometry.{count};
ghost use Rattle.ig_space.specs.Volume.{IsInside, place_of, voxel, with_labels};
ghost use Rattle.std.specs.Borrow.{Lends, Array, sem, u64};
ghost use Rattle.ig_space.specs.contracts.volume.Volume.{the_row};

use crate::{Point, TryClone};
use std::alloc::{AllocError, Global};
use std::marker::Model;

/// A box of labels, x fastest, then y, then z: at most 2^24 voxels.
#[derive(Debug, Drop)]
pub struct Volume {
    size: Point,
    labels: Vec<u64>,
}

impl Model for Volume {
    ghost use Rattle.ig_space.specs.Volume.{Voxels, IsWhole};

    ghost Value = { Voxels };

    ghost view = { λ v. record { size = v.size; labels = v.labels.items } };

    ghost invariant = { λ v. IsWhole v.size v.labels.items };
}

/// How many voxels a box of this size has, where they are few.
fn voxels(size: Point) -> usize
    requires { count size ≤ 2 ^ 24 }
    ensures { result ≡ count size }
{
    if size.x == 0 || size.y == 0 || size.z == 0 {
        return 0;
    }
    (size.x * (size.y * size.z)) as usize
}

impl Volume {
    /// The volume of this size where each label is 0.
    pub fn zeros(alloc: Global, size: Point) -> Result<Self, AllocError>
        requires { count size ≤ 2 ^ 24 }
        ensures size { IfOk result (λ volume. volume.size ≡ size) }
        ensures labels { IfOk result (λ volume. volume.labels ≡ replicate (count size) 0) }
    {
        let labels = vec![in alloc; 0; voxels(size)]?;
        Ok(Volume { size, labels })
    }

    /// How many voxels it has along each axis.
    pub fn size(&self) -> Point
        ensures size { result ≡ self.now.size }
        ensures length { length self.now.labels ≡ count self.now.size }
        ensures bound { count self.now.size ≤ 2 ^ 24 }
    {
        self.size
    }

    /// The labels, x fastest, then y, then z.
    pub fn labels(&self) -> &[u64]
        ensures labels { result.now ≡ self.now.labels }
        ensures length { length self.now.labels ≡ count self.now.size }
        ensures bound { count self.now.size ≤ 2 ^ 24 }
    {
        self.labels.as_slice()
    }

    /// The labels, to be changed.
    pub fn labels_mut(&mut self) -> &mut [u64]
        ensures* writes_back { sem 𝓛 (Lends the_row (Array u64 0) self.entry result (with_labels self.old)) }
        ensures value { result.now ≡ self.old.labels }
    {
        self.labels.as_mut_slice()
    }

    /// The label of the voxel.
    pub fn get(&self, at: Point) -> u64
        requires { IsInside self.now.size at.x at.y at.z }
        ensures { result ≡ voxel self.now at.x at.y at.z }
    {
        self.labels[place(self.size, at)]
    }

    /// Gives the voxel this label.
    pub fn set(&mut self, at: Point, label: u64)
        requires { IsInside self.old.size at.x at.y at.z }
        ensures size { self.new.size ≡ self.old.size }
        ensures labels { self.new.labels ≡ slice_set self.old.labels (place_of self.old.size at.x at.y at.z) label }
    {
        let place = place(self.size, at);
        self.labels[place] = label;
    }
}

/// Where the voxel stands in the list of labels.
fn place(size: Point, at: Point) -> usize
    requires inside { IsInside size at.x at.y at.z }
    requires bound { count size ≤ 2 ^ 24 }
    ensures place { result ≡ place_of size at.x at.y at.z }
    ensures below { result < count size }
{
    (at.x + size.x * (at.y + size.y * at.z)) as usize
}

impl TryClone for Volume {
    fn copy(&self) -> Result<Self, AllocError> {
        Ok(Volume {
            size: self.size,
            labels: self.labels.clone()?,
        })
    }
}
