//! Whether a stage is sound.
ghost use Rattle.std.specs.Prelude.{◌≡◌, ◌≤◌, ◌*◌, ◌^◌, true, length};
ghost use Rattle.ig_space.specs.Geometry.{geometry_fits};
ghost use Rattle.ig_record.specs.Stage.{before_mips, shape_unit, unfit_axis as unfit_axis_of};
ghost use Rattle.ig_record.specs.Sound.{has_shape, has_tasks, is_lawful, is_side, is_sound, most_mips};
ghost use Rattle.ig_record.specs.SoundFacts.{HasSides};

use crate::lawful::{has_come, has_layers};
use crate::{Kind, Stage};
use ig_space::Point;

/// The most tasks that a stage has.
pub const MOST_TASKS: u128 = 1_000_000;

/// The most voxels that the chunks have that one task reads.
pub const MOST_VOXELS: u128 = 1 << 24;

/// Whether this is the side of a box.
fn is_side(side: u64) -> bool
    ensures { result ≡ is_side side }
{
    side >= 1
}

/// A chunk that so many mips make one of.
fn before_mips(mips: usize, chunk: Point) -> Point
    requires few { mips ≤ most_mips }
    requires x { chunk.x ≤ 2 ^ 40 }
    requires y { chunk.y ≤ 2 ^ 40 }
    ensures { result ≡ before_mips mips chunk }
{
    let side = 1 << mips;
    Point {
        x: side * chunk.x,
        y: side * chunk.y,
        z: chunk.z,
    }
}

/// A shape is a multiple of this.
fn unit(stage: &Stage) -> Point
    requires few { length stage.now.dests ≤ most_mips }
    requires fits { geometry_fits stage.now.source.geometry ≡ true }
    ensures { result ≡ shape_unit stage.now.kind stage.now.source stage.now.dests }
{
    let chunk = stage.source.geometry.chunk;
    match stage.kind {
        Kind::Xfer => match stage.dests.get(0) {
            Some(dest) => dest.geometry.chunk,
            None => chunk,
        },
        Kind::Downsample => before_mips(stage.dests.len(), chunk),
        Kind::Faces | Kind::Links | Kind::Labels | Kind::Relabel => chunk,
        Kind::Count | Kind::Sum | Kind::Remove => chunk,
    }
}

/// The first axis on which the shape is no multiple of the unit.
fn unfit_axis(unit: Point, shape: Point) -> Option<u32>
    requires { HasSides unit }
    ensures { result ≡ unfit_axis_of unit shape }
{
    if shape.x % unit.x != 0 {
        Some(0)
    } else if shape.y % unit.y != 0 {
        Some(1)
    } else if shape.z % unit.z != 0 {
        Some(2)
    } else {
        None
    }
}

/// Whether each side of the shape is at least 1 and a multiple of the unit.
fn has_shape(stage: &Stage) -> bool
    requires few { length stage.now.dests ≤ most_mips }
    requires fits { geometry_fits stage.now.source.geometry ≡ true }
    requires sides { HasSides (shape_unit stage.now.kind stage.now.source stage.now.dests) }
    ensures { result ≡ has_shape stage.now }
{
    let shape = stage.shape;
    let sides = is_side(shape.x) && is_side(shape.y) && is_side(shape.z);
    sides && stage.unfit_axis().is_none()
}

/// Whether there are not many boxes of the shape, and none of them is large.
fn has_tasks(stage: &Stage) -> bool
    requires fits { geometry_fits stage.now.source.geometry ≡ true }
    requires sides { HasSides stage.now.shape }
    ensures { result ≡ has_tasks stage.now }
{
    stage.cell_count() <= MOST_TASKS && stage.greatest_hull() <= MOST_VOXELS
}

/// Whether the members, the shape and the tasks are as the kind says.
fn is_lawful(stage: &Stage) -> bool
    ensures { result ≡ is_lawful stage.now }
{
    stage.source.geometry.fits() && has_layers(stage) && has_shape(stage) && has_tasks(stage)
}

impl Stage {
    /// The first axis, from 0 to 2, on which the shape is no multiple of what its kind asks for.
    pub fn unfit_axis(&self) -> Option<u32>
        requires few { length self.now.dests ≤ most_mips }
        requires fits { geometry_fits self.now.source.geometry ≡ true }
        requires sides { HasSides (shape_unit self.now.kind self.now.source self.now.dests) }
        ensures { result ≡ unfit_axis_of (shape_unit self.now.kind self.now.source self.now.dests) self.now.shape }
    {
        unfit_axis(unit(self), self.shape)
    }

    /// Whether it can be recorded and run.
    #[tactic(auto, unfolding(crate::specs::Sound::is_sound))]
    pub fn sound(&self) -> bool
        ensures { result ≡ is_sound self.now }
    {
        has_come(self.kind) && is_lawful(self)
    }
}
