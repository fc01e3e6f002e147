//! The boxes of the tasks of a stage.
ghost use Rattle.std.specs.Prelude.{◌≡◌, ◌≤◌, ◌<◌, true};
ghost use Rattle.ig_space.specs.Geometry.{geometry_fits};
ghost use Rattle.ig_space.specs.Grid.{IsGrid, IsWithin, cell_count, space_of};
ghost use Rattle.ig_record.specs.Stage.{cells, greatest, hull_voxels, most_tasks, task_box, task_count, task_grid, task_size};
ghost use Rattle.ig_record.specs.Sound.{is_sound};
ghost use Rattle.ig_record.specs.SoundFacts.{HasSides};

use crate::hulls::greatest_along;
use crate::{Kind, Stage};
use ig_space::{Box3, Grid, Point};

impl Stage {
    /// Boxes of this size, as a grid over the whole box of the source.
    fn grid_of(&self, step: Point) -> Grid
        requires fits { geometry_fits self.now.source.geometry ≡ true }
        requires sides { HasSides step }
        ensures value { result ≡ record { space = space_of self.now.source.geometry; step = step } }
        ensures grid { IsGrid result }
    {
        Grid {
            space: self.source.geometry.chunks().space,
            step,
        }
    }

    /// How long the box of a task is.
    fn task_size(&self) -> Point
        ensures { result ≡ task_size self.now.kind self.now }
    {
        match self.kind {
            Kind::Xfer | Kind::Downsample | Kind::Faces | Kind::Links => self.shape,
            Kind::Relabel | Kind::Count | Kind::Remove => self.shape,
            Kind::Labels | Kind::Sum => self.source.geometry.size,
        }
    }

    /// The boxes of its tasks, as a grid.
    pub(crate) fn grid(&self) -> Grid
        requires fits { geometry_fits self.now.source.geometry ≡ true }
        requires sides { HasSides self.now.shape }
        ensures value { result ≡ task_grid self.now }
        ensures grid { IsGrid result }
    {
        self.grid_of(self.task_size())
    }

    /// How many boxes of the shape the whole box of the source is cut into, also where these are too many for a sound stage.
    pub fn cell_count(&self) -> u128
        requires fits { geometry_fits self.now.source.geometry ≡ true }
        requires sides { HasSides self.now.shape }
        ensures { result ≡ cell_count (cells self.now) }
    {
        self.grid_of(self.shape).count()
    }

    /// How many voxels the chunks have that meet a box of the shape, at most.
    pub fn greatest_hull(&self) -> u128
        requires fits { geometry_fits self.now.source.geometry ≡ true }
        requires sides { HasSides self.now.shape }
        requires few { cell_count (cells self.now) ≤ most_tasks }
        ensures { result ≡ greatest (hull_voxels self.now) (cell_count (cells self.now)) }
    {
        let (size, shape) = (self.source.geometry.size, self.shape);
        let chunk = self.source.geometry.chunk;
        let x = greatest_along(size.x, shape.x, chunk.x);
        let y = greatest_along(size.y, shape.y, chunk.y);
        let z = greatest_along(size.z, shape.z, chunk.z);
        u128::from(x) * (u128::from(y) * u128::from(z))
    }

    /// How many boxes of the shape the whole box of the source is cut into.
    pub(crate) fn cells(&self) -> u32
        requires { is_sound self.now ≡ true }
        ensures value { result ≡ cell_count (cells self.now) }
        ensures few { result ≤ 1000000 }
    {
        self.cell_count() as u32
    }

    /// How many tasks it has.
    pub fn tasks(&self) -> u32
        requires { is_sound self.now ≡ true }
        ensures value { result ≡ task_count self.now }
        ensures some { 1 ≤ result }
        ensures few { result ≤ 1000000 }
    {
        self.grid().count() as u32
    }

    /// The box of a task.
    pub fn task_box(&self, task: u32) -> Box3
        requires sound { is_sound self.now ≡ true }
        requires below { task < task_count self.now }
        ensures value { result ≡ task_box self.now task }
        ensures within { IsWithin result (space_of self.now.source.geometry) }
    {
        self.grid().cell(u64::from(task))
    }
}
