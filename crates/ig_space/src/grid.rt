//! The cells of a grid.
ghost use Rattle.std.specs.Prelude.{◌≡◌, ◌≤◌, ◌<◌, ◌+◌, ◌*◌, ℕ};
ghost use Rattle.ig_space.specs.Geometry.{largest_place};
ghost use Rattle.ig_space.specs.Grid.{IsBox, IsGrid, IsIn, IsWithin, Meets, cell, cell_at, cell_count, cell_of, count_along, counts, high_along, hull, index_along, low_along, number_at};

use crate::{Box3, Grid, Point};

/// How many cells a side is cut into.
fn count_along(lo: u64, hi: u64, step: u64) -> u64
    requires step { 1 ≤ step }
    requires order { lo ≤ hi }
    requires small { hi ≤ largest_place }
    ensures value { result ≡ count_along lo hi step }
    ensures small { result ≤ largest_place }
{
    if lo == hi {
        0
    } else {
        (hi - lo - 1) / step + 1
    }
}

/// Where a cell along one axis begins.
fn low_along(lo: u64, step: u64, index: u64) -> u64
    requires { lo + index * step ≤ largest_place }
    ensures { result ≡ low_along lo step index }
{
    lo + index * step
}

/// Where a cell along one axis ends, of which this is the begin.
fn high_along(lo: u64, hi: u64, step: u64, index: u64) -> u64
    requires { lo + index * step ≤ hi }
    ensures { result ≡ high_along lo hi step index }
{
    let low = lo + index * step;
    if step < hi - low { low + step } else { hi }
}

/// Where the cell of a coordinate begins.
fn begin_along(lo: u64, step: u64, x: u64) -> u64
    requires step { 1 ≤ step }
    requires from { lo ≤ x }
    requires small { x ≤ largest_place }
    ensures value { result ≡ low_along lo step (index_along lo step x) }
    ensures from { lo ≤ result }
    ensures below { result ≤ x }
{
    low_along(lo, step, (x - lo) / step)
}

/// Where the cell of a coordinate ends.
fn end_along(lo: u64, hi: u64, step: u64, x: u64) -> u64
    requires step { 1 ≤ step }
    requires from { lo ≤ x }
    requires below { x < hi }
    requires small { hi ≤ largest_place }
    ensures value { result ≡ high_along lo hi step (index_along lo step x) }
    ensures above { x < result }
    ensures within { result ≤ hi }
{
    high_along(lo, hi, step, (x - lo) / step)
}

impl Grid {
    /// How many cells there are along each axis.
    fn counts(&self) -> Point
        requires { IsGrid self.now }
        ensures value { result ≡ counts self.now }
        ensures x { result.x ≤ largest_place }
        ensures y { result.y ≤ largest_place }
        ensures z { result.z ≤ largest_place }
    {
        let (lo, hi, step) = (self.space.lo, self.space.hi, self.step);
        Point {
            x: count_along(lo.x, hi.x, step.x),
            y: count_along(lo.y, hi.y, step.y),
            z: count_along(lo.z, hi.z, step.z),
        }
    }

    /// How many cells there are.
    pub fn count(&self) -> u128
        requires { IsGrid self.now }
        ensures { result ≡ cell_count self.now }
    {
        let counts = self.counts();
        u128::from(counts.x) * (u128::from(counts.y) * u128::from(counts.z))
    }

    /// The cell with this number, x fastest.
    pub fn cell(&self, number: u64) -> Box3
        requires grid { IsGrid self.now }
        requires below { number < cell_count self.now }
        ensures value { result ≡ cell self.now number }
        ensures whole { IsBox result }
        ensures within { IsWithin result self.now.space }
    {
        let counts = self.counts();
        let rows = number / counts.x;
        self.cell_of(Point {
            x: number % counts.x,
            y: rows % counts.y,
            z: rows / counts.y,
        })
    }

    /// The cell with these three numbers.
    fn cell_of(&self, index: Point) -> Box3
        requires grid { IsGrid self.now }
        requires x { index.x < (counts self.now).x }
        requires y { index.y < (counts self.now).y }
        requires z { index.z < (counts self.now).z }
        ensures value { result ≡ cell_of self.now index }
        ensures whole { IsBox result }
    {
        let (lo, hi, step) = (self.space.lo, self.space.hi, self.step);
        Box3 {
            lo: Point {
                x: low_along(lo.x, step.x, index.x),
                y: low_along(lo.y, step.y, index.y),
                z: low_along(lo.z, step.z, index.z),
            },
            hi: Point {
                x: high_along(lo.x, hi.x, step.x, index.x),
                y: high_along(lo.y, hi.y, step.y, index.y),
                z: high_along(lo.z, hi.z, step.z, index.z),
            },
        }
    }

    /// The box of those cells that meet the box.
    fn hull_space(&self, area: Box3) -> Box3
        requires grid { IsGrid self.now }
        requires within { IsWithin area self.now.space }
        ensures { result ≡ (hull self.now area).space }
    {
        let (lo, hi, step) = (self.space.lo, self.space.hi, self.step);
        Box3 {
            lo: Point {
                x: begin_along(lo.x, step.x, area.lo.x),
                y: begin_along(lo.y, step.y, area.lo.y),
                z: begin_along(lo.z, step.z, area.lo.z),
            },
            hi: Point {
                x: end_along(lo.x, hi.x, step.x, area.hi.x - 1),
                y: end_along(lo.y, hi.y, step.y, area.hi.y - 1),
                z: end_along(lo.z, hi.z, step.z, area.hi.z - 1),
            },
        }
    }

    /// The cells of the grid that meet the box, in the grid's order, as a grid of their own.
    pub fn hull(&self, area: Box3) -> Grid
        requires grid { IsGrid self.now }
        requires within { IsWithin area self.now.space }
        ensures value { result ≡ hull self.now area }
        ensures grid { IsGrid result }
        ensures within { IsWithin result.space self.now.space }
        ensures cells { (k : ℕ) → k < cell_count result → (number_at self.now (cell result k).lo.x (cell result k).lo.y (cell result k).lo.z < cell_count self.now) × (cell self.now (number_at self.now (cell result k).lo.x (cell result k).lo.y (cell result k).lo.z) ≡ cell result k) }
        ensures meets { (k : ℕ) → k < cell_count result → Meets (cell result k) area }
        ensures holds { (x y z : ℕ) → IsIn area x y z → (number_at result x y z < cell_count result) × (cell result (number_at result x y z) ≡ cell_at self.now x y z) }
        ensures ascends { (j k : ℕ) → j < k → k < cell_count result → number_at self.now (cell result j).lo.x (cell result j).lo.y (cell result j).lo.z < number_at self.now (cell result k).lo.x (cell result k).lo.y (cell result k).lo.z }
    {
        Grid {
            space: self.hull_space(area),
            step: self.step,
        }
    }
}
