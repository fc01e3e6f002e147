//! The boxes of the tasks that are one above a task's box along an axis.
ghost use Rattle.std.specs.Prelude.{◌≡◌, ◌≤◌, ◌<◌, ◌+◌, ◌++◌, ℕ, true, IfOk, OnOk};
ghost use Rattle.ig_space.specs.Geometry.{count, largest_place};
ghost use Rattle.ig_space.specs.Grid.{count_along, counts, point_at};
ghost use Rattle.ig_space.specs.Volume.{IsInside, place_of};
ghost use Rattle.ig_record.specs.Columns.{above, one_where, upper_neighbours};
ghost use Rattle.ig_record.specs.Sound.{is_sound};
ghost use Rattle.ig_record.specs.Stage.{most_tasks, task_count, task_grid};

use crate::Stage;
use ig_space::{Point, Values};
use std::alloc::{AllocError, Global};

/// How many boxes of this length a side is cut into.
fn count_along(size: u64, step: u64) -> u64
    requires some { 1 ≤ size }
    requires step { 1 ≤ step }
    requires small { size ≤ largest_place }
    ensures { (lo : ℕ) → result ≡ count_along lo (lo + size) step }
{
    (size - 1) / step + 1
}

/// How many tasks there are along each axis.
fn counts(stage: &Stage) -> Point
    requires { is_sound stage.now ≡ true }
    ensures { result ≡ counts (task_grid stage.now) }
{
    let (size, step) = (stage.source.geometry.size, stage.grid().step);
    Point {
        x: count_along(size.x, step.x),
        y: count_along(size.y, step.y),
        z: count_along(size.z, step.z),
    }
}

/// The number of the box with these three numbers.
fn number_of(counts: Point, x: u64, y: u64, z: u64) -> u64
    requires inside { IsInside counts x y z }
    requires few { count counts ≤ most_tasks }
    ensures value { result ≡ place_of counts x y z }
    ensures below { result < count counts }
{
    x + counts.x * (y + counts.y * z)
}

/// Adds a number.
fn push_number(numbers: &mut Values, number: u64) -> Result<(), AllocError>
    ensures { OnOk result (numbers.new ≡ numbers.old ++ one_where true number) }
{
    numbers.push(number)
}

/// The numbers of the boxes one above a box along x, y and z.
fn above(alloc: Global, counts: Point, index: Point) -> Result<Values, AllocError>
    requires inside { IsInside counts index.x index.y index.z }
    requires few { count counts ≤ most_tasks }
    ensures { IfOk result (λ numbers. numbers ≡ above counts index) }
{
    let mut numbers = Values::new(alloc);
    if index.x + 1 < counts.x {
        push_number(
            &mut numbers,
            number_of(counts, index.x + 1, index.y, index.z),
        )?;
    }
    if index.y + 1 < counts.y {
        push_number(
            &mut numbers,
            number_of(counts, index.x, index.y + 1, index.z),
        )?;
    }
    if index.z + 1 < counts.z {
        push_number(
            &mut numbers,
            number_of(counts, index.x, index.y, index.z + 1),
        )?;
    }
    Ok(numbers)
}

/// The numbers of the tasks whose boxes are one above that of a task along x, y and z.
pub(crate) fn upper_neighbours(
    alloc: Global,
    stage: &Stage,
    task: u32,
) -> Result<Values, AllocError>
    requires sound { is_sound stage.now ≡ true }
    requires below { task < task_count stage.now }
    ensures { IfOk result (λ numbers. numbers ≡ upper_neighbours stage.now task) }
{
    let counts = counts(stage);
    let number = u64::from(task);
    let rows = number / counts.x;
    let index = Point {
        x: number % counts.x,
        y: rows % counts.y,
        z: rows / counts.y,
    };
    above(alloc, counts, index)
}
