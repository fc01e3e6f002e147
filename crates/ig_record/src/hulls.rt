//! How much of one axis the chunks take that a task meets.
ghost use Rattle.std.specs.Prelude.{◌≡◌, ◌≤◌, ◌<◌, ◌*◌};
ghost use Rattle.ig_space.specs.Geometry.{largest_place};
ghost use Rattle.ig_space.specs.Grid.{count_along};
ghost use Rattle.ig_record.specs.Stage.{greatest};
ghost use Rattle.ig_record.specs.HullSides.{hull_along};

/// How long the chunks are together that meet the task of this number along one axis.
fn hull_along(size: u64, step: u64, chunk: u64, index: u64) -> u64
    requires step { 1 ≤ step }
    requires chunk { 1 ≤ chunk }
    requires small { size ≤ largest_place }
    requires below { index * step < size }
    ensures value { result ≡ hull_along size step chunk index }
    ensures small { result ≤ size }
{
    let low = index * step;
    let last = if step < size - low {
        low + step - 1
    } else {
        size - 1
    };
    let begin = low / chunk * chunk;
    let last_begin = last / chunk * chunk;
    let end = if chunk < size - last_begin {
        last_begin + chunk
    } else {
        size
    };
    end - begin
}

/// How long these chunks are at most, of all tasks along one axis. They are so at the first task, at the first one that meets the last
/// chunk, where the side ends, or at the first one that meets one chunk more than the first task does.
pub(crate) fn greatest_along(size: u64, step: u64, chunk: u64) -> u64
    requires some { 1 ≤ size }
    requires step { 1 ≤ step }
    requires chunk { 1 ≤ chunk }
    requires small { size ≤ largest_place }
    ensures value { result ≡ greatest (hull_along size step chunk) (count_along 0 size step) }
    ensures small { result ≤ largest_place }
{
    let last_chunk = (size - 1) / chunk * chunk;
    let ends = hull_along(size, step, chunk, 0).max(hull_along(
        size,
        step,
        chunk,
        last_chunk / step,
    ));
    let shift = step % chunk;
    if shift > 0 && chunk / shift <= (size - 1) / step {
        ends.max(hull_along(size, step, chunk, chunk / shift))
    } else {
        ends
    }
}
