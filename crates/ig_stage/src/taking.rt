//! Looks whether an earlier stage of a queue has one of the directories of a new one.
ghost use Rattle.std.specs.Prelude.{◌≡◌, ◌≢◌, ◌≤◌, ◌^◌, ◌∷◌, List as list, ℕ, IfSome, IsNone, Some, length, codes};
ghost use Rattle.ig_space.specs.Path.{joined};
ghost use Rattle.ig_record.specs.Columns.{output_dirs, removed_dir};
ghost use Rattle.ig_meaning.specs.Taken.{has_info_among, removes_one, share_one, taker_from, takes};

use crate::Stages;
use ig_record::{InfoFile, Stage, removed, writes_in};
use ig_space::Paths;

/// Whether one of these directories is an output directory of the stage.
fn share_one(dirs: &Paths, stage: &Stage) -> bool
    ensures { result ≡ share_one dirs.now (output_dirs stage.now) }
{
    for dir in dirs.as_slice() {
        if writes_in(stage, dir.as_bytes()) {
            return true;
        }
    }
    false
}

/// The layer whose info has this path.
fn layer_of(path: &[u8]) -> Option<&[u8]>
    ensures some { IfSome result (λ layer. path.now ≡ joined layer.now (codes "info")) }
    ensures none { IsNone result → (layer : list ℕ) → path.now ≢ joined layer (codes "info") }
{
    if path.len() < 5 {
        return None;
    }
    let (layer, rest) = path.split_at(path.len() - 5);
    if rest == b"/info".as_slice() {
        Some(layer)
    } else {
        None
    }
}

/// Whether the info is that of a layer which is an output directory of the stage.
fn is_info_among(info: &InfoFile, stage: &Stage) -> bool
    ensures { result ≡ has_info_among (Some info.now) (output_dirs stage.now) }
{
    match layer_of(info.path.as_bytes()) {
        Some(layer) => writes_in(stage, layer),
        None => false,
    }
}

/// The same of the info of a stage, if it has one.
fn has_info_among(stage: &Stage, other: &Stage) -> bool
    ensures { result ≡ has_info_among stage.now.info (output_dirs other.now) }
{
    match &stage.info {
        Some(info) => is_info_among(info, other),
        None => false,
    }
}

/// Whether the earlier stage removes what the new one reads or writes.
fn removes_one(earlier: &Stage, new: &Stage) -> bool
    ensures { result ≡ removes_one (removed_dir earlier.now) (new.now.source.dir ∷ output_dirs new.now) }
{
    match removed(earlier) {
        Some(dir) => *dir == new.source.dir || writes_in(new, dir.as_bytes()),
        None => false,
    }
}

/// Whether the earlier stage has one of the directories of the new one, which writes in these.
fn takes(earlier: &Stage, new: &Stage, dirs: &Paths) -> bool
    requires { dirs.now ≡ output_dirs new.now }
    ensures { result ≡ takes earlier.now new.now }
{
    share_one(dirs, earlier)
        || has_info_among(new, earlier)
        || has_info_among(earlier, new)
        || removes_one(earlier, new)
}

/// The number of the first of these stages that has one of the directories of the new one, which writes in these.
pub fn taker(stages: &Stages, new: &Stage, dirs: &Paths) -> Option<u32>
    requires few { length stages.now ≤ 10 ^ 4 }
    requires dirs { dirs.now ≡ output_dirs new.now }
    ensures { result ≡ taker_from 0 stages.now new.now }
{
    let mut number = 0;
    for stage in stages.as_slice() {
        if takes(stage, new, dirs) {
            return Some(number);
        }
        number += 1;
    }
    None
}
