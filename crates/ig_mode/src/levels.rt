ghost use Rattle.std.specs.Prelude.{◌≡◌, ◌≤◌, ◌-◌, ◌^◌, IfOk, Some, length, slice_get};
ghost use Rattle.ig_mode.specs.HasMips.{HasMip, HaveMips};

use crate::halving::{halve, halved};
use ig_space::{List, Volume};
use std::alloc::{AllocError, Global};

/// Volumes, each with a size of its own.
pub type Volumes = List<Volume>;

/// The mip of this volume.
fn mip_of(alloc: Global, from: &Volume) -> Result<Volume, AllocError>
    ensures { IfOk result (HasMip 1 from.now) }
{
    let mut out = Volume::zeros(alloc, halved(from.size()))?;
    halve(from, &mut out);
    Ok(out)
}

/// The last of the volumes.
fn last(volumes: &Volumes) -> &Volume
    requires { 1 ≤ length volumes.now }
    ensures { slice_get volumes.now (length volumes.now - 1) ≡ Some result.now }
{
    &volumes.as_slice()[volumes.len() - 1]
}

/// The first, the second and further mips of this volume, so many of them. Each is made of the one before it, and is the mip
/// taken so often of the whole.
pub fn mips(alloc: Global, from: &Volume, levels: u32) -> Result<Volumes, AllocError>
    requires some { 1 ≤ levels }
    requires few { levels ≤ 5 }
    ensures levels { IfOk result (λ volumes. length volumes ≡ levels) }
    ensures each { IfOk result (HaveMips from.now) }
{
    let mut volumes = Volumes::new(alloc);
    volumes.push(mip_of(alloc, from)?)?;
    for _level in 1..levels {
        let next = mip_of(alloc, last(&volumes))?;
        volumes.push(next)?;
    }
    Ok(volumes)
}
