//! The decoder.
ghost use Rattle.std.specs.Prelude.{◌≡◌, ◌≤◌, ◌<◌, ◌↔◌, ◌^◌, IsOk, IfErr, OnOk, OnErr, Some, None, true, ℕ};
ghost use Rattle.ig_space.specs.Geometry.{count, is_wide, padded_to};
ghost use Rattle.ig_space.specs.Raw.{AllFit};
ghost use Rattle.ig_space.specs.Volume.{IsInside, voxel};
ghost use Rattle.ig_cseg.specs.Cseg.{fault_of, label_at};

use crate::CsegFault;
use crate::check::find_fault;
use crate::unpack::unpack;
use ig_space::{Point, Volume, Width};

/// Puts the labels of a compressed chunk into the volume, which is as large as the chunk; a file with a fault changes
/// nothing. The sides of a block are in voxels (Neuroglancer compressed_segmentation).
pub fn decode(bytes: &[u8], block: Point, width: Width, out: &mut Volume) -> Result<(), CsegFault>
    requires wide { is_wide width ≡ true }
    requires x { 1 ≤ block.x }
    requires y { 1 ≤ block.y }
    requires z { 1 ≤ block.z }
    requires few { count out.old.size ≤ 2 ^ 21 }
    requires padded { count (padded_to out.old.size block) ≤ 2 ^ 22 }
    ensures ok { IsOk result ↔ (fault_of block width out.old.size bytes.now ≡ None) }
    ensures size { out.new.size ≡ out.old.size }
    ensures labels { OnOk result ((x y z : ℕ) → IsInside out.old.size x y z → voxel out.new x y z ≡ label_at block width out.old.size bytes.now x y z) }
    ensures fit { OnOk result (AllFit width out.new.labels) }
    ensures fault { IfErr result (λ e. fault_of block width out.old.size bytes.now ≡ Some e) }
    ensures unchanged { OnErr result (out.new ≡ out.old) }
{
    let size = out.size();
    if let Some(fault) = find_fault(bytes, block, width, size) {
        return Err(fault);
    }
    unpack(bytes, block, width, size, out.labels_mut());
    Ok(())
}
