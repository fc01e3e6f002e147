//! The labels of a block.
ghost use Rattle.std.specs.Prelude.{◌≡◌, OnOk, length};
ghost use Rattle.ig_space.specs.Geometry.{count};
ghost use Rattle.ig_cseg.specs.Blocks.{IsClip};
ghost use Rattle.ig_cseg.specs.BlockText.{box_labels};

use crate::blocks::Clip;
use std::alloc::AllocError;

/// Collects the labels of the voxels of the block, x fastest, out of those of the volume.
pub(crate) fn gather(labels: &[u64], clip: &Clip, voxels: &mut Vec<u64>) -> Result<(), AllocError>
    requires clip { IsClip clip.now.volume clip.now.block clip.now.lo clip.now.size }
    requires room { length labels.now ≡ count clip.now.volume }
    ensures { OnOk result (voxels.new.items ≡ box_labels clip.now.volume clip.now.lo clip.now.size labels.now) }
{
    voxels.clear();
    let length = clip.size.x as usize;
    for row in 0..clip.rows() {
        let start = clip.place(row);
        voxels.extend_from_slice(&labels[start..start + length])?;
    }
    Ok(())
}
