ghost use Rattle.std.specs.Prelude.{◌≡◌, [], ◌∷◌, true, IfOk, OnOk};
ghost use Rattle.serde_json.specs.View.{view as data_of};
ghost use Rattle.ig_info.specs.Answer.{Gives};
ghost use Rattle.ig_info.specs.Dest.{point_data, width_word, raw_members, cseg_members, scale_data, dest_members, dest_data, can_hold, dest_of};
ghost use Rattle.ig_info.specs.Scale.{scale_fits};

use crate::refusal::supported_if;
use crate::{Info, InfoError, Scale};
use ig_space::{Encoding, List, Point, TryClone, Width};
use serde_json::{Value, json};
use std::alloc::{AllocError, Global};

/// The three numbers of a point, as a list.
pub fn point_value(alloc: Global, point: Point) -> Result<Value, AllocError>
    ensures { IfOk result (λ v. data_of v ≡ point_data point) }
{
    json!(in alloc; [point.x, point.y, point.z])
}

/// The members of a scale with raw chunks.
fn raw_value(alloc: Global, scale: &Scale) -> Result<Value, AllocError>
    ensures { IfOk result (λ v. data_of v ≡ raw_members scale.now.key (point_data scale.now.geometry.chunk) (point_data scale.now.resolution) (point_data scale.now.geometry.size) (point_data scale.now.geometry.offset)) }
{
    let chunk = point_value(alloc, scale.geometry.chunk)?;
    let resolution = point_value(alloc, scale.resolution)?;
    let size = point_value(alloc, scale.geometry.size)?;
    let offset = point_value(alloc, scale.geometry.offset)?;
    json!(in alloc; {
        "chunk_sizes": [chunk],
        "encoding": "raw",
        "key": scale.key.as_str(),
        "resolution": resolution,
        "size": size,
        "voxel_offset": offset
    })
}

/// The members of a scale whose chunks are compressed in these blocks.
fn cseg_value(alloc: Global, scale: &Scale, block: Point) -> Result<Value, AllocError>
    ensures { IfOk result (λ v. data_of v ≡ cseg_members scale.now.key (point_data block) (point_data scale.now.geometry.chunk) (point_data scale.now.resolution) (point_data scale.now.geometry.size) (point_data scale.now.geometry.offset)) }
{
    let block = point_value(alloc, block)?;
    let chunk = point_value(alloc, scale.geometry.chunk)?;
    let resolution = point_value(alloc, scale.resolution)?;
    let size = point_value(alloc, scale.geometry.size)?;
    let offset = point_value(alloc, scale.geometry.offset)?;
    json!(in alloc; {
        "chunk_sizes": [chunk],
        "compressed_segmentation_block_size": block,
        "encoding": "compressed_segmentation",
        "key": scale.key.as_str(),
        "resolution": resolution,
        "size": size,
        "voxel_offset": offset
    })
}

/// The members of a scale.
pub(crate) fn scale_value(alloc: Global, scale: &Scale) -> Result<Value, AllocError>
    ensures { IfOk result (λ v. data_of v ≡ scale_data scale.now) }
{
    match scale.geometry.encoding {
        Encoding::Raw => raw_value(alloc, scale),
        Encoding::Cseg { block } => cseg_value(alloc, scale, block),
    }
}

/// The word for labels of this width.
fn word_of(width: Width) -> &'static str
    ensures { result.now ≡ width_word width }
{
    match width {
        Width::W8 => "uint8",
        Width::W16 => "uint16",
        Width::W32 => "uint32",
        Width::W64 => "uint64",
    }
}

/// The members of an info with this one scale.
fn dest_value(alloc: Global, width: Width, scale: Value) -> Result<Value, AllocError>
    ensures { IfOk result (λ v. data_of v ≡ dest_members (width_word width) (data_of scale)) }
{
    json!(in alloc; {
        "@type": "neuroglancer_multiscale_volume",
        "data_type": word_of(width),
        "num_channels": 1u64,
        "scales": [scale],
        "type": "segmentation"
    })
}

/// Whether labels of this width can be written so.
fn can_write(encoding: Encoding, width: Width) -> bool
    ensures { result ≡ can_hold encoding width }
{
    match encoding {
        Encoding::Raw => true,
        Encoding::Cseg { block: _ } => matches!(width, Width::W32 | Width::W64),
    }
}

/// The info with this scale alone.
fn one_scale(alloc: Global, scale: &Scale) -> Result<Info, AllocError>
    requires { scale_fits scale.now ≡ true }
    ensures { IfOk result (λ info. info ≡ record { members = dest_data scale.now; scales = scale.now ∷ [] }) }
{
    let members = dest_value(alloc, scale.geometry.width, scale_value(alloc, scale)?)?;
    let mut scales = List::new(alloc);
    scales.push(scale.copy()?)?;
    Ok(Info::of_members(members, scales))
}

/// The info of a new layer with this scale alone. `Unsupported` names `encoding` where the labels are too narrow for
/// it, and else `chunk_sizes` where the scale does not fit.
#[tactic(auto, unfolding(crate::specs::Dest::dest_of))]
pub fn dest_info(alloc: Global, scale: &Scale) -> Result<Info, InfoError>
    ensures value { Gives (λ i. i) result (dest_of scale.now) }
    ensures fits { OnOk result (scale_fits scale.now ≡ true) }
{
    let geometry = scale.geometry;
    let writes = can_write(geometry.encoding, geometry.width);
    supported_if(alloc, writes, "encoding")?;
    supported_if(alloc, scale.fits(), "chunk_sizes")?;
    match one_scale(alloc, scale) {
        Ok(info) => Ok(info),
        Err(_) => Err(InfoError::Memory),
    }
}
