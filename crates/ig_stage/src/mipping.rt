//! Plans the mips of a scale: which scales they are, the info of their layer with these, and the stage. Nothing is read or put here.
ghost use Rattle.std.specs.Prelude.{◌≡◌, ◌≤◌, Ok, All, length, map, slice_get, Some, string_bytes, true, IfOk, IfErr};
ghost use Rattle.std.specs.Str.{is_utf8};
ghost use Rattle.serde_json.specs.Written.{compact_text};
ghost use Rattle.ig_info.specs.Answer.{Gives};
ghost use Rattle.ig_info.specs.Info.{InfoData};
ghost use Rattle.ig_info.specs.Scale.{scale_fits};
ghost use Rattle.ig_record.specs.Sound.{most_mips};
ghost use Rattle.ig_record.specs.SoundFacts.{HasSides as HasSome, IsSmall};
ghost use Rattle.ig_record.specs.Stage.{before_mips as before_mips_of, times};
ghost use Rattle.ig_record.specs.declared.stage.Kind.TheVariants.{Downsample};
ghost use Rattle.ig_meaning.specs.Plan.{all_added as all_added_of, coarser as coarser_of, info_path, mip_of as mip_of_scale, mips_of as mips_of_scale, mips_planned, place_in, resolution_key, with_mips};
ghost use Rattle.ig_stage.specs.Drafts.{IsDraft};
ghost use Rattle.ig_stage.specs.Errors.{ending_of_make};
ghost use Rattle.ig_stage.specs.Making.{Explains};
ghost use Rattle.ig_stage.specs.Requests.{shown_request, HasLimits, HasSides};
ghost use Rattle.ig_stage.specs.Mips.{AreAsWide, CanDouble};

use crate::planning::{box_size, info_error, info_file, place_of};
use crate::{MakeError, Request};
use ig_info::{Info, InfoError, Scale, with_scale, write_info};
use ig_record::{InfoFile, Kind, Places, Stage, halved};
use ig_space::{List, Path, Point, TryClone};
use std::alloc::{AllocError, Global};

/// Scales of a layer, in order.
type Scales = List<Scale>;

/// The numbers of a resolution, with `_` between them.
fn resolution_text(alloc: Global, resolution: Point) -> Result<String, AllocError>
    ensures { IfOk result (λ text. string_bytes text ≡ resolution_key resolution) }
{
    let Point { x, y, z } = resolution;
    format!(in alloc; "{x}_{y}_{z}")
}

/// The key of a scale with this resolution.
fn key_of(alloc: Global, resolution: Point) -> Result<Path, AllocError>
    requires { CanDouble 0 resolution }
    ensures { IfOk result (λ key. key ≡ resolution_key resolution) }
{
    let text = resolution_text(alloc, resolution)?;
    Ok(Path::new(alloc, text.as_str())?.unwrap())
}

/// Voxels that are twice as long in x and y.
fn coarser(resolution: Point) -> Point
    requires { CanDouble 1 resolution }
    ensures { result ≡ coarser_of resolution }
{
    Point {
        x: 2 * resolution.x,
        y: 2 * resolution.y,
        z: resolution.z,
    }
}

/// The mip of a scale.
fn mip_of(alloc: Global, scale: &Scale) -> Result<Scale, AllocError>
    requires { CanDouble 1 scale.now.resolution }
    ensures { IfOk result (λ mip. mip ≡ mip_of_scale scale.now) }
{
    let resolution = coarser(scale.resolution);
    Ok(Scale {
        key: key_of(alloc, resolution)?,
        resolution,
        geometry: halved(&scale.geometry),
    })
}

/// So many mips of a scale, each of the one before.
fn mips_of(alloc: Global, scale: &Scale, levels: u32) -> Result<Scales, AllocError>
    requires { CanDouble levels scale.now.resolution }
    ensures { IfOk result (λ mips. mips ≡ mips_of_scale levels scale.now) }
{
    let (mut mips, mut rest) = (Scales::new(alloc), levels);
    let mut last = scale.copy()?;
    while rest > 0 {
        last = mip_of(alloc, &last)?;
        mips.push(last.copy()?)?;
        rest -= 1;
    }
    Ok(mips)
}

/// The info with these scales added last.
fn all_added(alloc: Global, info: &Info, scales: &Scales) -> Result<Info, InfoError>
    requires { AreAsWide info.now.scales scales.now }
    ensures { Gives (λ i. i) result (all_added_of info.now scales.now) }
{
    let Ok(mut more) = info.copy() else {
        return Err(InfoError::Memory);
    };
    for scale in scales.as_slice() {
        more = with_scale(alloc, &more, scale)?;
    }
    Ok(more)
}

/// The info of the layer with these mips of a scale.
fn mips_info(
    alloc: Global,
    request: &Request,
    info: &Info,
    _scale: &Scale,
    mips: &Scales,
) -> Result<InfoFile, MakeError>
    requires source { length request.now.source ≤ 100 }
    requires width { AreAsWide info.now.scales mips.now }
    ensures info { IfOk result (λ file. (more : InfoData) × (all_added_of info.now mips.now ≡ Ok more) × (file ≡ record { path = info_path request.now.source; text = compact_text more.members })) }
    ensures text { IfOk result (λ file. is_utf8 file.text ≡ true) }
    ensures refused { IfErr result (λ e. Explains (ending_of_make e) (with_mips (shown_request request.now) _scale.now (all_added_of info.now mips.now))) }
{
    let path = info_file(alloc, &request.source)?;
    match all_added(alloc, info, mips) {
        Ok(more) => Ok(InfoFile {
            path,
            text: write_info(alloc, &more)?,
        }),
        Err(cause) => Err(info_error(path, cause)),
    }
}

/// These scales in the layer.
fn places_of(alloc: Global, layer: &Path, scales: &Scales) -> Result<Places, AllocError>
    requires layer { length layer.now ≤ 100 }
    requires fit { All (λ s. scale_fits s ≡ true) scales.now }
    ensures { IfOk result (λ places. places ≡ map (place_in layer.now) scales.now) }
{
    let mut places = Places::new(alloc);
    for scale in scales.as_slice() {
        places.push(place_of(alloc, layer, scale)?)?;
    }
    Ok(places)
}

/// The box of which so many mips make one chunk.
fn before_mips(levels: u32, chunk: Point) -> Point
    requires few { levels ≤ most_mips }
    requires chunk { HasSides chunk }
    ensures value { result ≡ times 1 (before_mips_of levels chunk) }
    ensures some { HasSome result }
    ensures small { IsSmall result }
{
    let side = 1 << levels;
    Point {
        x: side * chunk.x,
        y: side * chunk.y,
        z: chunk.z,
    }
}

/// The stage of the mips of this scale.
fn mips_stage(
    alloc: Global,
    request: &Request,
    info: &Info,
    scale: &Scale,
) -> Result<Stage, MakeError>
    requires limits { HasLimits request.now }
    requires halves { request.now.kind ≡ Downsample }
    requires fits { scale_fits scale.now ≡ true }
    requires found { slice_get info.now.scales request.now.mip ≡ Some scale.now }
    ensures planned { IfOk result (λ stage. with_mips (shown_request request.now) scale.now (all_added_of info.now (mips_of_scale request.now.levels scale.now)) ≡ Ok stage) }
    ensures draft { IfOk result IsDraft }
    ensures refused { IfErr result (λ e. Explains (ending_of_make e) (with_mips (shown_request request.now) scale.now (all_added_of info.now (mips_of_scale request.now.levels scale.now)))) }
{
    let mips = mips_of(alloc, scale, request.levels)?;
    let put = mips_info(alloc, request, info, scale, &mips)?;
    Ok(Stage {
        kind: Kind::Downsample,
        source: place_of(alloc, &request.source, scale)?,
        dests: places_of(alloc, &request.source, &mips)?,
        scratch: None,
        shape: box_size(
            request.shape,
            before_mips(request.levels, scale.geometry.chunk),
        ),
        info: Some(put),
    })
}

/// Plans the mips of this scale of a layer with this info. They are made of its last scale only.
pub(crate) fn plan_mips(
    alloc: Global,
    request: &Request,
    info: &Info,
    scale: &Scale,
) -> Result<Stage, MakeError>
    requires limits { HasLimits request.now }
    requires halves { request.now.kind ≡ Downsample }
    requires fits { scale_fits scale.now ≡ true }
    requires found { slice_get info.now.scales request.now.mip ≡ Some scale.now }
    ensures planned { IfOk result (λ stage. mips_planned (shown_request request.now) info.now scale.now ≡ Ok stage) }
    ensures draft { IfOk result IsDraft }
    ensures refused { IfErr result (λ e. Explains (ending_of_make e) (mips_planned (shown_request request.now) info.now scale.now)) }
{
    let (mip, count) = (request.mip, info.count());
    if mip + 1 != count {
        return Err(MakeError::NoScale { mip, count });
    }
    mips_stage(alloc, request, info, scale)
}
