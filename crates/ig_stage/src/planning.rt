//! Plans a stage from the info of its source, and judges whether it can be run. Nothing is read or put here.
ghost use Rattle.std.specs.Prelude.{◌≡◌, ◌^◌, ◌≤◌, ◌+◌, ◌<◌, ℕ, Ok, Some, None, length, slice_get, true, codes, option_map, unwrap_or, IfOk, IfErr, IfSome, OnOk};
ghost use Rattle.std.specs.Str.{is_utf8};
ghost use Rattle.ig_space.specs.Path.{is_path, joined};
ghost use Rattle.serde_json.specs.Written.{compact_text};
ghost use Rattle.ig_info.specs.Dest.{dest_of};
ghost use Rattle.ig_info.specs.Reading.{info_in};
ghost use Rattle.ig_info.specs.Scale.{scale_fits};
ghost use Rattle.ig_info.specs.Info.{InfoData};
ghost use Rattle.ig_record.specs.SoundFacts.{HasSides as HasSome, IsSmall};
ghost use Rattle.ig_record.specs.declared.stage.Kind.TheVariants.{Xfer, Count};
ghost use Rattle.ig_record.specs.Sound.{counts_name};
ghost use Rattle.ig_record.specs.Stage.{cells, most_tasks, most_voxels, times};
ghost use Rattle.ig_meaning.specs.Stage.{unfit};
ghost use Rattle.ig_meaning.specs.Plan.{info_path, new_encoding as new_encoding_of, new_scale as new_scale_of, pass_stage, place_in, planned, planned_by, with_dest};
ghost use Rattle.ig_stage.specs.Errors.{ending_of_make};
ghost use Rattle.ig_stage.specs.Making.{info_error_of, Explains, JudgesFit};
ghost use Rattle.ig_stage.specs.Drafts.{CanRun, IsDraft};
ghost use Rattle.ig_meaning.specs.Words.{new_layer as new_layer_of};
ghost use Rattle.ig_stage.specs.declared.error.MakeError.TheVariants as make;
ghost use Rattle.ig_stage.specs.Requests.{shown_coding, shown_request, HasDest, HasLimits, HasSides};

use crate::mipping::plan_mips;
use crate::{Coding, MakeError, Request, Stages};
use ig_info::{Info, InfoError, Scale, dest_info, read_info, write_info};
use ig_record::{InfoFile, Kind, MOST_TASKS, MOST_VOXELS, Places, Stage};
use ig_space::{Bytes, Encoding, Geometry, Path, Place, Point, TryClone};
use std::alloc::{AllocError, Global};

/// The error of an info that is refused.
pub(crate) fn info_error(path: Path, cause: InfoError) -> MakeError
    ensures { result ≡ info_error_of path cause }
{
    match cause {
        InfoError::Memory => MakeError::Memory,
        cause => MakeError::BadInfo { path, cause },
    }
}

/// The file of this name in a directory.
fn file_in(alloc: Global, dir: &Path, name: &str) -> Result<Path, AllocError>
    requires name { is_path name.now ≡ true }
    requires short { length dir.now + length name.now < 400 }
    ensures { IfOk result (λ path. path ≡ joined dir.now name.now) }
{
    let name = Path::new(alloc, name)?.unwrap();
    Ok(dir.join(&name)?.unwrap())
}

/// The info file of a layer.
#[tactic(auto, unfolding(ig_space::specs::Path::is_path))]
pub fn info_file(alloc: Global, layer: &Path) -> Result<Path, AllocError>
    requires { length layer.now ≤ 100 }
    ensures { IfOk result (λ path. path ≡ info_path layer.now) }
{
    file_in(alloc, layer, "info")
}

/// Reads the info of the source.
#[tactic(auto, unfolding(ig_meaning::specs::Plan::planned))]
fn source_info(
    alloc: Global,
    request: &Request,
    _earlier: &Stages,
    bytes: &Bytes,
) -> Result<Info, MakeError>
    requires { length request.now.source ≤ 100 }
    ensures info { IfOk result (λ info. info_in bytes.now ≡ Ok info) }
    ensures refused { IfErr result (λ e. Explains (ending_of_make e) (planned _earlier.now (shown_request request.now) bytes.now)) }
{
    match read_info(alloc, bytes.as_bytes()) {
        Ok(info) => Ok(info),
        Err(cause) => Err(info_error(info_file(alloc, &request.source)?, cause)),
    }
}

/// How the new chunks are written: as is asked for, and else as those of the source. The sides of a block are those that are
/// asked for, and else those of the source; 8 where it has none.
fn new_encoding(asked: Option<Coding>, block: Option<Point>, source: Encoding) -> Encoding
    ensures { result ≡ new_encoding_of (option_map shown_coding asked) block source }
{
    let (own, own_block) = match source {
        Encoding::Raw => (Coding::Raw, Point { x: 8, y: 8, z: 8 }),
        Encoding::Cseg { block } => (Coding::Cseg, block),
    };
    match asked.unwrap_or(own) {
        Coding::Raw => Encoding::Raw,
        Coding::Cseg => Encoding::Cseg {
            block: block.unwrap_or(own_block),
        },
    }
}

/// The scale of the new layer: that of the source, in the chunks that are asked for.
fn new_scale(request: &Request, scale: &Scale) -> Result<Scale, AllocError>
    ensures { IfOk result (λ new. new ≡ new_scale_of (shown_request request.now) scale.now) }
{
    let geometry = Geometry {
        chunk: request.chunk.unwrap_or(scale.geometry.chunk),
        encoding: new_encoding(request.encoding, request.block, scale.geometry.encoding),
        ..scale.geometry
    };
    Ok(Scale {
        key: scale.key.copy()?,
        resolution: scale.resolution,
        geometry,
    })
}

/// The new layer.
fn new_layer(request: &Request) -> &Path
    requires { HasDest request.now }
    ensures value { result.now ≡ new_layer_of (shown_request request.now) }
    ensures short { length result.now ≤ 100 }
{
    request.dest.as_ref().unwrap()
}

/// The info of the new layer, which has this scale alone.
fn new_info(
    alloc: Global,
    request: &Request,
    scale: &Scale,
    new: &Scale,
) -> Result<InfoFile, MakeError>
    requires { HasDest request.now }
    ensures info { IfOk result (λ file. (info : InfoData) × (dest_of new.now ≡ Ok info) × (file ≡ record { path = info_path (new_layer_of (shown_request request.now)); text = compact_text info.members })) }
    ensures text { IfOk result (λ file. is_utf8 file.text ≡ true) }
    ensures fits { OnOk result (scale_fits new.now ≡ true) }
    ensures refused { IfErr result (λ e. Explains (ending_of_make e) (with_dest (shown_request request.now) scale.now new.now (dest_of new.now))) }
{
    let path = info_file(alloc, new_layer(request))?;
    match dest_info(alloc, new) {
        Ok(info) => Ok(InfoFile {
            path,
            text: write_info(alloc, &info)?,
        }),
        Err(cause) => Err(info_error(path, cause)),
    }
}

/// The scale in the layer.
pub(crate) fn place_of(alloc: Global, layer: &Path, scale: &Scale) -> Result<Place, AllocError>
    requires layer { length layer.now ≤ 100 }
    requires fits { scale_fits scale.now ≡ true }
    ensures { IfOk result (λ place. place ≡ place_in layer.now scale.now) }
{
    Ok(Place {
        dir: file_in(alloc, layer, scale.key.as_str())?,
        geometry: scale.geometry,
    })
}

/// Twice a chunk on each axis.
fn twice(chunk: Point) -> Point
    requires { HasSides chunk }
    ensures value { result ≡ times 2 chunk }
    ensures some { HasSome result }
    ensures small { IsSmall result }
{
    Point {
        x: 2 * chunk.x,
        y: 2 * chunk.y,
        z: 2 * chunk.z,
    }
}

/// The size of a task's box: what is asked for, else the usual one.
pub(crate) fn box_size(asked: Option<Point>, usual: Point) -> Point
    requires asked { IfSome asked HasSides }
    requires some { HasSome usual }
    requires small { IsSmall usual }
    ensures value { result ≡ unwrap_or asked usual }
    ensures some { HasSome result }
    ensures small { IsSmall result }
{
    asked.unwrap_or(usual)
}

/// Plans the copy of this scale.
fn plan_copy(alloc: Global, request: &Request, scale: &Scale) -> Result<Stage, MakeError>
    requires limits { HasLimits request.now }
    requires copies { request.now.kind ≡ Xfer }
    requires dest { HasDest request.now }
    requires fits { scale_fits scale.now ≡ true }
    ensures planned { IfOk result (λ stage. with_dest (shown_request request.now) scale.now (new_scale_of (shown_request request.now) scale.now) (dest_of (new_scale_of (shown_request request.now) scale.now)) ≡ Ok stage) }
    ensures draft { IfOk result IsDraft }
    ensures refused { IfErr result (λ e. Explains (ending_of_make e) (with_dest (shown_request request.now) scale.now (new_scale_of (shown_request request.now) scale.now) (dest_of (new_scale_of (shown_request request.now) scale.now)))) }
{
    let new = new_scale(request, scale)?;
    let info = new_info(alloc, request, scale, &new)?;
    let mut dests = Places::new(alloc);
    dests.push(place_of(alloc, new_layer(request), &new)?)?;
    Ok(Stage {
        kind: Kind::Xfer,
        source: place_of(alloc, &request.source, scale)?,
        dests,
        scratch: None,
        shape: box_size(request.shape, twice(new.geometry.chunk)),
        info: Some(info),
    })
}

/// The directory of the passes of a scale, under this name in its layer.
fn scratch_of(alloc: Global, layer: &Path, name: &str, scale: &Scale) -> Result<Path, AllocError>
    requires layer { length layer.now ≤ 100 }
    requires name { is_path name.now ≡ true }
    requires short { length name.now ≤ 6 }
    requires fits { scale_fits scale.now ≡ true }
    ensures { IfOk result (λ path. path ≡ joined (joined layer.now name.now) scale.now.key) }
{
    let dir = file_in(alloc, layer, name)?;
    file_in(alloc, &dir, scale.key.as_str())
}

/// Plans the counts of this scale's voxels.
#[tactic(auto, unfolding(ig_space::specs::Path::is_path))]
fn plan_count(alloc: Global, request: &Request, scale: &Scale) -> Result<Stage, MakeError>
    requires limits { HasLimits request.now }
    requires counts { request.now.kind ≡ Count }
    requires fits { scale_fits scale.now ≡ true }
    ensures planned { IfOk result (λ stage. pass_stage Count counts_name (shown_request request.now) scale.now ≡ stage) }
    ensures draft { IfOk result IsDraft }
    ensures refused { IfErr result (λ e. e ≡ make.Memory) }
{
    Ok(Stage {
        kind: Kind::Count,
        source: place_of(alloc, &request.source, scale)?,
        dests: Places::new(alloc),
        scratch: Some(scratch_of(alloc, &request.source, "voxels", scale)?),
        shape: box_size(request.shape, twice(scale.geometry.chunk)),
        info: None,
    })
}

/// By the kind: plans the stage of this scale of a layer with this info, after these earlier ones.
fn plan_scale(
    alloc: Global,
    request: &Request,
    _earlier: &Stages,
    info: &Info,
    scale: &Scale,
) -> Result<Stage, MakeError>
    requires limits { HasLimits request.now }
    requires fits { scale_fits scale.now ≡ true }
    requires found { slice_get info.now.scales request.now.mip ≡ Some scale.now }
    ensures planned { IfOk result (λ stage. planned_by request.now.kind _earlier.now (shown_request request.now) info.now scale.now ≡ Ok stage) }
    ensures draft { IfOk result IsDraft }
    ensures refused { IfErr result (λ e. Explains (ending_of_make e) (planned_by request.now.kind _earlier.now (shown_request request.now) info.now scale.now)) }
{
    match request.kind {
        Kind::Xfer => plan_copy(alloc, request, scale),
        Kind::Downsample => plan_mips(alloc, request, info, scale),
        Kind::Count => plan_count(alloc, request, scale),
        Kind::Remove => unreachable!(),
        Kind::Faces | Kind::Links | Kind::Labels => unreachable!(),
        Kind::Relabel | Kind::Sum => unreachable!(),
    }
}

/// Plans a stage of a layer with this info file, after these earlier ones.
#[tactic(auto, unfolding(ig_meaning::specs::Plan::planned))]
pub fn plan(
    alloc: Global,
    request: &Request,
    earlier: &Stages,
    bytes: &Bytes,
) -> Result<Stage, MakeError>
    requires { HasLimits request.now }
    ensures planned { IfOk result (λ stage. planned earlier.now (shown_request request.now) bytes.now ≡ Ok stage) }
    ensures draft { IfOk result IsDraft }
    ensures refused { IfErr result (λ e. Explains (ending_of_make e) (planned earlier.now (shown_request request.now) bytes.now)) }
{
    let info = source_info(alloc, request, earlier, bytes)?;
    match info.scale(request.mip) {
        Some(scale) => plan_scale(alloc, request, earlier, &info, scale),
        None => Err(MakeError::NoScale {
            mip: request.mip,
            count: info.count(),
        }),
    }
}

/// Whether the shape, the number of tasks and the greatest task of the stage are lawful, so that it can be run.
pub fn check_fit(stage: &Stage) -> Result<(), MakeError>
    requires { IsDraft stage.now }
    ensures judged { JudgesFit (unfit stage.now) result }
    ensures can_run { OnOk result (CanRun stage.now) }
{
    if let Some(axis) = stage.unfit_axis() {
        return Err(MakeError::ShapeUnfit { axis });
    }
    let count = stage.cell_count();
    if count > MOST_TASKS {
        return Err(MakeError::TooManyTasks { count });
    }
    let voxels = stage.greatest_hull();
    if voxels > MOST_VOXELS {
        return Err(MakeError::TaskTooLarge { voxels });
    }
    Ok(())
}
