//! The labels of a box, from what was found of the chunks that meet it.
ghost use Rattle.std.specs.Prelude.{◌≡◌, ◌≤◌, ◌^◌, ℕ, true, length, Some, None, IfOk, OnOk, MatchResult};
ghost use Rattle.ig_space.specs.Chunk.{chunk_path};
ghost use Rattle.ig_space.specs.Chunks.{chunks_in};
ghost use Rattle.ig_space.specs.Geometry.{count, encoding_fits, geometry_fits, is_wide, padded_to};
ghost use Rattle.ig_space.specs.Grid.{IsWithin, Meets, size_of, space_of};
ghost use Rattle.ig_space.specs.Raw.{AllFit};
ghost use Rattle.ig_space.specs.Volume.{IsInside, voxel};
ghost use Rattle.ig_cseg.specs.Cseg.{label_at};
ghost use Rattle.ig_space.specs.declared.geometry.Encoding.TheVariants.{Raw, Cseg};
ghost use Rattle.ig_layer.specs.Faults.{Absent, Damaged, cause_in, fault_in, first_fault};
ghost use Rattle.ig_layer.specs.Layer.{Reading, volume_at};
ghost use Rattle.ig_layer.specs.Texts.{labels_in};
ghost use Rattle.ig_cutout.specs.Inputs.{HoldsAll, IsFaultOf, Says, Tells, cause_of, paths_of};
ghost use Rattle.ig_cutout.specs.Pasted.{IsAdded, IsAssembled, IsPasted};

use crate::area::{common, count, size_of};
use crate::copy::copy_common;
use crate::error::TextError;
use crate::layout::layout_of;
use crate::read::read_planes;
use crate::{Cause, CutError, Input, Inputs};
use ig_cseg::decode;
use ig_space::{Box3, Encoding, Geometry, Path, Place, Point, TryClone, Volume, Width, bytes_each};
use std::alloc::Global;

/// The error that names a file that is missing.
fn missing(path: &Path) -> CutError
    ensures { Says result (Some (Absent path.now)) }
{
    match path.copy() {
        Ok(path) => CutError::Missing { path },
        Err(_) => CutError::Memory,
    }
}

/// The error that names a file that is malformed.
fn malformed(path: &Path, cause: Cause) -> CutError
    ensures { Says result (Some (Damaged path.now (cause_of cause))) }
{
    match path.copy() {
        Ok(path) => CutError::Malformed { path, cause },
        Err(_) => CutError::Memory,
    }
}

/// Puts the labels that a raw text has of the area among those of the area.
fn paste_raw(
    geometry: &Geometry,
    area: Box3,
    chunk: Box3,
    text: &[u8],
    labels: &mut [u64],
) -> Result<(), Cause>
    requires raw { geometry.now.encoding ≡ Raw }
    requires meets { Meets chunk area }
    requires few { count (size_of area) ≤ 2 ^ 24 }
    requires few_in_chunk { count (size_of chunk) ≤ 2 ^ 24 }
    requires length { length labels.old ≡ count (size_of area) }
    ensures cause { MatchResult result (λ _. cause_in geometry.now.encoding geometry.now.width (size_of chunk) text.now ≡ None) (λ cause. cause_in geometry.now.encoding geometry.now.width (size_of chunk) text.now ≡ Some (cause_of cause)) }
    ensures pasted { OnOk result (IsPasted geometry.now.encoding geometry.now.width area chunk text.now labels.old labels.new) }
    ensures fit { AllFit geometry.now.width labels.old → AllFit geometry.now.width labels.new }
{
    let width = geometry.width;
    let want = bytes_each(width) * count(size_of(chunk));
    if text.len() != want {
        return Err(Cause::Length {
            got: text.len() as u64,
            want: want as u64,
        });
    }
    let part = common(chunk, area);
    let source = layout_of(chunk, part);
    let target = layout_of(area, part);
    read_planes(text, width, source, labels, target, size_of(part));
    Ok(())
}

/// The labels of a compressed text of a chunk of this size.
fn unpack(
    alloc: Global,
    text: &[u8],
    block: Point,
    width: Width,
    size: Point,
) -> Result<Volume, TextError>
    requires wide { is_wide width ≡ true }
    requires x { 1 ≤ block.x }
    requires y { 1 ≤ block.y }
    requires z { 1 ≤ block.z }
    requires few { count size ≤ 2 ^ 21 }
    requires padded { count (padded_to size block) ≤ 2 ^ 22 }
    ensures cause { MatchResult result (λ _. cause_in (Cseg block) width size text.now ≡ None) (λ e. Tells e (cause_in (Cseg block) width size text.now)) }
    ensures size { IfOk result (λ v. v.size ≡ size) }
    ensures labels { IfOk result (λ v. (x y z : ℕ) → IsInside size x y z → voxel v x y z ≡ label_at block width size text.now x y z) }
    ensures fit { IfOk result (λ v. AllFit width v.labels) }
{
    let mut volume = Volume::zeros(alloc, size)?;
    if let Err(fault) = decode(text, block, width, &mut volume) {
        return Err(TextError::Malformed(Cause::Cseg(fault)));
    }
    Ok(volume)
}

/// Puts the labels that the text of the chunk has of the area among those of the area.
fn paste_text(
    alloc: Global,
    geometry: &Geometry,
    area: Box3,
    chunk: Box3,
    text: &[u8],
    labels: &mut [u64],
) -> Result<(), TextError>
    requires fits { encoding_fits (size_of chunk) geometry.now.width geometry.now.encoding ≡ true }
    requires meets { Meets chunk area }
    requires few { count (size_of area) ≤ 2 ^ 24 }
    requires few_in_chunk { count (size_of chunk) ≤ 2 ^ 21 }
    requires length { length labels.old ≡ count (size_of area) }
    ensures cause { MatchResult result (λ _. cause_in geometry.now.encoding geometry.now.width (size_of chunk) text.now ≡ None) (λ e. Tells e (cause_in geometry.now.encoding geometry.now.width (size_of chunk) text.now)) }
    ensures pasted { OnOk result (IsPasted geometry.now.encoding geometry.now.width area chunk text.now labels.old labels.new) }
    ensures fit { AllFit geometry.now.width labels.old → AllFit geometry.now.width labels.new }
{
    match geometry.encoding {
        Encoding::Raw => match paste_raw(geometry, area, chunk, text, labels) {
            Ok(()) => Ok(()),
            Err(cause) => Err(TextError::Malformed(cause)),
        },
        Encoding::Cseg { block } => {
            let volume = unpack(alloc, text, block, geometry.width, size_of(chunk))?;
            copy_common(volume.labels(), chunk, labels, area);
            Ok(())
        }
    }
}

/// Puts the labels that what was found of the chunk has of the area among those of the area.
fn paste(
    alloc: Global,
    place: &Place,
    area: Box3,
    chunk: Box3,
    input: &Input,
    labels: &mut [u64],
) -> Result<(), CutError>
    requires fits { encoding_fits (size_of chunk) place.now.geometry.width place.now.geometry.encoding ≡ true }
    requires path { input.now.path ≡ chunk_path place.now.dir chunk }
    requires meets { Meets chunk area }
    requires few { count (size_of area) ≤ 2 ^ 24 }
    requires few_in_chunk { count (size_of chunk) ≤ 2 ^ 21 }
    requires length { length labels.old ≡ count (size_of area) }
    ensures fault { IsFaultOf result (fault_in place.now chunk input.now.found) }
    ensures added { OnOk result (IsAdded place.now.geometry area chunk input.now.found labels.old labels.new) }
    ensures fit { AllFit place.now.geometry.width labels.old → AllFit place.now.geometry.width labels.new }
{
    match &input.found {
        None => Err(missing(&input.path)),
        Some(text) => {
            match paste_text(alloc, &place.geometry, area, chunk, text.as_bytes(), labels) {
                Ok(()) => Ok(()),
                Err(TextError::Malformed(cause)) => Err(malformed(&input.path, cause)),
                Err(TextError::Memory) => Err(CutError::Memory),
            }
        }
    }
}

/// Puts the labels of all inputs, in order, among those of the area.
fn paste_all(
    alloc: Global,
    place: &Place,
    area: Box3,
    inputs: &Inputs,
    labels: &mut [u64],
) -> Result<(), CutError>
    requires fits { geometry_fits place.now.geometry ≡ true }
    requires within { IsWithin area (space_of place.now.geometry) }
    requires few { count (size_of area) ≤ 2 ^ 24 }
    requires paths { paths_of inputs.now ≡ chunks_in place.now area }
    requires length { length labels.old ≡ count (size_of area) }
    requires fit { AllFit place.now.geometry.width labels.old }
    ensures assembled { OnOk result (IsAssembled place.now area inputs.now (length inputs.now) labels.new) }
    ensures fault { (files : Reading) → HoldsAll files inputs.now → IsFaultOf result (first_fault place.now area files) }
{
    let hull = place.geometry.chunks().hull(area);
    for (number, input) in inputs.as_slice().iter().enumerate() {
        let chunk = hull.cell(number as u64);
        if let Err(error) = paste(alloc, place, area, chunk, input, labels) {
            return Err(error);
        }
    }
    Ok(())
}

/// The labels of the box, from what was found of the chunks that meet it, in grid order. The first that is missing or
/// malformed is named.
pub fn assemble(
    alloc: Global,
    place: &Place,
    area: Box3,
    inputs: &Inputs,
) -> Result<Volume, CutError>
    requires fits { geometry_fits place.now.geometry ≡ true }
    requires within { IsWithin area (space_of place.now.geometry) }
    requires short { length place.now.dir ≤ 300 }
    requires few { count (size_of area) ≤ 2 ^ 24 }
    requires paths { paths_of inputs.now ≡ chunks_in place.now area }
    ensures size { IfOk result (λ v. v.size ≡ size_of area) }
    ensures labels { IfOk result (λ v. (files : Reading) → HoldsAll files inputs.now → labels_in (volume_at files place.now) area ≡ Some v.labels) }
    ensures fit { IfOk result (λ v. AllFit place.now.geometry.width v.labels) }
    ensures fault { (files : Reading) → HoldsAll files inputs.now → IsFaultOf result (first_fault place.now area files) }
{
    let mut volume = Volume::zeros(alloc, size_of(area))?;
    match paste_all(alloc, place, area, inputs, volume.labels_mut()) {
        Ok(()) => Ok(volume),
        Err(error) => Err(error),
    }
}
