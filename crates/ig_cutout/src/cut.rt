//! The chunks of a box, from its labels.
ghost use Rattle.std.specs.Prelude.{◌≡◌, ◌≤◌, ◌*◌, ◌^◌, ℕ, Option, true, length, map as list_map, Some, IfOk};
ghost use Rattle.std.specs.Option.{option_map};
ghost use Rattle.ig_space.specs.Geometry.{count, encoding_fits, geometry_fits};
ghost use Rattle.ig_space.specs.Grid.{IsBox, IsWithin, chunks_of, hull, size_of, space_of};
ghost use Rattle.ig_space.specs.Raw.{AllFit, raw_text};
ghost use Rattle.ig_layer.specs.Texts.{chunk_file, files_in, labels_in, text_in};
ghost use Rattle.ig_cutout.specs.Gathered.{part_of};
ghost use Rattle.ig_cutout.specs.Outputs.{output_of};

use crate::area::{count, size_of};
use crate::copy::copy_common;
use crate::layout::layout_of;
use crate::write::write_planes;
use crate::{Output, Outputs};
use ig_cseg::encode_fitting;
use ig_space::{Box3, Bytes, Encoding, Geometry, Place, Volume, Width, bytes_each, chunk_path};
use std::alloc::{AllocError, Global};

/// The raw text of a chunk that lies in the area.
fn cut_raw(
    alloc: Global,
    width: Width,
    area: Box3,
    chunk: Box3,
    labels: &[u64],
) -> Result<Bytes, AllocError>
    requires within { IsWithin chunk area }
    requires few { count (size_of area) ≤ 2 ^ 24 }
    requires few_in_chunk { count (size_of chunk) ≤ 2 ^ 24 }
    requires length { length labels.now ≡ count (size_of area) }
    requires fit { AllFit width labels.now }
    ensures { IfOk result (λ text. text ≡ raw_text width (part_of area chunk labels.now)) }
{
    let size = size_of(chunk);
    let mut text = vec![in alloc; 0; bytes_each(width) * count(size)]?;
    write_planes(labels, layout_of(area, chunk), size, width, &mut text);
    Ok(Bytes::from_vec(text))
}

/// The labels of a chunk that lies in the area, in its own order.
fn gather(alloc: Global, area: Box3, chunk: Box3, labels: &[u64]) -> Result<Vec<u64>, AllocError>
    requires within { IsWithin chunk area }
    requires few { count (size_of area) ≤ 2 ^ 24 }
    requires few_in_chunk { count (size_of chunk) ≤ 2 ^ 24 }
    requires length { length labels.now ≡ count (size_of area) }
    ensures { IfOk result (λ own. own.items ≡ part_of area chunk labels.now) }
{
    let mut own = vec![in alloc; 0; count(size_of(chunk))]?;
    copy_common(labels, area, &mut own, chunk);
    Ok(own)
}

/// The text of a chunk that lies in the area.
fn cut_text(
    alloc: Global,
    geometry: &Geometry,
    area: Box3,
    chunk: Box3,
    labels: &[u64],
) -> Result<Bytes, AllocError>
    requires fits { encoding_fits (size_of chunk) geometry.now.width geometry.now.encoding ≡ true }
    requires within { IsWithin chunk area }
    requires few { count (size_of area) ≤ 2 ^ 24 }
    requires few_in_chunk { count (size_of chunk) ≤ 2 ^ 21 }
    requires length { length labels.now ≡ count (size_of area) }
    requires fit { AllFit geometry.now.width labels.now }
    ensures { IfOk result (λ text. text ≡ text_in geometry.now.encoding geometry.now.width (size_of chunk) (part_of area chunk labels.now)) }
{
    let width = geometry.width;
    match geometry.encoding {
        Encoding::Raw => cut_raw(alloc, width, area, chunk, labels),
        Encoding::Cseg { block } => {
            let own = gather(alloc, area, chunk, labels)?;
            encode_fitting(alloc, own.as_slice(), size_of(chunk), block, width)
        }
    }
}

/// A chunk that lies in the area, with its text.
fn cut_chunk(
    alloc: Global,
    place: &Place,
    area: Box3,
    chunk: Box3,
    labels: &[u64],
) -> Result<Output, AllocError>
    requires fits { encoding_fits (size_of chunk) place.now.geometry.width place.now.geometry.encoding ≡ true }
    requires short { length place.now.dir ≤ 300 }
    requires whole { IsBox chunk }
    requires within { IsWithin chunk area }
    requires few { count (size_of area) ≤ 2 ^ 24 }
    requires few_in_chunk { count (size_of chunk) ≤ 2 ^ 21 }
    requires length { length labels.now ≡ count (size_of area) }
    requires fit { AllFit place.now.geometry.width labels.now }
    ensures { IfOk result (λ output. (volume : ℕ → ℕ → ℕ → Option ℕ) → labels_in volume area ≡ Some labels.now → option_map output_of (chunk_file place.now volume chunk) ≡ Some output) }
{
    let path = chunk_path(alloc, &place.dir, chunk)?;
    let text = cut_text(alloc, &place.geometry, area, chunk, labels)?;
    Ok(Output {
        path,
        text: Some(text),
    })
}

/// The chunks of the box, each with its text, in grid order. The box consists of whole chunks, and its labels fit the
/// width.
pub fn cut_chunks(
    alloc: Global,
    place: &Place,
    area: Box3,
    volume: &Volume,
) -> Result<Outputs, AllocError>
    requires fits { geometry_fits place.now.geometry ≡ true }
    requires within { IsWithin area (space_of place.now.geometry) }
    requires short { length place.now.dir ≤ 300 }
    requires aligned { (hull (chunks_of place.now.geometry) area).space ≡ area }
    requires size { volume.now.size ≡ size_of area }
    requires fit { AllFit place.now.geometry.width volume.now.labels }
    ensures { IfOk result (λ outputs. (labels : ℕ → ℕ → ℕ → Option ℕ) → labels_in labels area ≡ Some volume.now.labels → option_map (list_map output_of) (files_in place.now labels area) ≡ Some outputs) }
{
    let hull = place.geometry.chunks().hull(area);
    let labels = volume.labels();
    let mut outputs = Outputs::new(alloc);
    while (outputs.len() as u128) < hull.count() {
        let chunk = hull.cell(outputs.len() as u64);
        outputs.push(cut_chunk(alloc, place, area, chunk, labels)?)?;
    }
    Ok(outputs)
}
