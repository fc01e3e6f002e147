//! The text of a stage in the files of a queue.
ghost use Rattle.std.specs.Prelude.{◌≡◌, ◌*◌, ◌<◌, IfOk, IfSome, Some, true};
ghost use Rattle.std.specs.Str.{is_utf8};
ghost use Rattle.serde_json.specs.Data.{array};
ghost use Rattle.serde_json.specs.View.{view as data_of};
ghost use Rattle.ig_space.specs.Geometry.{label_len};
ghost use Rattle.ig_info.specs.Dest.{point_data};
ghost use Rattle.ig_record.specs.Members.{record_of};
ghost use Rattle.ig_record.specs.Record.{block_data, geometry_data, info_data, kind_word, place_data, places_data, record_text, scratch_data};
ghost use Rattle.ig_record.specs.Sound.{is_sound};

use crate::{InfoFile, Kind, Stage};
use ig_info::point_value;
use ig_space::{Bytes, Encoding, Geometry, Path, Place, Width, bytes_each};
use serde_json::{Value, json};
use std::alloc::{AllocError, Global};

/// The sides of the blocks, where chunks are compressed.
fn block_value(alloc: Global, encoding: Encoding) -> Result<Value, AllocError>
    ensures { IfOk result (λ v. data_of v ≡ block_data encoding) }
{
    match encoding {
        Encoding::Raw => Ok(Value::Null),
        Encoding::Cseg { block } => point_value(alloc, block),
    }
}

/// How many bits a label has.
fn bits(width: Width) -> u64
    ensures { result ≡ 8 * label_len width }
{
    8 * bytes_each(width) as u64
}

/// The members of a geometry.
fn geometry_value(alloc: Global, geometry: &Geometry) -> Result<Value, AllocError>
    ensures { IfOk result (λ v. data_of v ≡ geometry_data geometry.now) }
{
    let block = block_value(alloc, geometry.encoding)?;
    let chunk = point_value(alloc, geometry.chunk)?;
    let offset = point_value(alloc, geometry.offset)?;
    let size = point_value(alloc, geometry.size)?;
    json!(in alloc; {
        "block": block,
        "chunk": chunk,
        "offset": offset,
        "size": size,
        "width": bits(geometry.width)
    })
}

/// The members of a place.
fn place_value(alloc: Global, place: &Place) -> Result<Value, AllocError>
    ensures { IfOk result (λ v. data_of v ≡ place_data place.now) }
{
    let geometry = geometry_value(alloc, &place.geometry)?;
    json!(in alloc; { "dir": place.dir.as_str(), "geometry": geometry })
}

/// The list of these places.
fn places_value(alloc: Global, places: &[Place]) -> Result<Value, AllocError>
    ensures { IfOk result (λ v. data_of v ≡ array (places_data places.now)) }
{
    let mut values = Vec::new(alloc);
    for place in places {
        values.push(place_value(alloc, place)?)?;
    }
    Ok(Value::Array(values))
}

/// The text of bytes that are UTF-8.
fn text_of(bytes: &[u8]) -> &str
    requires { is_utf8 bytes.now ≡ true }
    ensures { result.now ≡ bytes.now }
{
    std::str::from_utf8(bytes).unwrap()
}

/// The path and the text of an info file.
fn file_value(alloc: Global, info: &InfoFile) -> Result<Value, AllocError>
    requires { is_utf8 info.now.text ≡ true }
    ensures { IfOk result (λ v. data_of v ≡ info_data (Some info.now)) }
{
    let text = text_of(info.text.as_bytes());
    json!(in alloc; { "path": info.path.as_str(), "text": text })
}

/// The info file, where the stage puts one.
fn info_value(alloc: Global, info: &Option<InfoFile>) -> Result<Value, AllocError>
    requires { IfSome info.now (λ info. is_utf8 info.text ≡ true) }
    ensures { IfOk result (λ v. data_of v ≡ info_data info.now) }
{
    match info {
        None => Ok(Value::Null),
        Some(info) => file_value(alloc, info),
    }
}

/// The directory of its other files, where it has one.
fn scratch_value(alloc: Global, scratch: &Option<Path>) -> Result<Value, AllocError>
    ensures { IfOk result (λ v. data_of v ≡ scratch_data scratch.now) }
{
    match scratch {
        None => Ok(Value::Null),
        Some(dir) => json!(in alloc; dir.as_str()),
    }
}

/// The word for what a stage does.
pub fn kind_word(kind: Kind) -> &'static str
    ensures { result.now ≡ kind_word kind }
{
    match kind {
        Kind::Xfer => "xfer",
        Kind::Downsample => "downsample",
        Kind::Faces => "ccl-faces",
        Kind::Links => "ccl-links",
        Kind::Labels => "ccl-labels",
        Kind::Relabel => "ccl-relabel",
        Kind::Count => "voxels-count",
        Kind::Sum => "voxels-sum",
        Kind::Remove => "rm",
    }
}

/// Those members of a record that have parts.
#[derive(Drop)]
struct Parts {
    dests: Value,
    info: Value,
    scratch: Value,
    shape: Value,
    source: Value,
}

/// Those members of the record of a stage that have parts.
fn parts_of(alloc: Global, stage: &Stage) -> Result<Parts, AllocError>
    requires { is_sound stage.now ≡ true }
    ensures dests { IfOk result (λ p. data_of p.dests ≡ array (places_data stage.now.dests)) }
    ensures info { IfOk result (λ p. data_of p.info ≡ info_data stage.now.info) }
    ensures scratch { IfOk result (λ p. data_of p.scratch ≡ scratch_data stage.now.scratch) }
    ensures shape { IfOk result (λ p. data_of p.shape ≡ point_data stage.now.shape) }
    ensures source { IfOk result (λ p. data_of p.source ≡ place_data stage.now.source) }
{
    Ok(Parts {
        dests: places_value(alloc, stage.dests.as_slice())?,
        info: info_value(alloc, &stage.info)?,
        scratch: scratch_value(alloc, &stage.scratch)?,
        shape: point_value(alloc, stage.shape)?,
        source: place_value(alloc, &stage.source)?,
    })
}

/// The record with these members.
fn record_value(alloc: Global, number: u32, kind: Kind, parts: Parts) -> Result<Value, AllocError>
    ensures { IfOk result (λ v. data_of v ≡ record_of number (kind_word kind) (data_of parts.dests) (data_of parts.info) (data_of parts.scratch) (data_of parts.shape) (data_of parts.source)) }
{
    json!(in alloc; {
        "dests": parts.dests,
        "info": parts.info,
        "kind": kind_word(kind),
        "scratch": parts.scratch,
        "shape": parts.shape,
        "source": parts.source,
        "stage": u64::from(number),
        "version": 1u64
    })
}

/// The record of a stage with this number: compact JSON with the members in the order of their names.
pub fn write_stage(alloc: Global, number: u32, stage: &Stage) -> Result<Bytes, AllocError>
    requires { is_sound stage.now ≡ true }
    ensures { IfOk result (λ bytes. bytes ≡ record_text number stage.now) }
{
    let record = record_value(alloc, number, stage.kind, parts_of(alloc, stage)?)?;
    let text = record.to_string(alloc)?;
    Ok(Bytes::from_vec(text.into_bytes()))
}
