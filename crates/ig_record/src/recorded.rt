//! Reads a stage from its record.
ghost use Rattle.std.specs.Prelude.{◌≡◌, ◌&&◌, codes, option_and_then, IfOk, IfErr};
ghost use Rattle.std.specs.Str.{bytes_eq};
ghost use Rattle.serde_json.specs.Find.{get};
ghost use Rattle.serde_json.specs.View.{view as data_of};
ghost use Rattle.ig_info.specs.Whole.{parsed};
ghost use Rattle.ig_record.specs.Answers.{Gives, GivesBy, IsGiven, Refuses, record_fault};
ghost use Rattle.ig_record.specs.Reading.{file_of, info_of, kind_of, place_of, record_in, recorded, scratch_of, stage_of, text_of};
ghost use Rattle.ig_record.specs.Record.{IsRecord, record_text};
ghost use Rattle.ig_record.specs.Sound.{is_sound};
ghost use Rattle.ig_record.specs.declared.stage.Stage.{Stage};

use crate::error::{bad_record, found};
use crate::members::{path_at, path_from, point_at, text_at};
use crate::parse::parse;
use crate::read_place::{dests_at, read_place};
use crate::{InfoFile, Kind, RecordError, Stage, write_stage};
use ig_space::{Bytes, Path, Place};
use serde_json::Value;
use std::alloc::{AllocError, Global};

/// The kind that this word stands for.
fn kind_of(word: &str) -> Option<Kind>
    ensures { result ≡ kind_of word.now }
{
    match word {
        "xfer" => Some(Kind::Xfer),
        "downsample" => Some(Kind::Downsample),
        "ccl-faces" => Some(Kind::Faces),
        "ccl-links" => Some(Kind::Links),
        "ccl-labels" => Some(Kind::Labels),
        "ccl-relabel" => Some(Kind::Relabel),
        "voxels-count" => Some(Kind::Count),
        "voxels-sum" => Some(Kind::Sum),
        "rm" => Some(Kind::Remove),
        _ => None,
    }
}

/// The kind at the member of that name.
fn kind_at(value: &Value) -> Option<Kind>
    ensures { result ≡ option_and_then kind_of (text_of (data_of value.now) (codes "kind")) }
{
    kind_of(text_at(value, "kind")?)
}

/// The bytes of the text at the member of that name.
fn bytes_at(alloc: Global, value: &Value) -> Result<Bytes, RecordError>
    ensures { Gives (λ x. x) result (text_of (data_of value.now) (codes "text")) }
{
    match text_at(value, "text") {
        Some(text) => Ok(Bytes::of(alloc, text.as_bytes())?),
        None => Err(bad_record(alloc)),
    }
}

/// The info file with these members.
#[tactic(auto, unfolding(crate::specs::Reading::file_of))]
fn read_file(alloc: Global, value: &Value) -> Result<InfoFile, RecordError>
    ensures { Gives (λ x. x) result (file_of (data_of value.now)) }
{
    let path = path_at(alloc, value, "path")?;
    let text = bytes_at(alloc, value)?;
    Ok(InfoFile { path, text })
}

/// The info file, or none.
fn read_info(alloc: Global, value: &Value) -> Result<Option<InfoFile>, RecordError>
    ensures { Gives (λ x. x) result (info_of (data_of value.now)) }
{
    if value.is_null() {
        return Ok(None);
    }
    Ok(Some(read_file(alloc, value)?))
}

/// The info file at the member of that name, or none.
fn info_at(alloc: Global, value: &Value) -> Result<Option<InfoFile>, RecordError>
    ensures { Gives (λ x. x) result (option_and_then info_of (get (codes "info") (data_of value.now))) }
{
    match value.get("info") {
        Some(info) => read_info(alloc, info),
        None => Err(bad_record(alloc)),
    }
}

/// The directory, or none.
fn read_scratch(alloc: Global, value: &Value) -> Result<Option<Path>, RecordError>
    ensures { Gives (λ x. x) result (scratch_of (data_of value.now)) }
{
    if value.is_null() {
        return Ok(None);
    }
    match value.as_str() {
        Some(text) => Ok(Some(path_from(alloc, text)?)),
        None => Err(bad_record(alloc)),
    }
}

/// The directory at the member of that name, or none.
fn scratch_at(alloc: Global, value: &Value) -> Result<Option<Path>, RecordError>
    ensures { Gives (λ x. x) result (option_and_then scratch_of (get (codes "scratch") (data_of value.now))) }
{
    match value.get("scratch") {
        Some(scratch) => read_scratch(alloc, scratch),
        None => Err(bad_record(alloc)),
    }
}

/// The place at the member of that name.
fn source_at(alloc: Global, value: &Value) -> Result<Place, RecordError>
    ensures { Gives (λ x. x) result (option_and_then place_of (get (codes "source") (data_of value.now))) }
{
    match value.get("source") {
        Some(source) => read_place(alloc, source),
        None => Err(bad_record(alloc)),
    }
}

/// The stage with these members.
#[tactic(auto, unfolding(crate::specs::Reading::stage_of))]
fn read_members(alloc: Global, value: &Value) -> Result<Stage, RecordError>
    ensures { Gives (λ x. x) result (stage_of (data_of value.now)) }
{
    let dests = dests_at(alloc, value)?;
    let info = info_at(alloc, value)?;
    let kind = found(alloc, kind_at(value))?;
    let scratch = scratch_at(alloc, value)?;
    let shape = found(alloc, point_at(value, "shape"))?;
    let source = source_at(alloc, value)?;
    Ok(Stage {
        kind,
        source,
        dests,
        scratch,
        shape,
        info,
    })
}

/// Whether the stage is sound, and its record with this number has these bytes.
fn is_recorded(alloc: Global, number: u32, bytes: &[u8], stage: &Stage) -> Result<bool, AllocError>
    ensures { IfOk result (λ b. b ≡ (is_sound stage.now && bytes_eq bytes.now (record_text number stage.now))) }
{
    if !stage.sound() {
        return Ok(false);
    }
    let text = write_stage(alloc, number, stage)?;
    Ok(bytes == text.as_bytes())
}

/// The stage, where it is sound and its record with this number has these bytes.
fn checked(alloc: Global, number: u32, bytes: &[u8], stage: Stage) -> Result<Stage, RecordError>
    ensures { Gives (λ x. x) result (recorded number bytes.now stage) }
{
    if is_recorded(alloc, number, bytes, &stage)? {
        Ok(stage)
    } else {
        Err(bad_record(alloc))
    }
}

/// The stage whose record with this number has these bytes.
#[tactic(auto, unfolding(crate::specs::Reading::record_in))]
fn read_record(alloc: Global, number: u32, bytes: &[u8]) -> Result<Stage, RecordError>
    ensures { Gives (λ x. x) result (record_in number bytes.now) }
{
    let members = parse(alloc, bytes)?;
    let stage = read_members(alloc, &members)?;
    checked(alloc, number, bytes, stage)
}

/// The stage whose record with this number has these bytes. Each other order, space, extra or missing member is refused.
pub fn read_stage(alloc: Global, number: u32, bytes: &[u8]) -> Result<Stage, RecordError>
    ensures value { GivesBy (record_fault number bytes.now) (λ x. x) result (record_in number bytes.now) }
    ensures ok { IfOk result (λ stage. IsRecord number stage bytes.now) }
    ensures back { (stage : Stage) → IsRecord number stage bytes.now → IsGiven stage result }
    ensures refused { IfErr result (Refuses (record_fault number bytes.now) (λ stage. IsRecord number stage bytes.now)) }
{
    read_record(alloc, number, bytes)
}
