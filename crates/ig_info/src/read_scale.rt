ghost use Rattle.std.specs.Prelude.{◌≡◌, ◌^◌, Ok, codes, length, option_and_then};
ghost use Rattle.serde_json.specs.Find.{get, as_str};
ghost use Rattle.serde_json.specs.View.{view};
ghost use Rattle.ig_info.specs.Answer.{Gives};
ghost use Rattle.ig_info.specs.Scales.{short_path, has_key, key_of, scale_of};

use crate::parts::read_point;
use crate::read_geometry::read_geometry;
use crate::refusal::{found, supported_if};
use crate::scale::{COARSEST, LONGEST_KEY};
use crate::{InfoError, Scale};
use ig_space::{LARGEST_PLACE, List, Path, Width};
use serde_json::Value;
use std::alloc::Global;

/// The text as a path of at most 100 bytes.
fn short_path_of(alloc: Global, text: &str) -> Result<Option<Path>, InfoError>
    ensures { Gives (λ x. x) result (Ok (short_path text.now)) }
{
    if text.len() > LONGEST_KEY {
        return Ok(None);
    }
    match Path::new(alloc, text) {
        Ok(path) => Ok(path),
        Err(_) => Err(InfoError::Memory),
    }
}

/// The key of a scale, where it is a path of at most 100 bytes.
fn key_text(alloc: Global, value: &Value) -> Result<Option<Path>, InfoError>
    ensures { Gives (λ x. x) result (Ok (option_and_then short_path (option_and_then as_str (get (codes "key") (view value.now))))) }
{
    match value.get("key").and_then(Value::as_str) {
        Some(text) => short_path_of(alloc, text),
        None => Ok(None),
    }
}

/// Whether one of these scales has this key.
pub(crate) fn holds_key(scales: &List<Scale>, key: &Path) -> bool
    ensures { result ≡ has_key scales.now key.now }
{
    scales
        .as_slice()
        .iter()
        .any(|scale| scale.key.as_str() == key.as_str())
}

/// The key of the scale that stands after these.
#[tactic(auto, unfolding(crate::specs::Scales::key_of))]
fn read_key(alloc: Global, scales: &List<Scale>, value: &Value) -> Result<Path, InfoError>
    ensures { Gives (λ x. x) result (key_of scales.now (view value.now)) }
{
    let key = found(alloc, key_text(alloc, value)?, scales.len(), "key")?;
    supported_if(alloc, !holds_key(scales, &key), "key")?;
    Ok(key)
}

/// The scale that stands after these.
#[tactic(auto, unfolding(crate::specs::Scales::scale_of))]
pub(crate) fn read_scale(
    alloc: Global,
    value: &Value,
    width: Width,
    scales: &List<Scale>,
) -> Result<Scale, InfoError>
    ensures { Gives (λ x. x) result (scale_of width scales.now (view value.now)) }
{
    let key = read_key(alloc, scales, value)?;
    let scale = scales.len();
    let size = read_point(alloc, value, scale, "size", (1, LARGEST_PLACE))?;
    let resolution = read_point(alloc, value, scale, "resolution", (1, COARSEST))?;
    let geometry = read_geometry(alloc, value, scale, width, size)?;
    Ok(Scale {
        key,
        resolution,
        geometry,
    })
}
