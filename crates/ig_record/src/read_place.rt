//! Reads the places of a record.
ghost use Rattle.std.specs.Prelude.{◌≡◌, [], codes, option_and_then};
ghost use Rattle.serde_json.specs.Find.{as_array, get};
ghost use Rattle.serde_json.specs.View.{view as data_of, items_view};
ghost use Rattle.ig_record.specs.Answers.{Gives};
ghost use Rattle.ig_record.specs.Reading.{encoding_of, geometry_of, place_of, places_after, width_of};

use crate::error::{bad_record, found};
use crate::members::{number_at, path_at, point_at, three};
use crate::{Places, RecordError};
use ig_space::{Encoding, Geometry, Place, Width};
use serde_json::Value;
use std::alloc::Global;

/// The width of labels of so many bits.
fn width_of(bits: u64) -> Option<Width>
    ensures { result ≡ width_of bits }
{
    match bits {
        8 => Some(Width::W8),
        16 => Some(Width::W16),
        32 => Some(Width::W32),
        64 => Some(Width::W64),
        _ => None,
    }
}

/// How chunks are written, by the sides of the blocks.
fn read_encoding(value: &Value) -> Option<Encoding>
    ensures { result ≡ encoding_of (data_of value.now) }
{
    if value.is_null() {
        return Some(Encoding::Raw);
    }
    let block = three(value)?;
    Some(Encoding::Cseg { block })
}

/// The geometry with these members.
#[tactic(auto, unfolding(crate::specs::Reading::geometry_of))]
fn read_geometry(value: &Value) -> Option<Geometry>
    ensures { result ≡ geometry_of (data_of value.now) }
{
    let encoding = read_encoding(value.get("block")?)?;
    let chunk = point_at(value, "chunk")?;
    let offset = point_at(value, "offset")?;
    let size = point_at(value, "size")?;
    let width = width_of(number_at(value, "width")?)?;
    Some(Geometry {
        offset,
        size,
        chunk,
        width,
        encoding,
    })
}

/// The geometry at the member of that name.
fn geometry_at(value: &Value) -> Option<Geometry>
    ensures { result ≡ option_and_then geometry_of (get (codes "geometry") (data_of value.now)) }
{
    read_geometry(value.get("geometry")?)
}

/// The place with these members.
#[tactic(auto, unfolding(crate::specs::Reading::place_of))]
pub(crate) fn read_place(alloc: Global, value: &Value) -> Result<Place, RecordError>
    ensures { Gives (λ x. x) result (place_of (data_of value.now)) }
{
    let dir = path_at(alloc, value, "dir")?;
    let geometry = found(alloc, geometry_at(value))?;
    Ok(Place { dir, geometry })
}

/// The places with these members.
fn read_places(alloc: Global, values: &[Value]) -> Result<Places, RecordError>
    ensures { Gives (λ x. x) result (places_after [] (items_view values.now)) }
{
    let mut places = Places::new(alloc);
    for value in values {
        let place = read_place(alloc, value)?;
        places.push(place)?;
    }
    Ok(places)
}

/// The places at the member of that name.
pub(crate) fn dests_at(alloc: Global, value: &Value) -> Result<Places, RecordError>
    ensures { Gives (λ x. x) result (option_and_then (places_after []) (option_and_then as_array (get (codes "dests") (data_of value.now)))) }
{
    match value.get("dests").and_then(Value::as_array) {
        Some(list) => read_places(alloc, list.as_slice()),
        None => Err(bad_record(alloc)),
    }
}
