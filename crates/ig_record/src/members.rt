//! Reads the members of a record.
ghost use Rattle.std.specs.Prelude.{◌≡◌, option_and_then, option_map};
ghost use Rattle.serde_json.specs.View.{view as data_of};
ghost use Rattle.ig_record.specs.Answers.{Gives};
ghost use Rattle.ig_record.specs.Reading.{as_path, number_of, path_of, point_of, text_of, three_of};

use crate::RecordError;
use crate::error::{bad_record, found};
use ig_info::point_within;
use ig_space::{Path, Point};
use serde_json::Value;
use std::alloc::Global;

/// The text at this member.
pub(crate) fn text_at<'a>(value: &'a Value, name: &str) -> Option<&'a str>
    ensures { option_map (λ t. t.now) result ≡ text_of (data_of value.now) name.now }
{
    value.get(name).and_then(Value::as_str)
}

/// The number at this member.
pub(crate) fn number_at(value: &Value, name: &str) -> Option<u64>
    ensures { result ≡ number_of (data_of value.now) name.now }
{
    value.get(name).and_then(Value::as_u64)
}

/// A list of three numbers, as x, y and z.
pub(crate) fn three(value: &Value) -> Option<Point>
    ensures { result ≡ three_of (data_of value.now) }
{
    point_within(value, 0, u64::MAX)
}

/// The three numbers at this member.
pub(crate) fn point_at(value: &Value, name: &str) -> Option<Point>
    ensures { result ≡ point_of (data_of value.now) name.now }
{
    three(value.get(name)?)
}

/// The text as a path.
pub(crate) fn path_from(alloc: Global, text: &str) -> Result<Path, RecordError>
    ensures { Gives (λ x. x) result (as_path text.now) }
{
    found(alloc, Path::new(alloc, text)?)
}

/// The path at this member.
pub(crate) fn path_at(alloc: Global, value: &Value, name: &str) -> Result<Path, RecordError>
    ensures { Gives (λ x. x) result (path_of (data_of value.now) name.now) }
{
    match text_at(value, name) {
        Some(text) => path_from(alloc, text),
        None => Err(bad_record(alloc)),
    }
}
