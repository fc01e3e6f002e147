ghost use Rattle.std.specs.Prelude.{◌≡◌, [], option_map};
ghost use Rattle.serde_json.specs.View.{view, items_view};
ghost use Rattle.ig_info.specs.Answer.{Gives};
ghost use Rattle.ig_info.specs.Scales.{scales_after};
ghost use Rattle.ig_info.specs.Whole.{all_objects, is_scale_list, scales_in, scales_of};

use crate::read_kind::read_head;
use crate::read_scale::read_scale;
use crate::refusal::member_error;
use crate::{InfoError, Scale};
use ig_space::{List, Width};
use serde_json::Value;
use std::alloc::Global;

/// The most scales that an info has.
pub(crate) const MOST_SCALES: usize = 100;

/// Whether each of the values is an object.
fn are_objects(values: &[Value]) -> bool
    ensures { result ≡ all_objects (items_view values.now) }
{
    for value in values {
        if !value.is_object() {
            return false;
        }
    }
    true
}

/// Whether the values are 1 to 100 objects.
#[tactic(auto, using(crate::proofs::Lists::lengths))]
fn are_scales(values: &[Value]) -> bool
    ensures { result ≡ is_scale_list (items_view values.now) }
{
    !values.is_empty() && values.len() <= MOST_SCALES && are_objects(values)
}

/// The list of scales, where it is one.
fn scale_list(value: &Value) -> Option<&Vec<Value>>
    ensures { option_map (λ v. items_view v.now.items) result ≡ scales_in (view value.now) }
{
    match value.get("scales").and_then(Value::as_array) {
        Some(list) => if are_scales(list.as_slice()) {
            Some(list)
        } else {
            None
        },
        None => None,
    }
}

/// The scales of this list.
fn read_each(alloc: Global, values: &[Value], width: Width) -> Result<List<Scale>, InfoError>
    ensures { Gives (λ x. x) result (scales_after width [] (items_view values.now)) }
{
    let mut scales = List::new(alloc);
    for value in values {
        let scale = read_scale(alloc, value, width, &scales)?;
        match scales.push(scale) {
            Ok(()) => {}
            Err(_) => return Err(InfoError::Memory),
        }
    }
    Ok(scales)
}

/// The scales of an info.
#[tactic(auto, unfolding(crate::specs::Whole::scales_of, crate::specs::Whole::items_of_scales))]
pub(crate) fn read_scales(alloc: Global, value: &Value) -> Result<List<Scale>, InfoError>
    ensures { Gives (λ x. x) result (scales_of (view value.now)) }
{
    let width = read_head(alloc, value)?;
    match scale_list(value) {
        Some(list) => read_each(alloc, list.as_slice(), width),
        None => Err(member_error(alloc, "scales")),
    }
}
