ghost use Rattle.std.specs.Prelude.{◌≡◌};
ghost use Rattle.serde_json.specs.View.{view};
ghost use Rattle.ig_info.specs.Answer.{Gives};
ghost use Rattle.ig_info.specs.Scales.{triple_member};
ghost use Rattle.ig_info.specs.Parts.{side, triple, is_whole, whole_at, is_whole_triple};

use crate::InfoError;
use crate::refusal::found;
use ig_space::Point;
use serde_json::Value;
use std::alloc::Global;

/// The number at this place of a list, where it is within these limits.
#[tactic(auto, unfolding(crate::specs::Parts::side))]
fn side_at(value: &Value, place: usize, low: u64, high: u64) -> Option<u64>
    ensures { result ≡ side place low high (view value.now) }
{
    let side = value.get(place)?.as_u64()?;
    if low <= side && side <= high {
        Some(side)
    } else {
        None
    }
}

/// A list of three numbers within these limits, as x, y and z.
#[tactic(auto, unfolding(crate::specs::Parts::triple))]
pub fn point_within(value: &Value, low: u64, high: u64) -> Option<Point>
    ensures { result ≡ triple low high (view value.now) }
{
    let x = side_at(value, 0, low, high)?;
    let y = side_at(value, 1, low, high)?;
    let z = side_at(value, 2, low, high)?;
    if value.get(3usize).is_some() {
        return None;
    }
    Some(Point { x, y, z })
}

/// The three numbers at this member of a scale.
#[tactic(auto, unfolding(crate::specs::Scales::triple_member))]
pub(crate) fn read_point(
    alloc: Global,
    value: &Value,
    scale: usize,
    name: &str,
    limits: (u64, u64),
) -> Result<Point, InfoError>
    ensures { Gives (λ x. x) result (triple_member scale name.now limits.0 limits.1 (view value.now)) }
{
    let (low, high) = limits;
    let point = value
        .get(name)
        .and_then(|list| point_within(list, low, high));
    found(alloc, point, scale, name)
}

/// Whether this is a number and no float.
pub(crate) fn is_whole_number(value: &Value) -> bool
    ensures { result ≡ is_whole (view value.now) }
{
    value.is_number() && !value.is_f64()
}

/// Whether a whole number stands at this place of a list.
fn is_whole_at(value: &Value, place: usize) -> bool
    ensures { result ≡ whole_at place (view value.now) }
{
    match value.get(place) {
        Some(number) => is_whole_number(number),
        None => false,
    }
}

/// Whether this is a list of three whole numbers.
#[tactic(auto, unfolding(crate::specs::Parts::is_whole_triple))]
pub(crate) fn are_three_whole(value: &Value) -> bool
    ensures { result ≡ is_whole_triple (view value.now) }
{
    is_whole_at(value, 0)
        && is_whole_at(value, 1)
        && is_whole_at(value, 2)
        && value.get(3usize).is_none()
}
