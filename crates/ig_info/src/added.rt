ghost use Rattle.std.specs.Prelude.{◌≡◌, ◌<◌, [], ◌∷◌, ◌++◌, List as list, length, true, false, Ok, codes, IfOk, OnOk, Some, ℕ, unwrap_or};
ghost use Rattle.serde_json.specs.Data.{array, no_items};
ghost use Rattle.serde_json.specs.Find.{as_array};
ghost use Rattle.serde_json.specs.View.{view as data_of, items_view};
ghost use Rattle.ig_info.specs.Answer.{Gives};
ghost use Rattle.ig_info.specs.Added.{HasWidth, with_last, items_at, with_member, members_with, added as added_to};
ghost use Rattle.ig_info.specs.Reading.{IsInfo, info_in};
ghost use Rattle.ig_info.specs.Scale.{scale_fits};
ghost use Rattle.ig_info.specs.Scales.{has_key};
ghost use Rattle.ig_info.specs.Whole.{parsed};

use crate::dest::scale_value;
use crate::read_scale::holds_key;
use crate::read_scales::MOST_SCALES;
use crate::refusal::supported_if;
use crate::{Info, InfoError, Scale};
use ig_space::TryClone;
use serde_json::Value;
use std::alloc::{AllocError, Global};

/// The items of this value, where it is a list.
fn items_of(alloc: Global, value: Value) -> Vec<Value>
    ensures { items_view result.items ≡ unwrap_or (as_array (data_of value)) no_items }
{
    match value {
        Value::Array(items) => items,
        _ => Vec::new(alloc),
    }
}

/// The items of this value, where it is a list, and one more.
#[tactic(auto, using(crate::proofs::Longer::view_longer))]
fn one_more(alloc: Global, value: Value, last: Value) -> Result<Value, AllocError>
    ensures { IfOk result (λ v. data_of v ≡ array (with_last (data_of last) (unwrap_or (as_array (data_of value)) no_items))) }
{
    let mut items = items_of(alloc, value);
    items.push(last)?;
    Ok(Value::Array(items))
}

/// The list of scales among these members, with one more.
fn longer_list(alloc: Global, members: &Value, last: Value) -> Result<Value, AllocError>
    ensures { IfOk result (λ v. data_of v ≡ array (with_last (data_of last) (items_at (codes "scales") (data_of members.now)))) }
{
    let list = match members.get("scales") {
        Some(list) => list.clone()?,
        None => Value::Null,
    };
    one_more(alloc, list, last)
}

/// The members with this list of scales in place of theirs.
fn with_list(alloc: Global, members: Value, list: Value) -> Result<Value, AllocError>
    ensures { IfOk result (λ v. data_of v ≡ with_member (codes "scales") (data_of list) (data_of members)) }
{
    match members {
        Value::Object(mut map) => {
            serde_json::put(&mut map, alloc, "scales", list)?;
            Ok(Value::Object(map))
        }
        other => Ok(other),
    }
}

/// The members with this scale added last.
fn longer_members(alloc: Global, members: &Value, scale: &Scale) -> Result<Value, AllocError>
    ensures { IfOk result (λ v. data_of v ≡ members_with scale.now (data_of members.now)) }
{
    let list = longer_list(alloc, members, scale_value(alloc, scale)?)?;
    with_list(alloc, members.clone()?, list)
}

/// The info with this scale added last.
fn one_scale_more(alloc: Global, info: &Info, scale: &Scale) -> Result<Info, AllocError>
    requires width { HasWidth info.now.scales scale.now.geometry.width }
    requires new { has_key info.now.scales scale.now.key ≡ false }
    requires few { length info.now.scales < 100 }
    requires fits { scale_fits scale.now ≡ true }
    ensures value { IfOk result (λ i. i ≡ record { members = members_with scale.now info.now.members; scales = info.now.scales ++ scale.now ∷ [] }) }
    ensures whole { IfOk result IsInfo }
{
    let members = longer_members(alloc, info.members(), scale)?;
    let mut scales = info.scales().copy()?;
    scales.push(scale.copy()?)?;
    Ok(Info::of_members(members, scales))
}

/// The info with this scale, of the same width as the others, added last. `Unsupported` names `key` where a scale has
/// that key, else `scales` where there are 100 already, and else `chunk_sizes` where the scale does not fit.
#[tactic(auto, unfolding(crate::specs::Added::added))]
pub fn with_scale(alloc: Global, info: &Info, scale: &Scale) -> Result<Info, InfoError>
    requires { HasWidth info.now.scales scale.now.geometry.width }
    ensures value { Gives (λ i. i) result (added_to info.now scale.now) }
    ensures fits { OnOk result (scale_fits scale.now ≡ true) }
    ensures back { IfOk result (λ i. (bytes : list ℕ) → parsed bytes ≡ Some i.members → info_in bytes ≡ Ok i) }
{
    supported_if(alloc, !holds_key(info.scales(), &scale.key), "key")?;
    supported_if(alloc, info.scales().len() < MOST_SCALES, "scales")?;
    supported_if(alloc, scale.fits(), "chunk_sizes")?;
    match one_scale_more(alloc, info, scale) {
        Ok(info) => Ok(info),
        Err(_) => Err(InfoError::Memory),
    }
}
