ghost use Rattle.std.specs.Prelude.{◌≡◌, ◌≤◌, codes, true, Err, IfOk};
ghost use Rattle.serde_json.specs.Data.{depth};
ghost use Rattle.serde_json.specs.Read.{max_depth};
ghost use Rattle.serde_json.specs.View.{view as data_of};
ghost use Rattle.ig_info.specs.Answer.{Gives, or_error};
ghost use Rattle.ig_info.specs.Info.{InfoData};
ghost use Rattle.ig_info.specs.Whole.{parsed};
ghost use Rattle.ig_info.specs.Ascending.{ascends};
ghost use Rattle.ig_info.specs.Reading.{info_of, info_in};

use crate::read_scales::read_scales;
use crate::{Info, InfoError};
use serde_json::Value;
use std::alloc::Global;

/// The JSON value of the bytes.
#[tactic(auto, unfolding(crate::specs::Whole::parsed))]
fn parse(alloc: Global, bytes: &[u8]) -> Result<Value, InfoError>
    ensures value { Gives data_of result (or_error InfoError.NotJson (parsed bytes.now)) }
    ensures nests { IfOk result (λ value. depth (data_of value) ≤ max_depth) }
    ensures ordered { IfOk result (λ value. ascends (data_of value) ≡ true) }
{
    match Value::from_slice(alloc, bytes) {
        Ok(value) => Ok(value),
        Err(error) => if error.is_memory() {
            Err(InfoError::Memory)
        } else {
            Err(InfoError::NotJson)
        },
    }
}

/// Reads an info: the scales that it describes, and all other members as they are. A refusal is the first that comes in
/// the order of the members that are looked at.
#[tactic(auto, unfolding(crate::specs::Reading::info_in, crate::specs::Reading::info_of))]
pub fn read_info(alloc: Global, bytes: &[u8]) -> Result<Info, InfoError>
    ensures value { Gives (λ i. i) result (info_in bytes.now) }
{
    let members = parse(alloc, bytes)?;
    let scales = read_scales(alloc, &members)?;
    Ok(Info::of_members(members, scales))
}
