ghost use Rattle.std.specs.Prelude.{◌≡◌, ◌≤◌, ◌<◌, length, slice_get, true, Ok, IfOk, IfSome};
ghost use Rattle.std.specs.Option.{option_copied};
ghost use Rattle.std.specs.List.{list_all};
ghost use Rattle.serde_json.specs.Written.{compact_text};
ghost use Rattle.ig_info.specs.Scale.{scale_fits};
ghost use Rattle.ig_info.specs.Ascending.{ascends};
ghost use Rattle.ig_info.specs.Reading.{info_in};

use crate::Scale;
use ig_space::{Bytes, List, TryClone};
use serde_json::Value;
use std::alloc::{AllocError, Global};
use std::marker::Model;

/// An info: all members that it was read with, and the scales that they give.
#[derive(Drop)]
pub struct Info {
    members: Value,
    scales: List<Scale>,
}

impl Model for Info {
    ghost use Rattle.serde_json.specs.View.{view as data_of};
    ghost use Rattle.std.specs.Coded.{codes};
    ghost use Rattle.ig_info.specs.DataCode.{data_code};
    ghost use Rattle.ig_info.specs.Info.{InfoData};
    ghost use Rattle.ig_info.specs.Reading.{IsInfo};

    ghost Value = { InfoData };

    ghost coded = { Prim.hlevel (codes, data_code) };

    ghost view = { λ i. record { members = data_of i.members; scales = i.scales } };

    ghost invariant = { λ i. IsInfo (record { members = data_of i.members; scales = i.scales }) };
}

impl Info {
    ghost use Rattle.serde_json.specs.View.{view as data_of};
    ghost use Rattle.ig_info.specs.Reading.{IsInfo};

    /// The info with these members, which give these scales.
    pub(crate) fn of_members(members: Value, scales: List<Scale>) -> Self
        requires { IsInfo (record { members = data_of members; scales = scales }) }
        ensures { result ≡ record { members = data_of members; scales = scales } }
    {
        Info { members, scales }
    }

    /// The members.
    pub(crate) fn members(&self) -> &Value
        ensures members { data_of result.now ≡ self.now.members }
        ensures whole { IsInfo self.now }
    {
        &self.members
    }

    /// The scales.
    pub(crate) fn scales(&self) -> &List<Scale>
        ensures { result.now ≡ self.now.scales }
    {
        &self.scales
    }

    /// How many scales there are: 1 to 100.
    pub fn count(&self) -> u32
        ensures count { result ≡ length self.now.scales }
        ensures some { 1 ≤ length self.now.scales }
        ensures few { length self.now.scales ≤ 100 }
        ensures fit { list_all scale_fits self.now.scales ≡ true }
    {
        self.scales.len() as u32
    }

    /// The scale at this place, counted from 0.
    pub fn scale(&self, mip: u32) -> Option<&Scale>
        ensures scale { option_copied result ≡ slice_get self.now.scales mip }
        ensures fits { IfSome result (λ s. scale_fits s.now ≡ true) }
    {
        self.scales.get(mip as usize)
    }
}

impl TryClone for Info {
    fn copy(&self) -> Result<Self, AllocError> {
        Ok(Info {
            members: self.members.clone()?,
            scales: self.scales.copy()?,
        })
    }
}

/// The text of an info: its members in the order of their names, with no blank and no line end.
pub fn write_info(alloc: Global, info: &Info) -> Result<Bytes, AllocError>
    ensures text { IfOk result (λ bytes. bytes ≡ compact_text info.now.members) }
    ensures ordered { ascends info.now.members ≡ true }
    ensures reads_back { IfOk result (λ bytes. info_in bytes ≡ Ok info.now) }
{
    let text = info.members.to_string(alloc)?;
    Ok(Bytes::from_vec(text.into_bytes()))
}
