ghost use Rattle.std.specs.Prelude.{◌≡◌, codes};
ghost use Rattle.serde_json.specs.View.{view};
ghost use Rattle.serde_json.specs.Find.{get};
ghost use Rattle.ig_info.specs.Answer.{Gives};
ghost use Rattle.ig_info.specs.Whole.{is_absent_or_word, width_of_word as width_of_text, segmentation_only, width_of, whole_member, is_one as is_one_of, one_channel, kind_of, head_of};

use crate::InfoError;
use crate::floats::holds_float;
use crate::parts::is_whole_number;
use crate::refusal::{formed_if, member_error, supported, supported_if};
use ig_space::Width;
use serde_json::Value;
use std::alloc::Global;

/// Whether the member is absent, or this text.
fn is_nothing_but(value: &Value, name: &str, word: &str) -> bool
    ensures { result ≡ is_absent_or_word word.now (get name.now (view value.now)) }
{
    match value.get(name) {
        Some(member) => match member.as_str() {
            Some(text) => text == word,
            None => false,
        },
        None => true,
    }
}

/// Goes on only with a segmentation.
#[tactic(auto, unfolding(crate::specs::Whole::segmentation_only, crate::specs::Whole::text_member))]
fn check_type(alloc: Global, value: &Value) -> Result<(), InfoError>
    ensures { Gives (λ x. x) result (segmentation_only (view value.now)) }
{
    match value.get("type").and_then(Value::as_str) {
        Some(text) => supported_if(alloc, text == "segmentation", "type"),
        None => Err(member_error(alloc, "type")),
    }
}

/// The width that this word stands for.
fn width_of_word(word: &str) -> Option<Width>
    ensures { result ≡ width_of_text word.now }
{
    match word {
        "uint8" => Some(Width::W8),
        "uint16" => Some(Width::W16),
        "uint32" => Some(Width::W32),
        "uint64" => Some(Width::W64),
        _ => None,
    }
}

/// The width of the labels.
#[tactic(auto, unfolding(crate::specs::Whole::width_of, crate::specs::Whole::text_member))]
fn read_width(alloc: Global, value: &Value) -> Result<Width, InfoError>
    ensures { Gives (λ x. x) result (width_of (view value.now)) }
{
    match value.get("data_type").and_then(Value::as_str) {
        Some(word) => supported(alloc, width_of_word(word), "data_type"),
        None => Err(member_error(alloc, "data_type")),
    }
}

/// Whether the member is a whole number.
fn has_whole(value: &Value, name: &str) -> bool
    ensures { result ≡ whole_member (get name.now (view value.now)) }
{
    match value.get(name) {
        Some(number) => is_whole_number(number),
        None => false,
    }
}

/// Whether the member is 1.
fn is_one(value: &Value, name: &str) -> bool
    ensures { result ≡ is_one_of (get name.now (view value.now)) }
{
    match value.get(name) {
        Some(number) => match number.as_u64() {
            Some(number) => number == 1,
            None => false,
        },
        None => false,
    }
}

/// Goes on only with one channel.
#[tactic(auto, unfolding(crate::specs::Whole::one_channel))]
fn check_channels(alloc: Global, value: &Value) -> Result<(), InfoError>
    ensures { Gives (λ x. x) result (one_channel (view value.now)) }
{
    formed_if(alloc, has_whole(value, "num_channels"), "num_channels")?;
    supported_if(alloc, is_one(value, "num_channels"), "num_channels")
}

/// The width of the labels, where what stands beside the scales is handled.
#[tactic(auto, unfolding(crate::specs::Whole::kind_of))]
fn read_kind(alloc: Global, value: &Value) -> Result<Width, InfoError>
    ensures { Gives (λ x. x) result (kind_of (view value.now)) }
{
    let named = is_nothing_but(value, "@type", "neuroglancer_multiscale_volume");
    supported_if(alloc, named, "@type")?;
    check_type(alloc, value)?;
    let width = read_width(alloc, value)?;
    check_channels(alloc, value)?;
    Ok(width)
}

/// The width of the labels, where all but the scales is handled.
#[tactic(auto, unfolding(crate::specs::Whole::head_of))]
pub(crate) fn read_head(alloc: Global, value: &Value) -> Result<Width, InfoError>
    ensures { Gives (λ x. x) result (head_of (view value.now)) }
{
    formed_if(alloc, value.is_object(), "$")?;
    supported_if(alloc, !holds_float(value), "number")?;
    read_kind(alloc, value)
}
