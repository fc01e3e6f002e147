ghost use Rattle.std.specs.Prelude.{◌≡◌, IfOk, Err, string_bytes};
ghost use Rattle.ig_info.specs.Answer.{Fails, Gives, or_error, only_if, scale_path, in_scale};

use crate::InfoError;
use ig_space::Text;
use std::alloc::{AllocError, Global};

/// The refusal of the member at this path.
pub(crate) fn member_error(alloc: Global, path: &str) -> InfoError
    ensures { Fails {Y = Unit {0}} result (Err (InfoError.Member path.now)) }
{
    match Text::of(alloc, path) {
        Ok(path) => InfoError::Member { path },
        Err(_) => InfoError::Memory,
    }
}

/// The refusal under this name.
pub(crate) fn unsupported_error(alloc: Global, name: &str) -> InfoError
    ensures { Fails {Y = Unit {0}} result (Err (InfoError.Unsupported name.now)) }
{
    match Text::of(alloc, name) {
        Ok(member) => InfoError::Unsupported { member },
        Err(_) => InfoError::Memory,
    }
}

/// The path of a member of a scale.
fn path_in_scale(alloc: Global, scale: usize, name: &str) -> Result<String, AllocError>
    ensures { IfOk result (λ text. string_bytes text ≡ scale_path scale name.now) }
{
    format!(in alloc; "scales[{scale}].{name}")
}

/// The refusal of a member of a scale.
pub(crate) fn scale_error(alloc: Global, scale: usize, name: &str) -> InfoError
    ensures { Fails {Y = Unit {0}} result (Err (in_scale scale name.now)) }
{
    match path_in_scale(alloc, scale, name) {
        Ok(path) => InfoError::Member {
            path: Text::from_string(path),
        },
        Err(_) => InfoError::Memory,
    }
}

/// Goes on only where the member at this path is well formed.
pub(crate) fn formed_if(alloc: Global, holds: bool, path: &str) -> Result<(), InfoError>
    ensures { Gives (λ x. x) result (only_if holds (InfoError.Member path.now)) }
{
    if holds {
        Ok(())
    } else {
        Err(member_error(alloc, path))
    }
}

/// Goes on only where what this name stands for is supported.
pub(crate) fn supported_if(alloc: Global, holds: bool, name: &str) -> Result<(), InfoError>
    ensures { Gives (λ x. x) result (only_if holds (InfoError.Unsupported name.now)) }
{
    if holds {
        Ok(())
    } else {
        Err(unsupported_error(alloc, name))
    }
}

/// Goes on only where this member of a scale is well formed.
pub(crate) fn scale_formed_if(
    alloc: Global,
    holds: bool,
    scale: usize,
    name: &str,
) -> Result<(), InfoError>
    ensures { Gives (λ x. x) result (only_if holds (in_scale scale name.now)) }
{
    if holds {
        Ok(())
    } else {
        Err(scale_error(alloc, scale, name))
    }
}

/// What was found at this member of a scale.
pub(crate) fn found<T>(
    alloc: Global,
    value: Option<T>,
    scale: usize,
    name: &str,
) -> Result<T, InfoError>
    ensures { Gives (λ x. x) result (or_error (in_scale scale name.now) value) }
{
    match value {
        Some(value) => Ok(value),
        None => Err(scale_error(alloc, scale, name)),
    }
}

/// What is supported under this name.
pub(crate) fn supported<T>(alloc: Global, value: Option<T>, name: &str) -> Result<T, InfoError>
    ensures { Gives (λ x. x) result (or_error (InfoError.Unsupported name.now) value) }
{
    match value {
        Some(value) => Ok(value),
        None => Err(unsupported_error(alloc, name)),
    }
}
