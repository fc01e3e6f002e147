ghost use Rattle.std.specs.Prelude.{◌≡◌, None};
ghost use Rattle.ig_record.specs.Answers.{Fails, Gives};
ghost use Rattle.ig_record.specs.declared.error.RecordError.TheVariants as variants;

use ig_space::Text;
use std::alloc::{AllocError, Global};
use thiserror::Error;

/// Why bytes are not the text of a stage or of a task.
#[derive(Debug, Drop, Error)]
pub enum RecordError {
    /// This member is wrong, or `$` where it is none by itself.
    #[error("record member {}", .member.as_str())]
    BadRecord { member: Text },
    #[error("out of memory")]
    Memory,
}

impl From<AllocError> for RecordError {
    ghost from_gives = { λ _ made. made ≡ variants.Memory };

    fn from(_e: AllocError) -> RecordError {
        RecordError::Memory
    }
}

/// The refusal of bytes that are no record.
pub(crate) fn bad_record(alloc: Global) -> RecordError
    ensures { Fails {Y = Unit {0}} result None }
{
    match Text::of(alloc, "$") {
        Ok(member) => RecordError::BadRecord { member },
        Err(_) => RecordError::Memory,
    }
}

/// What was found in a record.
pub(crate) fn found<T>(alloc: Global, value: Option<T>) -> Result<T, RecordError>
    ensures { Gives (λ x. x) result value }
{
    match value {
        Some(value) => Ok(value),
        None => Err(bad_record(alloc)),
    }
}
