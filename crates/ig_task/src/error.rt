use ig_cutout::{Cause, CutError};
use ig_space::Path;
use std::alloc::AllocError;
use thiserror::Error;

/// Why a task refuses.
#[derive(Debug, Drop, Error)]
pub enum RunError {
    #[error("`{}` is missing", .path.as_str())]
    Missing { path: Path },
    #[error("`{}` is malformed: {cause}", .path.as_str())]
    Malformed { path: Path, cause: Cause },
    #[error("{count} parts are too many")]
    TooManyParts { count: u64 },
    #[error("out of memory")]
    Memory,
}

impl From<AllocError> for RunError {
    ghost use Rattle.std.specs.Prelude.{◌≡◌};
    ghost use Rattle.ig_task.specs.declared.error.RunError.TheVariants as running;

    ghost from_gives = { λ _ made. made ≡ running.Memory };

    fn from(_e: AllocError) -> RunError {
        RunError::Memory
    }
}

impl From<CutError> for RunError {
    ghost use Rattle.std.specs.Prelude.{◌≡◌};
    ghost use Rattle.ig_task.specs.Answers.{run_error_of};

    ghost from_gives = { λ e made. made ≡ run_error_of e };

    fn from(e: CutError) -> RunError {
        match e {
            CutError::Missing { path } => RunError::Missing { path },
            CutError::Malformed { path, cause } => RunError::Malformed { path, cause },
            CutError::Memory => RunError::Memory,
        }
    }
}
