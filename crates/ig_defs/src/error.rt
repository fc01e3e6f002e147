use std::alloc::AllocError;
use thiserror::Error;

/// Why a call on a store gave no answer.
#[derive(Clone, Copy, Debug, PartialEq, Eq, Error)]
pub enum StoreError {
    /// The store failed. Its own act may have been made all the same.
    #[error("store fault")]
    Failed,
    /// Memory ran out, and nothing was done.
    #[error("out of memory")]
    Memory,
}

impl From<AllocError> for StoreError {
    ghost use Rattle.std.specs.Prelude.{◌≡◌};
    ghost use Rattle.ig_defs.specs.declared.error.StoreError.TheVariants as errors;

    ghost from_gives = { λ _ error. error ≡ errors.Memory };

    fn from(_: AllocError) -> StoreError {
        StoreError::Memory
    }
}
