use std::alloc::AllocError;
use thiserror::Error;

/// A wrong file: the byte where the wrong field begins.
#[derive(Clone, Copy, Debug, PartialEq, Eq, Error)]
#[error("wrong at byte {at}")]
pub struct BadFile {
    pub at: u64,
}

/// Why a file gave nothing.
#[derive(Debug, Drop, Error)]
pub enum FileError {
    #[error("{0}")]
    Bad(BadFile),
    #[error("out of memory")]
    Memory,
}

impl From<AllocError> for FileError {
    ghost use Rattle.std.specs.Prelude.{◌≡◌};
    ghost use Rattle.ig_faces.specs.declared.error.FileError.TheVariants as errors;

    ghost from_gives = { λ e result. result ≡ errors.Memory };

    fn from(_error: AllocError) -> FileError {
        FileError::Memory
    }
}
