use ig_cseg::CsegFault;
use ig_space::Path;
use std::alloc::AllocError;
use thiserror::Error;

/// Why bytes are not the text of a chunk: they are not as many as those of a raw one, or no compressed labels of it.
#[derive(Clone, Copy, Debug, PartialEq, Eq, Error)]
pub enum Cause {
    #[error("{got} bytes, not {want}")]
    Length { got: u64, want: u64 },
    #[error("{0}")]
    Cseg(CsegFault),
}

/// Why the text of a chunk gave no labels.
#[derive(Clone, Copy)]
pub(crate) enum TextError {
    Malformed(Cause),
    Memory,
}

impl From<AllocError> for TextError {
    ghost use Rattle.std.specs.Prelude.{◌≡◌};
    ghost use Rattle.ig_cutout.specs.declared.error.TextError.TheVariants as errors;

    ghost from_gives = { λ e result. result ≡ errors.Memory };

    fn from(_error: AllocError) -> TextError {
        TextError::Memory
    }
}

/// Why a box has no labels.
#[derive(Debug, Drop, Error)]
pub enum CutError {
    #[error("`{}` is missing", .path.as_str())]
    Missing { path: Path },
    #[error("`{}` is malformed: {cause}", .path.as_str())]
    Malformed { path: Path, cause: Cause },
    #[error("out of memory")]
    Memory,
}

impl From<AllocError> for CutError {
    ghost use Rattle.std.specs.Prelude.{◌≡◌};
    ghost use Rattle.ig_cutout.specs.declared.error.CutError.TheVariants as errors;

    ghost from_gives = { λ e result. result ≡ errors.Memory };

    fn from(_error: AllocError) -> CutError {
        CutError::Memory
    }
}
