use thiserror::Error;

/// Why a volume has no compressed text.
#[derive(Clone, Copy, Debug, PartialEq, Eq, Error)]
pub enum EncodeError {
    /// The label at this place, the first such one, has more bits than the width.
    #[error("label {index} is too wide")]
    ValueTooWide { index: u64 },
    #[error("out of memory")]
    Memory,
}
