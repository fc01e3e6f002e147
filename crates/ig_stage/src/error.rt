ghost use Rattle.std.specs.Prelude.{◌≡◌};
ghost use Rattle.ig_task.specs.declared.error.RunError.TheVariants as running;
ghost use Rattle.ig_stage.specs.declared.error.LocalError.TheVariants as local;
ghost use Rattle.ig_stage.specs.declared.error.MakeError.TheVariants as make;
ghost use Rattle.ig_stage.specs.Errors.{make_error_of};

use ig_info::InfoError;
use ig_record::Kind;
use ig_space::{Path, Text};
use ig_store::StoreError;
use ig_task::RunError;
use std::alloc::AllocError;
use thiserror::Error;

/// Why a stage is not made: a record of the queue isn't there, or is none; the queue has no place for more stages; the source's
/// info isn't there; an info is refused, the source's or the new one; the source has no
/// scale with this number; the queue has no stage of the kind that the new one builds on; the new layer's info, or a file in its directory, is there; an earlier stage of the queue
/// has one of its directories; the shape isn't a multiple of the new
/// chunk on this axis; there are too many tasks; the chunks that one task reads have so many voxels, which are too many.
#[derive(Debug, Drop, Error)]
pub enum MakeError {
    #[error("`{}` is missing", .path.as_str())]
    Absent { path: Path },
    #[error("`{}` is malformed: record member {}", .path.as_str(), .member.as_str())]
    BadRecord { path: Path, member: Text },
    #[error("{count} stages are too many")]
    TooManyStages { count: u32 },
    #[error("`{}` is missing", .path.as_str())]
    Missing { path: Path },
    #[error("`{}` is malformed: {cause}", .path.as_str())]
    BadInfo { path: Path, cause: InfoError },
    #[error("no scale {mip} of {count}")]
    NoScale { mip: u32, count: u32 },
    #[error("no stage of kind {kind:?}")]
    NoStage { kind: Kind },
    #[error("`{}` is there", .path.as_str())]
    DestNotEmpty { path: Path },
    #[error("taken by stage {stage}")]
    Taken { stage: u32 },
    #[error("the shape does not fit axis {axis}")]
    ShapeUnfit { axis: u32 },
    #[error("{count} tasks are too many")]
    TooManyTasks { count: u128 },
    #[error("{voxels} voxels are too many for a task")]
    TaskTooLarge { voxels: u128 },
    #[error("the store failed")]
    Failed,
    #[error("out of memory")]
    Memory,
}

/// Why a command without a queue ends. A fault of the store at any moment is `Make(Failed)`.
#[derive(Debug, Drop, Error)]
pub enum LocalError {
    #[error("{0}")]
    Make(MakeError),
    #[error("{0}")]
    Run(RunError),
}

impl From<StoreError> for MakeError {
    ghost from_gives = { λ e made. made ≡ make_error_of e };

    fn from(e: StoreError) -> MakeError {
        match e {
            StoreError::Failed => MakeError::Failed,
            StoreError::Memory => MakeError::Memory,
        }
    }
}

impl From<AllocError> for MakeError {
    ghost from_gives = { λ _ made. made ≡ make.Memory };

    fn from(_e: AllocError) -> MakeError {
        MakeError::Memory
    }
}

impl From<StoreError> for LocalError {
    ghost from_gives = { λ e made. made ≡ local.Make (make_error_of e) };

    fn from(e: StoreError) -> LocalError {
        LocalError::Make(MakeError::from(e))
    }
}

impl From<AllocError> for LocalError {
    ghost from_gives = { λ _ made. made ≡ local.Run running.Memory };

    fn from(_e: AllocError) -> LocalError {
        LocalError::Run(RunError::Memory)
    }
}

impl From<RunError> for LocalError {
    ghost from_gives = { λ e made. made ≡ local.Run e };

    fn from(e: RunError) -> LocalError {
        LocalError::Run(e)
    }
}

impl From<MakeError> for LocalError {
    ghost from_gives = { λ e made. made ≡ local.Make e };

    fn from(e: MakeError) -> LocalError {
        LocalError::Make(e)
    }
}
