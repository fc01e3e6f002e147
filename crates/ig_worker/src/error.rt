use ig_space::{Path, Text, TryClone};
use ig_store::StoreError;
use std::alloc::AllocError;
use thiserror::Error;

/// Why a worker stops: the record of a stage isn't there, or is none; the store failed; memory ran out.
#[derive(Debug, Drop, Error)]
pub enum WorkerError {
    #[error("`{}` is missing", .path.as_str())]
    Absent { path: Path },
    #[error("`{}` is malformed: record member {}", .path.as_str(), .member.as_str())]
    BadRecord { path: Path, member: Text },
    #[error("the store failed")]
    Failed,
    #[error("out of memory")]
    Memory,
}

impl From<StoreError> for WorkerError {
    ghost use Rattle.std.specs.Prelude.{◌≡◌};
    ghost use Rattle.ig_worker.specs.Errors.{worker_error_of};

    ghost from_gives = { λ e made. made ≡ worker_error_of e };

    fn from(e: StoreError) -> WorkerError {
        match e {
            StoreError::Failed => WorkerError::Failed,
            StoreError::Memory => WorkerError::Memory,
        }
    }
}

impl From<AllocError> for WorkerError {
    ghost use Rattle.std.specs.Prelude.{◌≡◌};
    ghost use Rattle.ig_worker.specs.declared.error.WorkerError.TheVariants as worker;

    ghost from_gives = { λ _ made. made ≡ worker.Memory };

    fn from(_e: AllocError) -> WorkerError {
        WorkerError::Memory
    }
}

impl TryClone for WorkerError {
    fn copy(&self) -> Result<Self, AllocError> {
        Ok(match self {
            WorkerError::Absent { path } => WorkerError::Absent { path: path.copy()? },
            WorkerError::BadRecord { path, member } => WorkerError::BadRecord {
                path: path.copy()?,
                member: member.copy()?,
            },
            WorkerError::Failed => WorkerError::Failed,
            WorkerError::Memory => WorkerError::Memory,
        })
    }
}
