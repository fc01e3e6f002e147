use ig_space::{Bytes, Names, Path, TryClone};
use std::alloc::AllocError;

/// What one call does with the files of a store.
#[derive(Debug, Drop)]
pub enum Act {
    /// The file at the path is read, or looked for.
    Read(Path),
    /// The names in a directory are listed; these were given.
    List(Path, Names),
    /// The file at the path is replaced whole.
    Put(Path, Bytes),
    /// The file at the first path becomes the file at the second.
    Move(Path, Path),
    /// The file at the path is taken away.
    Remove(Path),
}

/// One event of the whole system: an act, and whether it is this process's own.
#[derive(Debug, Drop)]
pub struct Step {
    pub mine: bool,
    pub act: Act,
}

impl TryClone for Act {
    fn copy(&self) -> Result<Self, AllocError> {
        match self {
            Act::Read(path) => Ok(Act::Read(path.copy()?)),
            Act::List(dir, given) => Ok(Act::List(dir.copy()?, given.copy()?)),
            Act::Put(path, bytes) => Ok(Act::Put(path.copy()?, bytes.copy()?)),
            Act::Move(from, to) => Ok(Act::Move(from.copy()?, to.copy()?)),
            Act::Remove(path) => Ok(Act::Remove(path.copy()?)),
        }
    }
}

impl TryClone for Step {
    fn copy(&self) -> Result<Self, AllocError> {
        Ok(Step {
            mine: self.mine,
            act: self.act.copy()?,
        })
    }
}
