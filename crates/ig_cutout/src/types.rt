use ig_space::{Bytes, List, Path, TryClone};
use std::alloc::AllocError;

/// What was found of the file at a path.
#[derive(Debug, Drop)]
pub struct Input {
    pub path: Path,
    pub found: Option<Bytes>,
}

/// What is to stand at a path: the bytes of a file, or no file.
#[derive(Debug, Drop)]
pub struct Output {
    pub path: Path,
    pub text: Option<Bytes>,
}

/// What was found of several files.
pub type Inputs = List<Input>;

/// What is to stand at several paths.
pub type Outputs = List<Output>;

impl TryClone for Input {
    fn copy(&self) -> Result<Self, AllocError> {
        let found = match &self.found {
            None => None,
            Some(bytes) => Some(bytes.copy()?),
        };
        Ok(Input {
            path: self.path.copy()?,
            found,
        })
    }
}

impl TryClone for Output {
    fn copy(&self) -> Result<Self, AllocError> {
        let text = match &self.text {
            None => None,
            Some(bytes) => Some(bytes.copy()?),
        };
        Ok(Output {
            path: self.path.copy()?,
            text,
        })
    }
}
