use ig_space::{Bytes, List, Path, TryClone};
use ig_store::{Fail, Fails, FileMap};
use std::alloc::{AllocError, Global};
use std::mem;

/// The files, the second of the clock, the faults of the next call's store, and how many bytes its output takes.
#[derive(Drop)]
pub struct World {
    pub alloc: Global,
    pub files: FileMap,
    pub second: u64,
    pub fails: Fails,
    pub takes: u64,
}

/// How many bytes an output takes where nothing is said of it.
const USUAL_ROOM: u64 = 100_000;

impl World {
    /// No files, second 1000, no faults.
    pub fn new(alloc: Global) -> World {
        World {
            alloc,
            files: FileMap::new(alloc),
            second: 1000,
            fails: List::new(alloc),
            takes: USUAL_ROOM,
        }
    }

    /// The store's calls of these numbers fail, in the next call alone. Where `made`, what they change is changed all the same.
    pub fn fail(&mut self, from: u64, to: u64, made: bool) -> Result<(), AllocError> {
        self.fails.push(Fail { from, to, made })
    }

    /// The faults of the next call, which has them alone.
    pub fn take_fails(&mut self) -> Fails {
        mem::replace(&mut self.fails, List::new(self.alloc))
    }

    /// The files, which a store holds meanwhile.
    pub fn take_files(&mut self) -> FileMap {
        mem::replace(&mut self.files, FileMap::new(self.alloc))
    }

    /// How many bytes the next output takes.
    pub fn take_room(&mut self) -> u64 {
        mem::replace(&mut self.takes, USUAL_ROOM)
    }

    /// Puts a file; false where the path is none.
    pub fn put(&mut self, path: &str, bytes: &[u8]) -> Result<bool, AllocError> {
        let Some(path) = Path::new(self.alloc, path)? else {
            return Ok(false);
        };
        let bytes = Bytes::of(self.alloc, bytes)?;
        self.files.insert(path, bytes)?;
        Ok(true)
    }

    /// The bytes of a file, if it is there.
    pub fn found(&self, path: &str) -> Result<Option<Bytes>, AllocError> {
        let Some(path) = Path::new(self.alloc, path)? else {
            return Ok(None);
        };
        match self.files.get(&path) {
            Some(bytes) => Ok(Some(bytes.copy()?)),
            None => Ok(None),
        }
    }

    /// Takes a file away; false where it is not there.
    pub fn remove(&mut self, path: &str) -> Result<bool, AllocError> {
        let Some(path) = Path::new(self.alloc, path)? else {
            return Ok(false);
        };
        Ok(self.files.remove(&path).is_some())
    }

    /// The names of the files directly in a directory, each in a line.
    pub fn names(&self, dir: &str) -> Result<String, AllocError> {
        let mut text = String::new(self.alloc);
        let Some(dir) = Path::new(self.alloc, dir)? else {
            return Ok(text);
        };
        for name in self.files.names(&dir)?.as_slice() {
            text.push_str(name.as_str())?;
            text.push('\n')?;
        }
        Ok(text)
    }
}
