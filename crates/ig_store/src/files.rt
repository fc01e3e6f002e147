ghost use Rattle.std.specs.Prelude.{◌≡◌, [], All, IfOk, OnOk, OnErr, is_some};
ghost use Rattle.std.specs.Option.{option_copied};
ghost use Rattle.std.specs.FinMap as map;
ghost use Rattle.ig_defs.specs.Files.{file_at};
ghost use Rattle.ig_defs.specs.Log.{moved};
ghost use Rattle.ig_defs.specs.Calls.{ListsNames};
ghost use Rattle.ig_defs.specs.Names.{IsNameIn};

use crate::listing::list_names;
use ig_space::{Bytes, Names, Path, TryClone};
use std::alloc::{AllocError, Global};
use std::collections::BTreeMap;
use std::marker::Model;

/// Files in memory: a map from paths to bytes, in the order of the paths' bytes.
#[derive(Drop)]
pub struct FileMap {
    alloc: Global,
    files: BTreeMap<Path, Bytes>,
}

impl Model for FileMap {
    ghost use Rattle.std.specs.FinMap as map;
    ghost use Rattle.ig_defs.specs.Files.{Files, files_code};

    ghost Value = { Files };

    ghost coded = { files_code };

    ghost view = { λ m. map.from_entries m.files.entries };
}

impl FileMap {
    /// No files.
    pub fn new(alloc: Global) -> FileMap
        ensures { result ≡ map.empty }
    {
        FileMap {
            alloc,
            files: BTreeMap::new(alloc),
        }
    }

    /// Puts a file in, in place of the one at this path.
    pub fn insert(&mut self, path: Path, bytes: Bytes) -> Result<(), AllocError>
        ensures ok { OnOk result (self.new ≡ map.insert self.old path bytes) }
        ensures err { OnErr result (self.new ≡ self.old) }
    {
        self.files.insert(path, bytes)?;
        Ok(())
    }

    /// Moves a file, in place of the one at `to`; false exactly where there is none at `from`.
    pub fn shift(&mut self, from: &Path, to: &Path) -> Result<bool, AllocError>
        ensures found { IfOk result (λ found. found ≡ is_some (file_at self.old from.now)) }
        ensures ok { OnOk result (self.new ≡ moved self.old from.now to.now (file_at self.old from.now)) }
        ensures err { OnErr result (self.new ≡ self.old) }
    {
        let Some(bytes) = self.get(from) else {
            return Ok(false);
        };
        let (key, value) = (to.copy()?, bytes.copy()?);
        self.insert(key, value)?;
        if from != to {
            let _ = self.remove(from);
        }
        Ok(true)
    }

    /// Takes a file out, and gives its bytes.
    pub fn remove(&mut self, path: &Path) -> Option<Bytes>
        ensures files { self.new ≡ map.remove self.old path.now }
        ensures bytes { result ≡ file_at self.old path.now }
    {
        self.files.remove(path)
    }

    /// The names of the files that lie directly in a directory, in the order of their bytes.
    pub fn names(&self, dir: &Path) -> Result<Names, AllocError>
        ensures named { IfOk result (All (IsNameIn dir.now)) }
        ensures lists { IfOk result (λ names. ListsNames dir.now names self.now []) }
    {
        list_names(self.alloc, &self.files, dir)
    }

    /// The bytes of the file at this path.
    pub fn get(&self, path: &Path) -> Option<&Bytes>
        ensures { option_copied result ≡ file_at self.now path.now }
    {
        self.files.get(path)
    }
}

impl TryClone for FileMap {
    fn copy(&self) -> Result<Self, AllocError> {
        let mut copy = FileMap::new(self.alloc);
        for (path, bytes) in &self.files {
            copy.insert(path.copy()?, bytes.copy()?)?;
        }
        Ok(copy)
    }
}
