ghost use Rattle.std.specs.Prelude.{◌≢◌, ◌↔◌, IfErr, All, ◌≡◌, ◌≤◌, ◌+◌, ◌-◌, ◌^◌, IfOk};
ghost use Rattle.std.specs.IoError.{error_kind};
ghost use Rattle.igneous.specs.Counts.{counted, no_log};
ghost use Rattle.ig_defs.specs.Calls.{HasCause};
ghost use Rattle.ig_defs.specs.Names.{IsNameIn};
ghost use Rattle.std.specs.List.Sorted.{IsStrictlySortedBy};
ghost use Rattle.std.specs.Ordering.{nat_cmp};
ghost use Rattle.std.specs.Cmp.Lexicographic.{slice_cmp};

use crate::posix_changes::{move_file, remove_file, replace_file};
use crate::posix_files::{has_file, names_in, place, read_file};
use ig_store::{Bytes, Names, Path, Rule, Store, StoreError};
use rand_chacha::ChaCha20Rng;
use rand_core::SeedableRng;
use std::io;
use std::io::ErrorKind;
use std::random::RandomSource;
use std::rt::Files;
use uuid::Uuid;

/// The files under the working directory, on a POSIX system: `rename` replaces a file in one step (POSIX.1, `rename`).
#[derive(Drop)]
pub struct PosixStore<F, R> {
    rt: F,
    /// What stands before each path; empty in the program.
    pub(crate) root: String,
    ids: ChaCha20Rng,
    pub rule: R,
    pub faults: u64,
    ghost counted: { faults ≤ 2 ^ 64 - 1 },
}

impl<F: RandomSource + AllocGlobal + Drop, R: Drop> PosixStore<F, R> {
    /// A store that keeps the rule and has not failed yet. The system's source of random bytes seeds the names of its
    /// temporary files; where it fails, its error is given.
    pub fn new(rt: F, rule: R) -> io::Result<Self>
        ensures rule { IfOk result (λ store. store.rule ≡ rule) }
        ensures faults { IfOk result (λ store. store.faults ≡ 0) }
    {
        let mut seed = [0; 32];
        rt.fill_bytes(&mut seed)?;
        let root = String::new(rt.alloc());
        Ok(PosixStore {
            rt,
            root,
            ids: ChaCha20Rng::from_seed(seed),
            rule,
            faults: 0,
        })
    }
}

/// The count of faults after one more.
fn one_more(faults: u64) -> u64
    ensures { result ≡ counted faults }
{
    faults.saturating_add(1)
}

/// The answer with the cause of an error of the system, which `faults` counts unless it is want of memory.
fn answer<T: Drop>(given: io::Result<T>, faults: &mut u64) -> Result<T, StoreError>
    ensures cause { HasCause faults.old faults.new result }
    ensures same { IfOk given (λ value. result ≡ Ok value) }
    ensures memory { IfErr given (λ e. (result ≡ Err StoreError.Memory) ↔ (error_kind e ≡ ErrorKind.OutOfMemory)) }
    ensures failed { IfErr given (λ e. (result ≡ Err StoreError.Failed) ↔ (error_kind e ≢ ErrorKind.OutOfMemory)) }
    ensures bound { faults.new ≤ 2 ^ 64 - 1 }
{
    let before = *faults;
    match given {
        Ok(value) => Ok(value),
        Err(e) if e.kind() == ErrorKind::OutOfMemory => Err(StoreError::Memory),
        Err(_) => {
            *faults = one_more(before);
            Err(StoreError::Failed)
        }
    }
}

impl<F: Files + AllocGlobal + Clone + Drop, R: Rule + Drop> PosixStore<F, R> {
    /// Where the path lies.
    fn place_of(&self, path: &Path) -> io::Result<String> {
        Ok(place(self.rt.alloc(), self.root.as_str(), path.as_str())?)
    }

    fn load(&self, path: &Path) -> io::Result<Option<Bytes>> {
        read_file(&self.rt, self.place_of(path)?.as_str())
    }

    fn look(&self, path: &Path) -> io::Result<bool> {
        has_file(&self.rt, self.place_of(path)?.as_str())
    }

    fn carry(&self, from: &Path, to: &Path) -> io::Result<bool> {
        let (from, to) = (self.place_of(from)?, self.place_of(to)?);
        move_file(&self.rt, from.as_str(), to.as_str())
    }

    fn unlink(&self, path: &Path) -> io::Result<bool> {
        remove_file(&self.rt, self.place_of(path)?.as_str())
    }
}

impl<F: Files + AllocGlobal + Clone + Drop, R: Rule + Drop> Store<R> for PosixStore<F, R> {
    ghost rule = { λ store. store.rule };

    ghost faults = { λ store. store.faults };

    ghost most = { λ _. 2 ^ 64 - 1 };

    ghost tells = { ⊥ };

    ghost log = { λ _. no_log };

    fn read(&mut self, path: &Path) -> Result<Option<Bytes>, StoreError> {
        let given = self.load(path);
        answer(given, &mut self.faults)
    }

    fn has(&mut self, path: &Path) -> Result<bool, StoreError> {
        let given = self.look(path);
        answer(given, &mut self.faults)
    }

    fn names(&mut self, dir: &Path) -> Result<Names, StoreError>
        ensures rule { self.new.rule ≡ self.old.rule }
        ensures cause { HasCause self.old.faults self.new.faults result }
        ensures named { IfOk result (All (IsNameIn dir.now)) }
        ensures sorted { IfOk result (IsStrictlySortedBy (slice_cmp nat_cmp)) }
    {
        let given = names_in(&self.rt, self.root.as_str(), dir);
        answer(given, &mut self.faults)
    }

    fn put(&mut self, path: &Path, bytes: &[u8]) -> Result<(), StoreError> {
        let id = Uuid::new_v4(&mut self.ids);
        let given = replace_file(&self.rt, self.root.as_str(), &id, path, bytes);
        answer(given, &mut self.faults)
    }

    fn shift(&mut self, from: &Path, to: &Path) -> Result<bool, StoreError> {
        let given = self.carry(from, to);
        answer(given, &mut self.faults)
    }

    fn remove(&mut self, path: &Path) -> Result<bool, StoreError> {
        let given = self.unlink(path);
        answer(given, &mut self.faults)
    }

    ghost bounded = { λ store. store.counted };
}
