ghost use Rattle.std.specs.Prelude.{◌≡◌, ◌++◌, [], ◌∷◌, ℕ, All, IfOk, OnOk, OnErr, is_some, if◌then◌else◌};
ghost use Rattle.std.specs.Option.{option_copied};
ghost use Rattle.ig_defs.specs.Log.{files_of, own, own_all};
ghost use Rattle.ig_defs.specs.Files.{file_at};
ghost use Rattle.ig_defs.specs.Names.{IsNameIn};
ghost use Rattle.ig_defs.specs.Answers.{answer_by, Answered, Found, Lists, Names as Listed, put_answer, Puts, Reads, Removes, Sees, Shifts, WasThere};
ghost use Rattle.ig_defs.specs.Calls.{HasCause};
ghost use Rattle.ig_defs.specs.declared.step.Act.TheVariants as act;
ghost use Rattle.ig_store.specs.Fails.{fail_of, counted, shown, most_of, shown-most, acts_of, Answers, AnswersPut, is_made};
ghost use Rattle.ig_store.specs.Memory.{Memory};

use crate::fails::{Fails, begin};
use crate::steps::{Steps, has_file, list_files, put_file, read_file, remove_file, shift_file};
use crate::{FileMap, Rule, Store, StoreError};
use ig_space::{Bytes, List, Names, Path, TryClone};
use std::alloc::{AllocError, Global};
use std::marker::Model;

/// A store in memory, which this process has for itself. It keeps the log of its own steps, and can be told which of
/// its calls fail.
#[derive(Drop)]
pub struct MemStore<R> {
    alloc: Global,
    rule: R,
    opening: FileMap,
    files: FileMap,
    steps: Steps,
    fails: Fails,
    calls: u64,
    faults: u64,
}

impl<R> Model for MemStore<R> {
    ghost use Rattle.std.specs.Prelude.{◌≡◌};
    ghost use Rattle.std.specs.Coded.{codes};
    ghost use Rattle.ig_defs.specs.Files.{files_code};
    ghost use Rattle.ig_defs.specs.Log.{replay};
    ghost use Rattle.ig_store.specs.Memory.{Memory};

    ghost Value = { Memory R };

    ghost coded = { Prim.hlevel (codes, files_code) };

    ghost view = { λ s. record {
      rule = s.rule;
      log = record { opening = s.opening; steps = s.steps };
      faults = s.faults;
      calls = s.calls;
      fails = s.fails;
    } };

    ghost invariant = { λ s. s.files ≡ replay s.opening s.steps };
}

impl<R> MemStore<R> {
    /// A store under this rule that opens with these files.
    pub fn new(
        alloc: Global,
        rule: R,
        files: FileMap,
        fails: Fails,
    ) -> Result<MemStore<R>, AllocError>
    where
        R: Drop,
        ensures { IfOk result (λ store. store ≡ record { rule = rule; log = record { opening = files; steps = [] }; faults = 0; calls = 0; fails = fails }) }
    {
        Ok(MemStore {
            alloc,
            rule,
            opening: files.copy()?,
            files,
            steps: List::new(alloc),
            fails,
            calls: 0,
            faults: 0,
        })
    }

    /// The bytes of a file as it stands now. This is no call, and takes no step.
    pub fn file(&self, path: &Path) -> Option<&Bytes>
        ensures { option_copied result ≡ file_at (files_of self.now.log) path.now }
    {
        self.files.get(path)
    }

    /// The steps so far.
    pub fn steps(&self) -> &Steps
        ensures { result.now ≡ self.now.log.steps }
    {
        &self.steps
    }

    /// The files as they stand now.
    pub fn into_files(self) -> FileMap
    where
        R: Drop,
        ensures { result ≡ files_of self.log }
    {
        self.files
    }
}

impl<R: Rule> Store<R> for MemStore<R> {
    ghost rule = { λ store. store.rule };

    ghost faults = { λ store. shown store.fails store.faults };

    ghost most = { λ store. most_of store.fails };

    ghost tells = { Unit {0} };

    ghost log = { λ store. store.log };

    fn read(&mut self, path: &Path) -> Result<Option<Bytes>, StoreError>
        ensures rule { self.new.rule ≡ self.old.rule }
        ensures most { most_of self.new.fails ≡ most_of self.old.fails }
        ensures cause { HasCause (shown self.old.fails self.old.faults) (shown self.new.fails self.new.faults) result }
        ensures turn { Unit {0} → Answered (R.allows self.old.rule) self.old.log self.new.log (Reads path.now) (answer_by Found result) }
        ensures call { self.new.calls ≡ counted self.old.calls }
        ensures fails { self.new.fails ≡ self.old.fails }
        ensures fault { self.new.faults ≡ (if is_some (fail_of self.old.fails self.new.calls) then counted self.old.faults else self.old.faults) }
        ensures answers { Answers (fail_of self.old.fails self.new.calls) result }
        ensures made { OnOk result (self.new.log.steps ≡ self.old.log.steps ++ own (act.Read path.now) ∷ []) }
        ensures err { OnErr result (self.new.log.steps ≡ self.old.log.steps) }
    {
        let fail = begin(&self.fails, &mut self.calls, &mut self.faults);
        read_file(fail, &self.files, &mut self.steps, path)
    }

    fn has(&mut self, path: &Path) -> Result<bool, StoreError>
        ensures rule { self.new.rule ≡ self.old.rule }
        ensures most { most_of self.new.fails ≡ most_of self.old.fails }
        ensures cause { HasCause (shown self.old.fails self.old.faults) (shown self.new.fails self.new.faults) result }
        ensures turn { Unit {0} → Answered (R.allows self.old.rule) self.old.log self.new.log (Sees path.now) (answer_by WasThere result) }
        ensures call { self.new.calls ≡ counted self.old.calls }
        ensures fails { self.new.fails ≡ self.old.fails }
        ensures fault { self.new.faults ≡ (if is_some (fail_of self.old.fails self.new.calls) then counted self.old.faults else self.old.faults) }
        ensures answers { Answers (fail_of self.old.fails self.new.calls) result }
        ensures made { OnOk result (self.new.log.steps ≡ self.old.log.steps ++ own (act.Read path.now) ∷ []) }
        ensures err { OnErr result (self.new.log.steps ≡ self.old.log.steps) }
    {
        let fail = begin(&self.fails, &mut self.calls, &mut self.faults);
        has_file(fail, &self.files, &mut self.steps, path)
    }

    fn names(&mut self, dir: &Path) -> Result<Names, StoreError>
        ensures rule { self.new.rule ≡ self.old.rule }
        ensures most { most_of self.new.fails ≡ most_of self.old.fails }
        ensures cause { HasCause (shown self.old.fails self.old.faults) (shown self.new.fails self.new.faults) result }
        ensures named { IfOk result (All (IsNameIn dir.now)) }
        ensures turn { Unit {0} → Answered (R.allows self.old.rule) self.old.log self.new.log (Lists dir.now) (answer_by Listed result) }
        ensures call { self.new.calls ≡ counted self.old.calls }
        ensures fails { self.new.fails ≡ self.old.fails }
        ensures fault { self.new.faults ≡ (if is_some (fail_of self.old.fails self.new.calls) then counted self.old.faults else self.old.faults) }
        ensures answers { Answers (fail_of self.old.fails self.new.calls) result }
        ensures made { IfOk result (λ given. self.new.log.steps ≡ self.old.log.steps ++ own (act.List dir.now given) ∷ []) }
        ensures err { OnErr result (self.new.log.steps ≡ self.old.log.steps) }
    {
        let fail = begin(&self.fails, &mut self.calls, &mut self.faults);
        list_files(fail, &self.files, &mut self.steps, dir)
    }

    fn put(&mut self, path: &Path, bytes: &[u8]) -> Result<(), StoreError>
        ensures rule { self.new.rule ≡ self.old.rule }
        ensures most { most_of self.new.fails ≡ most_of self.old.fails }
        ensures cause { HasCause (shown self.old.fails self.old.faults) (shown self.new.fails self.new.faults) result }
        ensures turn { Unit {0} → Answered (R.allows self.old.rule) self.old.log self.new.log (Puts path.now bytes.now) (answer_by put_answer result) }
        ensures call { self.new.calls ≡ counted self.old.calls }
        ensures fails { self.new.fails ≡ self.old.fails }
        ensures fault { self.new.faults ≡ (if is_some (fail_of self.old.fails self.new.calls) then counted self.old.faults else self.old.faults) }
        ensures answers { AnswersPut (fail_of self.old.fails self.new.calls) result }
        ensures made { self.new.log.steps ≡ (if is_made (fail_of self.old.fails self.new.calls) result then self.old.log.steps ++ own (act.Put path.now bytes.now) ∷ [] else self.old.log.steps) }
    {
        let fail = begin(&self.fails, &mut self.calls, &mut self.faults);
        put_file(
            fail,
            self.alloc,
            &mut self.files,
            &mut self.steps,
            path,
            bytes,
        )
    }

    fn shift(&mut self, from: &Path, to: &Path) -> Result<bool, StoreError>
        ensures rule { self.new.rule ≡ self.old.rule }
        ensures most { most_of self.new.fails ≡ most_of self.old.fails }
        ensures cause { HasCause (shown self.old.fails self.old.faults) (shown self.new.fails self.new.faults) result }
        ensures turn { Unit {0} → Answered (R.allows self.old.rule) self.old.log self.new.log (Shifts from.now to.now) (answer_by WasThere result) }
        ensures call { self.new.calls ≡ counted self.old.calls }
        ensures fails { self.new.fails ≡ self.old.fails }
        ensures fault { self.new.faults ≡ (if is_some (fail_of self.old.fails self.new.calls) then counted self.old.faults else self.old.faults) }
        ensures answers { AnswersPut (fail_of self.old.fails self.new.calls) result }
        ensures made { self.new.log.steps ≡ self.old.log.steps ++ own_all (acts_of (fail_of self.old.fails self.new.calls) (is_some (file_at (files_of self.old.log) from.now)) (act.Move from.now to.now) (act.Read from.now) result) }
    {
        let fail = begin(&self.fails, &mut self.calls, &mut self.faults);
        shift_file(fail, &mut self.files, &mut self.steps, from, to)
    }

    fn remove(&mut self, path: &Path) -> Result<bool, StoreError>
        ensures rule { self.new.rule ≡ self.old.rule }
        ensures most { most_of self.new.fails ≡ most_of self.old.fails }
        ensures cause { HasCause (shown self.old.fails self.old.faults) (shown self.new.fails self.new.faults) result }
        ensures turn { Unit {0} → Answered (R.allows self.old.rule) self.old.log self.new.log (Removes path.now) (answer_by WasThere result) }
        ensures call { self.new.calls ≡ counted self.old.calls }
        ensures fails { self.new.fails ≡ self.old.fails }
        ensures fault { self.new.faults ≡ (if is_some (fail_of self.old.fails self.new.calls) then counted self.old.faults else self.old.faults) }
        ensures answers { AnswersPut (fail_of self.old.fails self.new.calls) result }
        ensures made { self.new.log.steps ≡ self.old.log.steps ++ own_all (acts_of (fail_of self.old.fails self.new.calls) (is_some (file_at (files_of self.old.log) path.now)) (act.Remove path.now) (act.Read path.now) result) }
    {
        let fail = begin(&self.fails, &mut self.calls, &mut self.faults);
        remove_file(fail, &mut self.files, &mut self.steps, path)
    }

    ghost bounded = { λ store. shown-most store.fails store.faults };
}
