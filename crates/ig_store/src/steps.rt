ghost use Rattle.std.specs.Prelude.{◌≡◌, ◌++◌, [], ◌∷◌, if◌then◌else◌, List as list, false, is_some, All, IfOk, OnOk, OnErr};
ghost use Rattle.std.specs.Option.{option_copied};
ghost use Rattle.std.specs.FinMap as map;
ghost use Rattle.ig_defs.specs.Files.{file_at};
ghost use Rattle.ig_defs.specs.Log.{moved, own, own_all, replay};
ghost use Rattle.ig_defs.specs.Calls.{ListsNames};
ghost use Rattle.ig_defs.specs.Names.{IsNameIn};
ghost use Rattle.ig_defs.specs.declared.step.Act.TheVariants as act;
ghost use Rattle.ig_defs.specs.declared.step.Step.{Step as TheStep};
ghost use Rattle.ig_store.specs.Fails.{acts_of, Answers, AnswersPut, is_made};

use crate::FileMap;
use ig_defs::{Act, Step, StoreError};
use ig_space::{Bytes, List, Names, Path, TryClone};
use std::alloc::{AllocError, Global};

/// Steps, the first of them first.
pub type Steps = List<Step>;

/// Logs an own step.
fn log(steps: &mut Steps, act: Act) -> Result<(), AllocError>
    ensures ok { OnOk result (steps.new ≡ steps.old ++ own act ∷ []) }
    ensures err { OnErr result (steps.new ≡ steps.old) }
{
    steps.push(Step { mine: true, act })
}

/// Takes the last step out of the log.
fn take_back(steps: &mut Steps)
    ensures { (before : list TheStep) (step : TheStep) → steps.old ≡ before ++ step ∷ [] → steps.new ≡ before }
{
    let _ = steps.pop();
}

fn copied(bytes: Option<&Bytes>) -> Result<Option<Bytes>, AllocError>
    ensures { IfOk result (λ copy. copy ≡ option_copied bytes.entry) }
{
    match bytes {
        None => Ok(None),
        Some(bytes) => Ok(Some(bytes.copy()?)),
    }
}

/// Reads a file, as far as the call is not to fail.
pub(crate) fn read_file(
    fail: Option<bool>,
    files: &FileMap,
    steps: &mut Steps,
    path: &Path,
) -> Result<Option<Bytes>, StoreError>
    ensures step { OnOk result (steps.new ≡ steps.old ++ own (act.Read path.now) ∷ []) }
    ensures found { IfOk result (λ found. found ≡ map.get files.now path.now) }
    ensures err { OnErr result (steps.new ≡ steps.old) }
    ensures answers { Answers fail result }
{
    if fail.is_some() {
        return Err(StoreError::Failed);
    }
    let found = copied(files.get(path))?;
    log(steps, Act::Read(path.copy()?))?;
    Ok(found)
}

/// Looks whether a file is there, as far as the call is not to fail.
pub(crate) fn has_file(
    fail: Option<bool>,
    files: &FileMap,
    steps: &mut Steps,
    path: &Path,
) -> Result<bool, StoreError>
    ensures step { OnOk result (steps.new ≡ steps.old ++ own (act.Read path.now) ∷ []) }
    ensures found { IfOk result (λ found. found ≡ is_some (map.get files.now path.now)) }
    ensures err { OnErr result (steps.new ≡ steps.old) }
    ensures answers { Answers fail result }
{
    if fail.is_some() {
        return Err(StoreError::Failed);
    }
    log(steps, Act::Read(path.copy()?))?;
    Ok(files.get(path).is_some())
}

/// Lists the names in a directory, as far as the call is not to fail.
pub(crate) fn list_files(
    fail: Option<bool>,
    files: &FileMap,
    steps: &mut Steps,
    dir: &Path,
) -> Result<Names, StoreError>
    ensures step { IfOk result (λ names. steps.new ≡ steps.old ++ own (act.List dir.now names) ∷ []) }
    ensures named { IfOk result (λ names. All (IsNameIn dir.now) names) }
    ensures lists { IfOk result (λ names. ListsNames dir.now names files.now []) }
    ensures err { OnErr result (steps.new ≡ steps.old) }
    ensures answers { Answers fail result }
{
    if fail.is_some() {
        return Err(StoreError::Failed);
    }
    let names = files.names(dir)?;
    log(steps, Act::List(dir.copy()?, names.copy()?))?;
    Ok(names)
}

/// Puts a file into the files and the step into the log, or neither.
fn write_file(
    alloc: Global,
    files: &mut FileMap,
    steps: &mut Steps,
    path: &Path,
    bytes: &[u8],
) -> Result<(), AllocError>
    ensures step { OnOk result (steps.new ≡ steps.old ++ own (act.Put path.now bytes.now) ∷ []) }
    ensures files { OnOk result (files.new ≡ map.insert files.old path.now bytes.now) }
    ensures no_step { OnErr result (steps.new ≡ steps.old) }
    ensures no_file { OnErr result (files.new ≡ files.old) }
{
    let act = Act::Put(path.copy()?, Bytes::of(alloc, bytes)?);
    let (key, value) = (path.copy()?, Bytes::of(alloc, bytes)?);
    log(steps, act)?;
    let inserted = files.insert(key, value);
    if inserted.is_err() {
        take_back(steps);
    }
    inserted
}

/// Puts a file, as far as the call is not to fail.
pub(crate) fn put_file(
    fail: Option<bool>,
    alloc: Global,
    files: &mut FileMap,
    steps: &mut Steps,
    path: &Path,
    bytes: &[u8],
) -> Result<(), StoreError>
    ensures step { steps.new ≡ (if is_made fail result then steps.old ++ own (act.Put path.now bytes.now) ∷ [] else steps.old) }
    ensures files { files.new ≡ (if is_made fail result then map.insert files.old path.now bytes.now else files.old) }
    ensures answers { AnswersPut fail result }
{
    if let Some(false) = fail {
        return Err(StoreError::Failed);
    }
    write_file(alloc, files, steps, path, bytes)?;
    if fail.is_some() {
        return Err(StoreError::Failed);
    }
    Ok(())
}

/// Logs a look at a file that isn't there, as far as the call is not to fail.
fn miss_file(fail: Option<bool>, steps: &mut Steps, path: &Path) -> Result<bool, StoreError>
    ensures found { IfOk result (λ found. found ≡ false) }
    ensures step { OnOk result (steps.new ≡ steps.old ++ own (act.Read path.now) ∷ []) }
    ensures err { OnErr result (steps.new ≡ steps.old) }
    ensures answers { Answers fail result }
{
    if fail.is_some() {
        return Err(StoreError::Failed);
    }
    log(steps, Act::Read(path.copy()?))?;
    Ok(false)
}

/// Moves a file and logs the step, or neither.
fn move_file(
    files: &mut FileMap,
    steps: &mut Steps,
    from: &Path,
    to: &Path,
) -> Result<(), AllocError>
    ensures step { OnOk result (steps.new ≡ steps.old ++ own (act.Move from.now to.now) ∷ []) }
    ensures files { OnOk result (files.new ≡ moved files.old from.now to.now (file_at files.old from.now)) }
    ensures no_step { OnErr result (steps.new ≡ steps.old) }
    ensures no_file { OnErr result (files.new ≡ files.old) }
{
    log(steps, Act::Move(from.copy()?, to.copy()?))?;
    match files.shift(from, to) {
        Ok(_) => Ok(()),
        Err(e) => {
            take_back(steps);
            Err(e)
        }
    }
}

/// Moves a file where it is there, as far as the call is not to fail.
pub(crate) fn shift_file(
    fail: Option<bool>,
    files: &mut FileMap,
    steps: &mut Steps,
    from: &Path,
    to: &Path,
) -> Result<bool, StoreError>
    ensures found { IfOk result (λ found. found ≡ is_some (file_at files.old from.now)) }
    ensures step { steps.new ≡ steps.old ++ own_all (acts_of fail (is_some (file_at files.old from.now)) (act.Move from.now to.now) (act.Read from.now) result) }
    ensures files { files.new ≡ replay files.old (own_all (acts_of fail (is_some (file_at files.old from.now)) (act.Move from.now to.now) (act.Read from.now) result)) }
    ensures answers { AnswersPut fail result }
{
    if let Some(false) = fail {
        return Err(StoreError::Failed);
    }
    if files.get(from).is_none() {
        return miss_file(fail, steps, from);
    }
    move_file(files, steps, from, to)?;
    if fail.is_some() {
        return Err(StoreError::Failed);
    }
    Ok(true)
}

/// Takes a file away and logs the step, or neither.
fn delete_file(files: &mut FileMap, steps: &mut Steps, path: &Path) -> Result<(), AllocError>
    ensures step { OnOk result (steps.new ≡ steps.old ++ own (act.Remove path.now) ∷ []) }
    ensures files { OnOk result (files.new ≡ map.remove files.old path.now) }
    ensures no_step { OnErr result (steps.new ≡ steps.old) }
    ensures no_file { OnErr result (files.new ≡ files.old) }
{
    log(steps, Act::Remove(path.copy()?))?;
    let _ = files.remove(path);
    Ok(())
}

/// Takes a file away where it is there, as far as the call is not to fail.
pub(crate) fn remove_file(
    fail: Option<bool>,
    files: &mut FileMap,
    steps: &mut Steps,
    path: &Path,
) -> Result<bool, StoreError>
    ensures found { IfOk result (λ found. found ≡ is_some (file_at files.old path.now)) }
    ensures step { steps.new ≡ steps.old ++ own_all (acts_of fail (is_some (file_at files.old path.now)) (act.Remove path.now) (act.Read path.now) result) }
    ensures files { files.new ≡ replay files.old (own_all (acts_of fail (is_some (file_at files.old path.now)) (act.Remove path.now) (act.Read path.now) result)) }
    ensures answers { AnswersPut fail result }
{
    if let Some(false) = fail {
        return Err(StoreError::Failed);
    }
    if files.get(path).is_none() {
        return miss_file(fail, steps, path);
    }
    delete_file(files, steps, path)?;
    if fail.is_some() {
        return Err(StoreError::Failed);
    }
    Ok(true)
}
