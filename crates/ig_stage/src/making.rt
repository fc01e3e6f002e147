//! Looks whether a stage can be made, and plans it. Nothing is put here.
ghost use Rattle.std.specs.Prelude.{◌≡◌, ◌≤◌, ◌^◌, ◌∷◌, ℕ, List as list, None, Some, length, option_map, IfOk, OnOk};
ghost use Rattle.ig_space.specs.Path.{joined};
ghost use Rattle.ig_defs.specs.Files.{file_at};
ghost use Rattle.ig_defs.specs.Log.{files_of};
ghost use Rattle.ig_defs.specs.Names.{IsNameIn};
ghost use Rattle.ig_defs.specs.Own.{Moment};
ghost use Rattle.ig_meaning.specs.Making.{making_of_request, making_of_dirs, making_of_fit, making_of_info, making_of_plan, fresh_info, Making};
ghost use Rattle.ig_meaning.specs.Plan.{info_path, planned, stage_of_found};
ghost use Rattle.ig_meaning.specs.QueueApart.{AreLayersApart};
ghost use Rattle.ig_record.specs.Columns.{output_dirs};
ghost use Rattle.ig_meaning.specs.Taken.{taken_by, unfit_after};
ghost use Rattle.ig_meaning.specs.Words.{Request as Asked};
ghost use Rattle.ig_record.specs.declared.stage.Stage as meaning;
ghost use Rattle.ig_task.specs.Pipeline.{is_allowed};
ghost use Rattle.ig_stage.specs.Drafts.{CanRun, IsDraft};
ghost use Rattle.ig_stage.specs.Errors.{ending_of, HasCauseFor};
ghost use Rattle.ig_stage.specs.Free.{AreEmptyDirs, HasNoInfo, IsEmptyDir, IsFree, IsPlanned, KnowsQueue};
ghost use Rattle.ig_stage.specs.Looking.{Looks};
ghost use Rattle.ig_stage.specs.Making.{JudgesFit};
ghost use Rattle.ig_stage.specs.Pipeline.{local_rule};
ghost use Rattle.ig_stage.specs.Requests.{shown_request, HasLimits};

use crate::calls::{has, names, read};
use crate::planning::{check_fit, info_file, plan};
use crate::taking::taker;
use crate::{MakeError, Request, Stages};
use ig_record::{InfoFile, Kind, Stage, dirs};
use ig_space::{Bytes, Path, Paths, Text, TryClone};
use ig_store::Store;
use ig_task::Pipeline;
use std::alloc::{AllocError, Global};

/// Reads the info file of the source.
fn read_source<S: Store<Pipeline>>(
    alloc: Global,
    store: &mut S,
    source: &Path,
) -> Result<Bytes, MakeError>
    requires short { length source.now ≤ 100 }
    ensures rule { S.rule store.new ≡ S.rule store.old }
    ensures cause { HasCauseFor (S.faults store.old) (S.faults store.new) (ending_of result) }
    ensures found { S.tells → S.rule store.old ≡ local_rule → IfOk result (λ bytes. file_at (files_of (S.log store.old)) (info_path source.now) ≡ Some bytes) }
    ensures looks { S.tells → (earlier : list meaning.Stage) (planned_as : meaning.Stage → list Moment → Making) (request : Asked) → request.source ≡ source.now → Looks (is_allowed (S.rule store.old)) (making_of_request earlier planned_as request) (λ bytes. making_of_plan earlier planned_as (planned earlier request bytes)) (S.log store.old) (S.log store.new) result }
{
    let path = info_file(alloc, source)?;
    match read(store, &path)? {
        Some(bytes) => Ok(bytes),
        None => Err(MakeError::Missing { path }),
    }
}

/// The file of a name that was listed in a directory.
fn name_in(alloc: Global, dir: &Path, name: &Text) -> Result<Path, AllocError>
    requires { IsNameIn dir.now name.now }
    ensures { IfOk result (λ path. path ≡ joined dir.now name.now) }
{
    let text = format!(in alloc; "{}/{}", dir.as_str(), name.as_str())?;
    Ok(Path::new(alloc, text.as_str())?.unwrap())
}

/// The info that has to be new, if there is one.
fn fresh_info(stage: &Stage) -> Option<&InfoFile>
    ensures { option_map (λ info. info.now) result ≡ fresh_info stage.now }
{
    match stage.kind {
        Kind::Xfer | Kind::Relabel => stage.info.as_ref(),
        Kind::Downsample | Kind::Faces | Kind::Links | Kind::Labels => None,
        Kind::Count | Kind::Sum | Kind::Remove => None,
    }
}

/// Looks whether the info that the stage puts is absent, where it has to be new.
fn check_info<S: Store<Pipeline>>(store: &mut S, stage: &Stage) -> Result<(), MakeError>
    ensures rule { S.rule store.new ≡ S.rule store.old }
    ensures cause { HasCauseFor (S.faults store.old) (S.faults store.new) (ending_of result) }
    ensures absent { S.tells → OnOk result (HasNoInfo stage.now (files_of (S.log store.new))) }
    ensures looks { S.tells → (earlier : list meaning.Stage) (planned_as : meaning.Stage → list Moment → Making) → Looks (is_allowed (S.rule store.old)) (making_of_info earlier planned_as stage.now (fresh_info stage.now)) (λ done. making_of_dirs earlier planned_as stage.now (output_dirs stage.now)) (S.log store.old) (S.log store.new) result }
{
    let Some(info) = fresh_info(stage) else {
        return Ok(());
    };
    if has(store, &info.path)? {
        return Err(MakeError::DestNotEmpty {
            path: info.path.copy()?,
        });
    }
    Ok(())
}

/// Looks whether an output directory has no files.
fn check_dir<S: Store<Pipeline>>(alloc: Global, store: &mut S, dir: &Path) -> Result<(), MakeError>
    ensures rule { S.rule store.new ≡ S.rule store.old }
    ensures cause { HasCauseFor (S.faults store.old) (S.faults store.new) (ending_of result) }
    ensures empty { S.tells → (q : list ℕ) (stages : list meaning.Stage) → KnowsQueue (S.rule store.old) q stages (files_of (S.log store.old)) → OnOk result (IsEmptyDir q stages dir.now (files_of (S.log store.new))) }
    ensures looks { S.tells → (earlier : list meaning.Stage) (planned_as : meaning.Stage → list Moment → Making) (s : meaning.Stage) (rest : list (list ℕ)) → Looks (is_allowed (S.rule store.old)) (making_of_dirs earlier planned_as s (dir.now ∷ rest)) (λ done. making_of_dirs earlier planned_as s rest) (S.log store.old) (S.log store.new) result }
{
    let given = names(store, dir)?;
    match given.get(0) {
        Some(name) => Err(MakeError::DestNotEmpty {
            path: name_in(alloc, dir, name)?,
        }),
        None => Ok(()),
    }
}

/// Looks whether these output directories have no files.
fn check_dirs<S: Store<Pipeline>>(
    alloc: Global,
    store: &mut S,
    dirs: &Paths,
) -> Result<(), MakeError>
    ensures rule { S.rule store.new ≡ S.rule store.old }
    ensures cause { HasCauseFor (S.faults store.old) (S.faults store.new) (ending_of result) }
    ensures empty { S.tells → (q : list ℕ) (stages : list meaning.Stage) → KnowsQueue (S.rule store.old) q stages (files_of (S.log store.old)) → OnOk result (AreEmptyDirs q stages dirs.now (files_of (S.log store.new))) }
    ensures looks { S.tells → (earlier : list meaning.Stage) (planned_as : meaning.Stage → list Moment → Making) (s : meaning.Stage) → Looks (is_allowed (S.rule store.old)) (making_of_dirs earlier planned_as s dirs.now) (λ done. making_of_fit planned_as s (unfit_after earlier s)) (S.log store.old) (S.log store.new) result }
{
    for dir in dirs.as_slice() {
        check_dir(alloc, store, dir)?;
    }
    Ok(())
}

/// Whether the stage, which writes in these directories, can be made after these earlier ones: none of them has one of its
/// directories, and it can be run.
fn check_after(earlier: &Stages, new: &Stage, dirs: &Paths) -> Result<(), MakeError>
    requires few { length earlier.now ≤ 10 ^ 4 }
    requires draft { IsDraft new.now }
    requires dirs { dirs.now ≡ output_dirs new.now }
    ensures judged { JudgesFit (unfit_after earlier.now new.now) result }
    ensures not_taken { OnOk result (taken_by earlier.now new.now ≡ None) }
    ensures can_run { OnOk result (CanRun new.now) }
{
    if let Some(stage) = taker(earlier, new, dirs) {
        return Err(MakeError::Taken { stage });
    }
    check_fit(new)
}

/// Looks whether the stage that the request asks for can be made after these earlier ones of a queue, and plans it.
pub fn check<S: Store<Pipeline>>(
    alloc: Global,
    store: &mut S,
    request: &Request,
    earlier: &Stages,
) -> Result<Stage, MakeError>
    requires limits { HasLimits request.now }
    requires few { length earlier.now ≤ 10 ^ 4 }
    ensures rule { S.rule store.new ≡ S.rule store.old }
    ensures cause { HasCauseFor (S.faults store.old) (S.faults store.new) (ending_of result) }
    ensures can_run { IfOk result CanRun }
    ensures planned { IfOk result (IsPlanned earlier.now (shown_request request.now)) }
    ensures not_taken { IfOk result (λ stage. taken_by earlier.now stage ≡ None) }
    ensures looks { S.tells → (planned_as : meaning.Stage → list Moment → Making) → Looks (is_allowed (S.rule store.old)) (making_of_request earlier.now planned_as (shown_request request.now)) planned_as (S.log store.old) (S.log store.new) result }
    ensures found { S.tells → S.rule store.old ≡ local_rule → IfOk result (λ stage. stage_of_found earlier.now (shown_request request.now) (file_at (files_of (S.log store.old)) (info_path request.now.source)) ≡ Some stage) }
    ensures free { S.tells → (q : list ℕ) → AreLayersApart q (shown_request request.now) → KnowsQueue (S.rule store.old) q earlier.now (files_of (S.log store.old)) → IfOk result (λ stage. IsFree q earlier.now stage (files_of (S.log store.new))) }
{
    let bytes = read_source(alloc, store, &request.source)?;
    let stage = plan(alloc, request, earlier, &bytes)?;
    let dirs = dirs(alloc, &stage)?;
    check_info(store, &stage)?;
    check_dirs(alloc, store, &dirs)?;
    check_after(earlier, &stage, &dirs)?;
    Ok(stage)
}
