//! Makes a stage in a queue: a new one after those that are recorded, or the rest of the last one.
ghost use Rattle.std.specs.Prelude.{◌≡◌, ◌≤◌, ◌<◌, ◌^◌, ◌-◌, List as list, [], ◌∷◌, length, slice_get, Some, true, false, All, IfErr, IfOk, IfSome};
ghost use Rattle.ig_defs.specs.Calls.{HasCause};
ghost use Rattle.ig_defs.specs.Log.{files_of};
ghost use Rattle.ig_defs.specs.Own.{steps_since};
ghost use Rattle.ig_meaning.specs.Making.{New};
ghost use Rattle.ig_meaning.specs.QueueActs.{put_of, record_file};
ghost use Rattle.ig_meaning.specs.QueueMaking.{making_of_new};
ghost use Rattle.ig_meaning.specs.QueueApart.{AreLayersApart};
ghost use Rattle.ig_meaning.specs.QueueWords.{is_apart};
ghost use Rattle.ig_record.specs.Sound.{is_sound};
ghost use Rattle.ig_record.specs.declared.stage.Stage.{Stage as Recorded};
ghost use Rattle.ig_rule.specs.Sound.{Legal};
ghost use Rattle.ig_space.specs.Path.{is_path};
ghost use Rattle.ig_task.specs.Facts.{stage_reader};
ghost use Rattle.ig_task.specs.Pipeline.{is_allowed};
ghost use Rattle.ig_stage.specs.CanMake.{AllOwn, CanMake, IsNoRefusal};
ghost use Rattle.ig_stage.specs.Errors.{ending_of, ending_of_make, HasCauseFor};
ghost use Rattle.ig_stage.specs.Made.{IsSealed, MakesBy, MakesIn, MayRecord};
ghost use Rattle.ig_stage.specs.Open.{maker_rule, Does, DoesSome, IsOpen};
ghost use Rattle.ig_stage.specs.Recorded.{continues, FindsSeal};
ghost use Rattle.ig_stage.specs.Requests.{shown_request, HasLimits};

use crate::calls::put;
use crate::continuing::{continue_unsealed, fill_new};
use crate::making::check;
use crate::records::read_records;
use crate::seal::last_is_sealed;
use crate::{MakeError, Request, Stages};
use ig_queue::record_path;
use ig_record::{Kind, Stage, write_stage};
use ig_space::Path;
use ig_store::{Store, StoreError};
use ig_task::Pipeline;
use std::alloc::Global;

/// The stage that was made, a new one or the last one, which was not sealed: its number, what it does and how many tasks it has.
#[derive(Clone, Copy, Debug, PartialEq, Eq)]
pub enum Made {
    New { stage: u32, kind: Kind, tasks: u32 },
    Continued { stage: u32, kind: Kind, tasks: u32 },
}

/// Puts the record of a new stage.
fn put_record<S: Store<Pipeline>>(
    alloc: Global,
    store: &mut S,
    queue: &Path,
    number: u32,
    stage: &Stage,
) -> Result<(), StoreError>
    requires short { length queue.now ≤ 100 }
    requires few { number < 10 ^ 4 }
    requires sound { is_sound stage.now ≡ true }
    ensures rule { S.rule store.new ≡ S.rule store.old }
    ensures cause { HasCause (S.faults store.old) (S.faults store.new) result }
    ensures acts { S.tells → IfOk result (λ done. Does (is_allowed (S.rule store.old)) (S.log store.old) (S.log store.new) (put_of (record_file queue.now number stage.now) ∷ [])) }
    ensures some { S.tells → DoesSome (is_allowed (S.rule store.old)) (S.log store.old) (S.log store.new) }
    ensures legal { S.tells → (stages : list Recorded) → MayRecord (S.rule store.old) queue.now number stages stage.now (S.log store.old) → Legal stage_reader queue.now (S.log store.new) }
    ensures opens { S.tells → (stages : list Recorded) → MayRecord (S.rule store.old) queue.now number stages stage.now (S.log store.old) → IfOk result (λ done. IsOpen queue.now number stage.now (files_of (S.log store.new))) }
{
    let path = record_path(alloc, queue, number)?;
    let text = write_stage(alloc, number, stage)?;
    put(store, &path, text.as_bytes())
}

/// Makes a new stage: its record, its info, the names of its tasks and its seal.
fn make_new<S: Store<Pipeline>>(
    alloc: Global,
    store: &mut S,
    queue: &Path,
    number: u32,
    stage: &Stage,
) -> Result<Made, MakeError>
    requires short { length queue.now ≤ 100 }
    requires few { number < 10 ^ 4 }
    requires sound { is_sound stage.now ≡ true }
    ensures rule { S.rule store.new ≡ S.rule store.old }
    ensures cause { HasCauseFor (S.faults store.old) (S.faults store.new) (ending_of result) }
    ensures made { S.tells → MakesBy (is_allowed (S.rule store.old)) queue.now (New number stage.now) (S.log store.old) (S.log store.new) result }
    ensures legal { S.tells → (stages : list Recorded) → MayRecord (S.rule store.old) queue.now number stages stage.now (S.log store.old) → Legal stage_reader queue.now (S.log store.new) }
    ensures sealed { S.tells → (stages : list Recorded) → MayRecord (S.rule store.old) queue.now number stages stage.now (S.log store.old) → IfOk result (IsSealed queue.now (files_of (S.log store.new))) }
{
    put_record(alloc, store, queue, number, stage)?;
    fill_new(alloc, store, queue, number, stage)?;
    Ok(Made::New {
        stage: number,
        kind: stage.kind,
        tasks: stage.tasks(),
    })
}

/// Makes a new stage after these, which are all sealed.
fn make_after<S: Store<Pipeline>>(
    alloc: Global,
    store: &mut S,
    queue: &Path,
    want: &Request,
    stages: &Stages,
) -> Result<Made, MakeError>
    requires limits { HasLimits want.now }
    requires short { length queue.now ≤ 100 }
    requires few { length stages.now ≤ 10 ^ 4 }
    ensures rule { S.rule store.new ≡ S.rule store.old }
    ensures cause { HasCauseFor (S.faults store.old) (S.faults store.new) (ending_of result) }
    ensures made { S.tells → MakesBy (is_allowed (S.rule store.old)) queue.now (making_of_new (shown_request want.now) stages.now) (S.log store.old) (S.log store.new) result }
    ensures legal { S.tells → S.rule store.old ≡ maker_rule queue.now → AreLayersApart queue.now (shown_request want.now) → All (λ stage. is_sound stage ≡ true) stages.now → FindsSeal queue.now stages.now (files_of (S.log store.old)) true → Legal stage_reader queue.now (S.log store.old) → Legal stage_reader queue.now (S.log store.new) }
    ensures sealed { S.tells → S.rule store.old ≡ maker_rule queue.now → AreLayersApart queue.now (shown_request want.now) → All (λ stage. is_sound stage ≡ true) stages.now → FindsSeal queue.now stages.now (files_of (S.log store.old)) true → Legal stage_reader queue.now (S.log store.old) → IfOk result (IsSealed queue.now (files_of (S.log store.new))) }
{
    let number = stages.len() as u32;
    if number >= 10000 {
        return Err(MakeError::TooManyStages { count: number });
    }
    let stage = check(alloc, store, want, stages)?;
    make_new(alloc, store, queue, number, &stage)
}

/// The last of these stages.
fn last(stages: &Stages) -> &Stage
    requires some { 0 < length stages.now }
    requires sound { All (λ stage. is_sound stage ≡ true) stages.now }
    ensures last { slice_get stages.now (length stages.now - 1) ≡ Some result.now }
    ensures sound { is_sound result.now ≡ true }
{
    stages.get(stages.len() - 1).unwrap()
}

/// Makes the rest of the last of these stages, which is not sealed.
fn continue_last<S: Store<Pipeline>>(
    alloc: Global,
    store: &mut S,
    queue: &Path,
    stages: &Stages,
) -> Result<Made, MakeError>
    requires short { length queue.now ≤ 100 }
    requires some { 0 < length stages.now }
    requires few { length stages.now ≤ 10 ^ 4 }
    requires sound { All (λ stage. is_sound stage ≡ true) stages.now }
    ensures rule { S.rule store.new ≡ S.rule store.old }
    ensures cause { HasCauseFor (S.faults store.old) (S.faults store.new) (ending_of result) }
    ensures made { S.tells → MakesBy (is_allowed (S.rule store.old)) queue.now (continues stages.now) (S.log store.old) (S.log store.new) result }
    ensures legal { S.tells → S.rule store.old ≡ maker_rule queue.now → FindsSeal queue.now stages.now (files_of (S.log store.old)) false → Legal stage_reader queue.now (S.log store.old) → Legal stage_reader queue.now (S.log store.new) }
    ensures sealed { S.tells → S.rule store.old ≡ maker_rule queue.now → FindsSeal queue.now stages.now (files_of (S.log store.old)) false → Legal stage_reader queue.now (S.log store.old) → IfOk result (IsSealed queue.now (files_of (S.log store.new))) }
{
    let number = stages.len() as u32 - 1;
    let stage = last(stages);
    continue_unsealed(alloc, store, queue, number, stage)?;
    Ok(Made::Continued {
        stage: number,
        kind: stage.kind,
        tasks: stage.tasks(),
    })
}

/// Makes the stage that is wanted in a queue, after those that are recorded there; where the last of them is not sealed, makes
/// the rest of that one in place of it.
pub fn make<S: Store<Pipeline>>(
    alloc: Global,
    store: &mut S,
    queue: &Path,
    want: &Request,
) -> Result<Made, MakeError>
    requires rule { S.rule store.old ≡ maker_rule queue.now }
    requires limits { HasLimits want.now }
    requires short { length queue.now ≤ 100 }
    requires source_apart { is_apart queue.now want.now.source ≡ true }
    requires dest_apart { IfSome want.now.dest (λ dest. is_apart queue.now dest ≡ true) }
    ensures rule { S.rule store.new ≡ S.rule store.old }
    ensures cause { HasCauseFor (S.faults store.old) (S.faults store.new) (ending_of result) }
    ensures made { S.tells → MakesIn queue.now (shown_request want.now) (S.log store.old) (S.log store.new) result }
    ensures legal { S.tells → Legal stage_reader queue.now (S.log store.old) → Legal stage_reader queue.now (S.log store.new) }
    ensures sealed { S.tells → Legal stage_reader queue.now (S.log store.old) → IfOk result (IsSealed queue.now (files_of (S.log store.new))) }
    ensures complete { S.tells → is_path queue.now ≡ true → CanMake queue.now (shown_request want.now) (files_of (S.log store.old)) → AllOwn (steps_since (S.log store.old) (S.log store.new)) → IfErr result (λ e. IsNoRefusal (ending_of_make e)) }
{
    let stages = read_records(alloc, store, queue)?;
    if last_is_sealed(alloc, store, queue, &stages)? {
        return make_after(alloc, store, queue, want, &stages);
    }
    continue_last(alloc, store, queue, &stages)
}
