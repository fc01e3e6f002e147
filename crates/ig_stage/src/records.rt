//! Reads the stages that a queue records.
ghost use Rattle.std.specs.Prelude.{◌≡◌, ◌≤◌, ◌<◌, ◌^◌, List as list, length, Some, true, All, IfOk, IfSome, IfErr};
ghost use Rattle.ig_defs.specs.Log.{files_of};
ghost use Rattle.ig_defs.specs.Own.{Moment};
ghost use Rattle.ig_record.specs.Sound.{is_sound};
ghost use Rattle.ig_record.specs.declared.stage.Stage.{Stage as Recorded};
ghost use Rattle.ig_rule.specs.Facts.{KindLaws};
ghost use Rattle.ig_rule.specs.Sound.{Sound};
ghost use Rattle.ig_rule.specs.declared.role.Role.TheVariants.{Maker};
ghost use Rattle.ig_meaning.specs.Making.{Making};
ghost use Rattle.ig_meaning.specs.QueueMaking.{beyond, making_of_queue, record_count, stage_named, stages_of};
ghost use Rattle.ig_task.specs.Facts.{stage_reader};
ghost use Rattle.ig_task.specs.Maker.{KnowsStages};
ghost use Rattle.ig_task.specs.Pipeline.{is_allowed};
ghost use Rattle.ig_stage.specs.Errors.{ending_of, HasCauseFor};
ghost use Rattle.ig_stage.specs.Looking.{Looks};
ghost use Rattle.ig_stage.specs.Recorded.{FindsRecord, FindsRecords, GivesStage, GivesStages, IsMaking, LooksAtRecord, LooksAtRecords};

use crate::MakeError;
use crate::calls::{names, read};
use ig_queue::{parse_stage_name, record_path, stages_dir};
use ig_record::{RecordError, Stage, read_stage};
use ig_space::{Bytes, List, Names, Path, Text};
use ig_store::Store;
use ig_task::Pipeline;
use std::alloc::Global;

/// Stages, in the order of their numbers.
pub type Stages = List<Stage>;

/// The texts of records, in the order of their numbers.
type Texts = List<Bytes>;

/// The stage whose record has this name.
fn stage_of(name: &Text) -> Option<u32>
    ensures stage { result ≡ stage_named name.now }
    ensures few { IfSome result (λ stage. stage < 10 ^ 4) }
{
    parse_stage_name(name.as_str())
}

/// The count, or one more than the number of a stage, whichever is more.
fn beyond(stage: Option<u32>, count: u32) -> u32
    requires stage { IfSome stage (λ stage. stage < 10 ^ 4) }
    requires count { count ≤ 10 ^ 4 }
    ensures more { result ≡ beyond stage count }
    ensures few { result ≤ 10 ^ 4 }
{
    match stage {
        Some(stage) => count.max(stage + 1),
        None => count,
    }
}

/// One more than the highest number that a name of a record has.
fn record_count(names: &Names) -> u32
    ensures count { result ≡ record_count names.now }
    ensures few { result ≤ 10 ^ 4 }
{
    let mut count = 0;
    for name in names.as_slice() {
        count = beyond(stage_of(name), count);
    }
    count
}

/// The stage of this record.
fn parse_text(alloc: Global, queue: &Path, number: u32, text: &Bytes) -> Result<Stage, MakeError>
    requires short { length queue.now ≤ 100 }
    requires below { number < 10 ^ 4 }
    ensures given { GivesStage queue.now number text.now result }
    ensures sound { IfOk result (λ stage. is_sound stage ≡ true) }
{
    match read_stage(alloc, number, text.as_bytes()) {
        Ok(stage) => Ok(stage),
        Err(RecordError::BadRecord { member }) => Err(MakeError::BadRecord {
            path: record_path(alloc, queue, number)?,
            member,
        }),
        Err(RecordError::Memory) => Err(MakeError::Memory),
    }
}

/// The stages of these records, the first of which has number 0.
fn parse_texts(alloc: Global, queue: &Path, texts: &Texts) -> Result<Stages, MakeError>
    requires short { length queue.now ≤ 100 }
    requires few { length texts.now ≤ 10 ^ 4 }
    ensures given { GivesStages result (stages_of queue.now 0 texts.now) }
    ensures few { IfOk result (λ stages. length stages ≤ 10 ^ 4) }
    ensures sound { IfOk result (All (λ stage. is_sound stage ≡ true)) }
{
    let mut stages = Stages::new(alloc);
    for text in texts.as_slice() {
        let number = stages.len() as u32;
        stages.push(parse_text(alloc, queue, number, text)?)?;
    }
    Ok(stages)
}

/// The text of the record with this number.
fn read_record<S: Store<Pipeline>>(
    alloc: Global,
    store: &mut S,
    queue: &Path,
    number: u32,
) -> Result<Bytes, MakeError>
    requires short { length queue.now ≤ 100 }
    requires below { number < 10 ^ 4 }
    ensures rule { S.rule store.new ≡ S.rule store.old }
    ensures cause { HasCauseFor (S.faults store.old) (S.faults store.new) (ending_of result) }
    ensures looks { S.tells → LooksAtRecord (is_allowed (S.rule store.old)) queue.now number (S.log store.old) (S.log store.new) result }
    ensures known { S.tells → IsMaking (S.rule store.old) queue.now (files_of (S.log store.old)) → IfOk result (FindsRecord queue.now number (files_of (S.log store.old)) (files_of (S.log store.new))) }
{
    let path = record_path(alloc, queue, number)?;
    match read(store, &path)? {
        Some(text) => Ok(text),
        None => Err(MakeError::Absent { path }),
    }
}

/// The texts of the records below this number, in order.
fn read_texts<S: Store<Pipeline>>(
    alloc: Global,
    store: &mut S,
    queue: &Path,
    count: u32,
) -> Result<Texts, MakeError>
    requires short { length queue.now ≤ 100 }
    requires few { count ≤ 10 ^ 4 }
    ensures rule { S.rule store.new ≡ S.rule store.old }
    ensures cause { HasCauseFor (S.faults store.old) (S.faults store.new) (ending_of result) }
    ensures count { IfOk result (λ texts. length texts ≡ count) }
    ensures looks { S.tells → LooksAtRecords (is_allowed (S.rule store.old)) queue.now count (S.log store.old) (S.log store.new) result }
    ensures known { S.tells → IsMaking (S.rule store.old) queue.now (files_of (S.log store.old)) → IfOk result (FindsRecords queue.now (files_of (S.log store.old)) (files_of (S.log store.new))) }
{
    let mut texts = Texts::new(alloc);
    for number in 0..count {
        texts.push(read_record(alloc, store, queue, number)?)?;
    }
    Ok(texts)
}

/// The stages that a queue records, in the order of their numbers. `Absent` is the first record below the highest number
/// that isn't there; once all were read, `BadRecord` is the first that is no record.
pub(crate) fn read_records<S: Store<Pipeline>>(
    alloc: Global,
    store: &mut S,
    queue: &Path,
) -> Result<Stages, MakeError>
    requires short { length queue.now ≤ 100 }
    ensures rule { S.rule store.new ≡ S.rule store.old }
    ensures cause { HasCauseFor (S.faults store.old) (S.faults store.new) (ending_of result) }
    ensures looks { S.tells → (next : list Recorded → list Moment → Making) → Looks (is_allowed (S.rule store.old)) (making_of_queue queue.now next) next (S.log store.old) (S.log store.new) result }
    ensures few { IfOk result (λ stages. length stages ≤ 10 ^ 4) }
    ensures sound { IfOk result (All (λ stage. is_sound stage ≡ true)) }
    ensures known { S.tells → S.rule store.old ≡ record { queue = Some queue.now; role = Maker } → KindLaws stage_reader → Sound stage_reader queue.now (files_of (S.log store.old)) → IfOk result (λ stages. KnowsStages queue.now stages (files_of (S.log store.new))) }
{
    let dir = stages_dir(alloc, queue)?;
    let listed = names(store, &dir)?;
    let texts = read_texts(alloc, store, queue, record_count(&listed))?;
    parse_texts(alloc, queue, &texts)
}
