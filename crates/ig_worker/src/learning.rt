//! Lists the stages of a queue, and reads the records of those that are not known.
ghost use Rattle.std.specs.Prelude.{◌≡◌, ◌≤◌, ◌<◌, ◌^◌, ◌++◌, [], length, true, All, IfOk, IfErr, IfSome, OnOk};
ghost use Rattle.ig_defs.specs.Causes.{Rose};
ghost use Rattle.ig_record.specs.Sound.{is_sound};
ghost use Rattle.ig_meaning.specs.QueueMaking.{stage_named};
ghost use Rattle.ig_task.specs.Pipeline.{is_allowed};
ghost use Rattle.ig_worker.specs.declared.error.WorkerError.TheVariants as worker;
ghost use Rattle.ig_worker.specs.declared.notes.Notes.{Notes as Noted};
ghost use Rattle.ig_worker.specs.declared.phase.Phase.TheVariants.{Learning};
ghost use Rattle.ig_worker.specs.Fit.{AreFitNotes, AreStages, IsFitPhase, IsFitThen};
ghost use Rattle.ig_worker.specs.Learning.{GivesRecord, GivesStage, IsRecordOf};
ghost use Rattle.ig_worker.specs.Led.{Goes, Led};
ghost use Rattle.ig_worker.specs.Moves.{ListsStages, ReadsRecord};
ghost use Rattle.ig_worker.specs.Places.{learning, learnt_all, round_of};
ghost use Rattle.ig_worker.specs.Stages.{open_names, unknown_listed, unknown_named, with_unknown};

use crate::calls::{names, read};
use crate::stages::open_names;
use crate::{Ahead, Next, Notes, Phase, Records, Then, Turn, WorkerError};
use ig_queue::{Candidates, parse_stage_name, record_path, stages_dir};
use ig_record::{RecordError, Stage, read_stage};
use ig_space::{Bytes, Names, Path, Text};
use ig_store::Store;
use ig_task::Pipeline;
use std::alloc::{AllocError, Global};

/// The stage whose record has this name.
fn stage_named(name: &Text) -> Option<u32>
    ensures stage { result ≡ stage_named name.now }
    ensures few { IfSome result (λ stage. stage < 10 ^ 4) }
{
    parse_stage_name(name.as_str())
}

/// Adds the number of a stage that is not known.
fn add_unknown(
    known: &Records,
    unread: &mut Ahead<u32>,
    stage: Option<u32>,
) -> Result<(), AllocError>
    requires stage { IfSome stage (λ stage. stage < 10 ^ 4) }
    requires few { All (λ number. number < 10 ^ 4) unread.old }
    ensures added { OnOk result (unread.new ≡ unread.old ++ with_unknown known.now stage []) }
    ensures few { All (λ number. number < 10 ^ 4) unread.new }
{
    if let Some(number) = stage {
        if known.find(number).is_none() {
            unread.push(number)?;
        }
    }
    Ok(())
}

/// Of the stages that a listing shows, those that are not known.
pub(crate) fn unknown_listed(
    alloc: Global,
    known: &Records,
    names: &Names,
) -> Result<Ahead<u32>, AllocError>
    ensures numbers { IfOk result (λ unread. unread ≡ unknown_listed known.now names.now) }
    ensures few { IfOk result (All (λ number. number < 10 ^ 4)) }
{
    let mut unread = Ahead::new(alloc);
    for name in names.as_slice() {
        add_unknown(known, &mut unread, stage_named(name))?;
    }
    Ok(unread)
}

/// Of the stages whose tasks these are, those that are not known, each once.
pub(crate) fn unknown_named(
    alloc: Global,
    known: &Records,
    names: &Candidates,
) -> Result<Ahead<u32>, AllocError>
    ensures { IfOk result (λ unread. unread ≡ unknown_named known.now names.now) }
{
    let mut unread = Ahead::new(alloc);
    let mut last = None;
    for name in names.as_slice() {
        if known.find(name.stage).is_none() && last != Some(name.stage) {
            unread.push(name.stage)?;
            last = Some(name.stage);
        }
    }
    Ok(unread)
}

/// A round over these names: those whose tasks may be run are tried.
fn round(alloc: Global, known: &Records, names: &Candidates) -> Result<Phase, AllocError>
    requires { AreStages known.now }
    ensures { IfOk result (λ phase. phase ≡ round_of (open_names known.now names.now)) }
{
    let names = open_names(alloc, known, names)?;
    if names.is_empty() {
        Ok(Phase::Closing)
    } else {
        Ok(Phase::Trying { names })
    }
}

/// Where a worker goes on once it has read all records.
fn learnt_all(alloc: Global, known: &Records, then: Then) -> Result<Phase, AllocError>
    requires { AreStages known.now }
    ensures { IfOk result (λ phase. phase ≡ learnt_all known.now then) }
{
    match then {
        Then::Ask => Ok(Phase::Asking),
        Then::Try { names } => round(alloc, known, &names),
        Then::Count => Ok(Phase::ListingDead),
    }
}

/// Where it goes on while these records are still to be read.
pub(crate) fn learning(
    alloc: Global,
    known: &Records,
    unread: Ahead<u32>,
    then: Then,
) -> Result<Phase, AllocError>
    requires known { AreStages known.now }
    requires few { All (λ number. number < 10 ^ 4) unread }
    ensures phase { IfOk result (λ phase. phase ≡ learning known.now unread then) }
    ensures fits { (notes : Noted) → notes.known ≡ known.now → IsFitThen notes.at then → IfOk result (IsFitPhase notes) }
{
    if unread.is_empty() {
        learnt_all(alloc, known, then)
    } else {
        Ok(Phase::Learning { unread, then })
    }
}

/// Lists the stages, and goes on with the records of those that are not known.
pub(crate) fn list_stages<S: Store<Pipeline>>(
    alloc: Global,
    store: &mut S,
    notes: &Notes,
    then: Then,
) -> Result<Next, WorkerError>
    requires notes { AreFitNotes notes.now }
    requires fits { IsFitThen notes.now.at then }
    ensures rule { S.rule store.new ≡ S.rule store.old }
    ensures later { S.faults store.old ≤ S.faults store.new }
    ensures failed { IfErr result (λ e. e ≡ worker.Failed → Rose (S.faults store.old) (S.faults store.new)) }
    ensures fits { IfOk result (λ next. IsFitPhase notes.now next.phase) }
    ensures goes { IfOk result (Goes (ListsStages notes.now then) notes.now) }
    ensures went { S.tells → Led (is_allowed (S.rule store.old)) (S.log store.old) (S.log store.new) (ListsStages notes.now then) notes.now notes.now result }
{
    let dir = stages_dir(alloc, &notes.plan.queue)?;
    let listed = names(store, &dir)?;
    let unread = unknown_listed(alloc, &notes.known, &listed)?;
    let phase = learning(alloc, &notes.known, unread, then)?;
    Ok(Next {
        phase,
        turn: Turn::On,
    })
}

/// The stage of this record, which was found at this path.
fn parse_record(alloc: Global, path: Path, number: u32, text: &Bytes) -> Result<Stage, WorkerError>
    ensures given { GivesStage path number text.now result }
    ensures sound { IfOk result (λ stage. is_sound stage ≡ true) }
{
    match read_stage(alloc, number, text.as_bytes()) {
        Ok(stage) => Ok(stage),
        Err(RecordError::BadRecord { member }) => Err(WorkerError::BadRecord { path, member }),
        Err(RecordError::Memory) => Err(WorkerError::Memory),
    }
}

/// Reads the record of the stage with this number.
fn read_record<S: Store<Pipeline>>(
    alloc: Global,
    store: &mut S,
    queue: &Path,
    number: u32,
) -> Result<Stage, WorkerError>
    requires short { length queue.now ≤ 100 }
    requires below { number < 10 ^ 4 }
    ensures rule { S.rule store.new ≡ S.rule store.old }
    ensures later { S.faults store.old ≤ S.faults store.new }
    ensures failed { IfErr result (λ e. e ≡ worker.Failed → Rose (S.faults store.old) (S.faults store.new)) }
    ensures sound { IfOk result (λ stage. is_sound stage ≡ true) }
    ensures found { IfOk result (IsRecordOf number) }
    ensures given { S.tells → GivesRecord (is_allowed (S.rule store.old)) (S.log store.old) (S.log store.new) queue.now number result }
{
    let path = record_path(alloc, queue, number)?;
    match read(store, &path)? {
        Some(text) => parse_record(alloc, path, number, &text),
        None => Err(WorkerError::Absent { path }),
    }
}

/// Reads the first of these records, notes its stage, and goes on. `Absent`, where it isn't there; `BadRecord`, where it is
/// none.
pub(crate) fn learn<S: Store<Pipeline>>(
    alloc: Global,
    store: &mut S,
    notes: &mut Notes,
    mut unread: Ahead<u32>,
    then: Then,
) -> Result<Next, WorkerError>
    requires notes { AreFitNotes notes.old }
    requires fits { IsFitPhase notes.old (Learning unread then) }
    ensures rule { S.rule store.new ≡ S.rule store.old }
    ensures later { S.faults store.old ≤ S.faults store.new }
    ensures failed { IfErr result (λ e. e ≡ worker.Failed → Rose (S.faults store.old) (S.faults store.new)) }
    ensures plan { notes.new.plan ≡ notes.old.plan }
    ensures at { notes.new.at ≡ notes.old.at }
    ensures tried { notes.new.tried ≡ notes.old.tried }
    ensures notes { AreFitNotes notes.new }
    ensures fits { IfOk result (λ next. IsFitPhase notes.new next.phase) }
    ensures goes { IfOk result (Goes (ReadsRecord notes.old unread then) notes.new) }
    ensures went { S.tells → Led (is_allowed (S.rule store.old)) (S.log store.old) (S.log store.new) (ReadsRecord notes.old unread then) notes.old notes.new result }
{
    let number = unread.take().unwrap();
    let stage = read_record(alloc, store, &notes.plan.queue, number)?;
    notes.known.note(number, stage)?;
    let phase = learning(alloc, &notes.known, unread, then)?;
    Ok(Next {
        phase,
        turn: Turn::On,
    })
}
