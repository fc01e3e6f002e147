//! Makes the rest of a stage whose record stands: its info, the names of its tasks and its seal.
ghost use Rattle.std.specs.Prelude.{◌≡◌, ◌≤◌, ◌<◌, ◌++◌, List as list, [], ◌∷◌, length, map, true, IfOk};
ghost use Rattle.ig_space.specs.Chunks.{listed};
ghost use Rattle.ig_defs.specs.declared.step.Act.{Act};
ghost use Rattle.ig_defs.specs.Calls.{HasCause};
ghost use Rattle.ig_defs.specs.Log.{files_of};
ghost use Rattle.ig_rule.specs.QueueFiles.{queue_of};
ghost use Rattle.ig_rule.specs.Sound.{Legal};
ghost use Rattle.ig_rule.specs.Stages.{Sealed};
ghost use Rattle.ig_record.specs.Sound.{is_sound};
ghost use Rattle.ig_record.specs.Stage.{task_count};
ghost use Rattle.ig_meaning.specs.QueueActs.{name_file, put_of, seal_file, IsContinuation};
ghost use Rattle.ig_meaning.specs.Jobs.{info_files};
ghost use Rattle.ig_task.specs.Facts.{stage_reader};
ghost use Rattle.ig_task.specs.Pipeline.{is_allowed};
ghost use Rattle.ig_stage.specs.Open.{maker_rule, Does, DoesSome, IsOpen};

use crate::puts::{fill, put_info};
use crate::shown::{none_shown, shown_tasks};
use ig_record::Stage;
use ig_space::Path;
use ig_store::{Store, StoreError};
use ig_task::Pipeline;
use std::alloc::Global;

/// Makes the rest of the last stage of a queue, which is recorded and not sealed: puts its info, if it has one, the fresh name
/// of each task that none of three listings shows, in order, and its seal.
pub fn continue_unsealed<S: Store<Pipeline>>(
    alloc: Global,
    store: &mut S,
    queue: &Path,
    number: u32,
    stage: &Stage,
) -> Result<(), StoreError>
    requires short { length queue.now ≤ 100 }
    requires few { number < 10000 }
    requires sound { is_sound stage.now ≡ true }
    ensures rule { S.rule store.new ≡ S.rule store.old }
    ensures cause { HasCause (S.faults store.old) (S.faults store.new) result }
    ensures some { S.tells → DoesSome (is_allowed (S.rule store.old)) (S.log store.old) (S.log store.new) }
    ensures acts { S.tells → IfOk result (λ done. (acts : list Act) × Does (is_allowed (S.rule store.old)) (S.log store.old) (S.log store.new) acts × IsContinuation queue.now number stage.now acts) }
    ensures legal { S.tells → S.rule store.old ≡ maker_rule queue.now → Legal stage_reader queue.now (S.log store.old) → IsOpen queue.now number stage.now (files_of (S.log store.old)) → Legal stage_reader queue.now (S.log store.new) }
    ensures sealed { S.tells → S.rule store.old ≡ maker_rule queue.now → Legal stage_reader queue.now (S.log store.old) → IsOpen queue.now number stage.now (files_of (S.log store.old)) → IfOk result (λ done. Sealed (queue_of queue.now (files_of (S.log store.new))) number) }
{
    put_info(store, stage)?;
    let shown = shown_tasks(alloc, store, queue, number, stage.tasks())?;
    fill(alloc, store, queue, number, stage, shown.as_slice())
}

/// Makes the rest of a new stage, whose record was just put: its info, if it has one, the fresh name of each task, in order,
/// and its seal.
pub(crate) fn fill_new<S: Store<Pipeline>>(
    alloc: Global,
    store: &mut S,
    queue: &Path,
    number: u32,
    stage: &Stage,
) -> Result<(), StoreError>
    requires short { length queue.now ≤ 100 }
    requires few { number < 10000 }
    requires sound { is_sound stage.now ≡ true }
    ensures rule { S.rule store.new ≡ S.rule store.old }
    ensures cause { HasCause (S.faults store.old) (S.faults store.new) result }
    ensures some { S.tells → DoesSome (is_allowed (S.rule store.old)) (S.log store.old) (S.log store.new) }
    ensures acts { S.tells → IfOk result (λ done. Does (is_allowed (S.rule store.old)) (S.log store.old) (S.log store.new) (map put_of (info_files stage.now.info ++ (listed (name_file queue.now number stage.now) (task_count stage.now) ++ seal_file queue.now number ∷ [])))) }
    ensures legal { S.tells → S.rule store.old ≡ maker_rule queue.now → Legal stage_reader queue.now (S.log store.old) → IsOpen queue.now number stage.now (files_of (S.log store.old)) → Legal stage_reader queue.now (S.log store.new) }
    ensures sealed { S.tells → S.rule store.old ≡ maker_rule queue.now → Legal stage_reader queue.now (S.log store.old) → IsOpen queue.now number stage.now (files_of (S.log store.old)) → IfOk result (λ done. Sealed (queue_of queue.now (files_of (S.log store.new))) number) }
{
    put_info(store, stage)?;
    let shown = none_shown(alloc, stage.tasks())?;
    fill(alloc, store, queue, number, stage, shown.as_slice())
}
