//! Looks whether the last stage of a queue is sealed.
ghost use Rattle.std.specs.Prelude.{◌≡◌, ◌≤◌, ◌<◌, ◌^◌, List as list, length, Some, false, IfOk};
ghost use Rattle.ig_defs.specs.Log.{files_of};
ghost use Rattle.ig_defs.specs.Own.{Moment};
ghost use Rattle.ig_record.specs.declared.stage.Stage.{Stage as Recorded};
ghost use Rattle.ig_rule.specs.Facts.{KindLaws};
ghost use Rattle.ig_rule.specs.declared.role.Role.TheVariants.{Maker};
ghost use Rattle.ig_meaning.specs.Making.{Making};
ghost use Rattle.ig_meaning.specs.QueueMaking.{making_of_last};
ghost use Rattle.ig_task.specs.Facts.{stage_reader};
ghost use Rattle.ig_task.specs.Maker.{KnowsStages};
ghost use Rattle.ig_task.specs.Pipeline.{is_allowed};
ghost use Rattle.ig_stage.specs.Errors.{ending_of, HasCauseFor};
ghost use Rattle.ig_stage.specs.Looking.{Looks};
ghost use Rattle.ig_stage.specs.Recorded.{by_seal, FindsSeal};

use crate::calls::has;
use crate::{MakeError, Stages};
use ig_queue::seal_path;
use ig_space::Path;
use ig_store::Store;
use ig_task::Pipeline;
use std::alloc::Global;

/// Whether the last of these stages, all of a queue, is sealed, or there is none.
pub(crate) fn last_is_sealed<S: Store<Pipeline>>(
    alloc: Global,
    store: &mut S,
    queue: &Path,
    stages: &Stages,
) -> Result<bool, MakeError>
    requires short { length queue.now ≤ 100 }
    requires few { length stages.now ≤ 10 ^ 4 }
    ensures rule { S.rule store.new ≡ S.rule store.old }
    ensures cause { HasCauseFor (S.faults store.old) (S.faults store.new) (ending_of result) }
    ensures some { IfOk result (λ sealed. sealed ≡ false → 0 < length stages.now) }
    ensures looks { S.tells → (next : list Recorded → list Moment → Making) → Looks (is_allowed (S.rule store.old)) (making_of_last queue.now next stages.now) (by_seal next stages.now) (S.log store.old) (S.log store.new) result }
    ensures known { S.tells → S.rule store.old ≡ record { queue = Some queue.now; role = Maker } → KindLaws stage_reader → KnowsStages queue.now stages.now (files_of (S.log store.old)) → IfOk result (FindsSeal queue.now stages.now (files_of (S.log store.new))) }
{
    let count = stages.len() as u32;
    if count == 0 {
        return Ok(true);
    }
    let path = seal_path(alloc, queue, count - 1)?;
    let sealed = has(store, &path)?;
    Ok(sealed)
}
