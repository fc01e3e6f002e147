//! Makes the stages that a command asks for, and runs them.
ghost use Rattle.std.specs.Prelude.{◌≡◌, ◌∷◌, []};
ghost use Rattle.ig_stage.specs.Local.{RanLocal};
ghost use Rattle.ig_stage.specs.Errors.{HasCauseFor};
ghost use Rattle.ig_stage.specs.Pipeline.{local_rule};
ghost use Rattle.ig_stage.specs.Requests.{HasLimits, IsOneStage};
ghost use Rattle.ig_stage.specs.Running.{ending_of};

use crate::making::check;
use crate::running::run;
use crate::{LocalError, Request, Requests, Stages};
use ig_record::Kind;
use ig_space::List;
use ig_store::Store;
use ig_task::Pipeline;
use std::alloc::Global;

/// A stage of which all tasks were run, and how many they are.
#[derive(Clone, Copy, Debug, PartialEq, Eq)]
pub struct RanStage {
    pub kind: Kind,
    pub tasks: u32,
}

/// The stages that one command ran, in order.
pub type Ran = List<RanStage>;

/// The one request.
fn only(want: &Requests) -> &Request
    requires { IsOneStage want.now }
    ensures only { want.now ≡ result.now ∷ [] }
    ensures limits { HasLimits result.now }
{
    want.get(0).unwrap()
}

/// Makes the stages that are wanted and runs them, in order. Gives what was run; else why it ended.
pub fn run_local<S: Store<Pipeline>>(
    alloc: Global,
    store: &mut S,
    want: &Requests,
) -> Result<Ran, LocalError>
    requires rule { S.rule store.old ≡ local_rule }
    requires want { IsOneStage want.now }
    ensures rule { S.rule store.new ≡ local_rule }
    ensures cause { HasCauseFor (S.faults store.old) (S.faults store.new) (ending_of result) }
    ensures ran { S.tells → RanLocal want.now (S.log store.old) (S.log store.new) result }
{
    let none = Stages::new(alloc);
    let stage = check(alloc, store, only(want), &none)?;
    let mut ran = Ran::new(alloc);
    ran.push(RanStage {
        kind: stage.kind,
        tasks: stage.tasks(),
    })?;
    run(alloc, store, &stage)?;
    Ok(ran)
}
