//! The calls on a store, whatever others do beside it; and what they come to where others only look.
ghost use Rattle.std.specs.Prelude.{◌≡◌, All, IfOk};
ghost use Rattle.ig_defs.specs.Calls.{HasCause};
ghost use Rattle.ig_defs.specs.Log.{files_of};
ghost use Rattle.ig_defs.specs.Names.{IsNameIn};
ghost use Rattle.ig_defs.specs.Own.{steps_since};
ghost use Rattle.ig_rule.specs.Went.{WentRead, WentHas, WentList, WentPut};
ghost use Rattle.ig_task.specs.Pipeline.{is_allowed};
ghost use Rattle.ig_stage.specs.Did.{DidRead, DidPut};
ghost use Rattle.ig_stage.specs.Looking.{AreNames, OthersLook};
ghost use Rattle.ig_stage.specs.Pipeline.{local_rule};

use ig_space::{Bytes, Names, Path};
use ig_store::{Store, StoreError};
use ig_task::Pipeline;

pub fn read<S: Store<Pipeline>>(store: &mut S, path: &Path) -> Result<Option<Bytes>, StoreError>
    ensures rule { S.rule store.new ≡ S.rule store.old }
    ensures cause { HasCause (S.faults store.old) (S.faults store.new) result }
    ensures went { S.tells → WentRead (is_allowed (S.rule store.old)) (S.log store.old) (S.log store.new) path.now result }
    ensures did { S.tells → S.rule store.old ≡ local_rule → DidRead (S.log store.old) (S.log store.new) path.now result }
{
    store.read(path)
}

pub fn has<S: Store<Pipeline>>(store: &mut S, path: &Path) -> Result<bool, StoreError>
    ensures rule { S.rule store.new ≡ S.rule store.old }
    ensures cause { HasCause (S.faults store.old) (S.faults store.new) result }
    ensures went { S.tells → WentHas (is_allowed (S.rule store.old)) (S.log store.old) (S.log store.new) path.now result }
{
    store.has(path)
}

pub fn names<S: Store<Pipeline>>(store: &mut S, dir: &Path) -> Result<Names, StoreError>
    ensures rule { S.rule store.new ≡ S.rule store.old }
    ensures cause { HasCause (S.faults store.old) (S.faults store.new) result }
    ensures named { IfOk result (All (IsNameIn dir.now)) }
    ensures went { S.tells → WentList (is_allowed (S.rule store.old)) (S.log store.old) (S.log store.new) dir.now result }
    ensures lists { S.tells → OthersLook (steps_since (S.log store.old) (S.log store.new)) → IfOk result (AreNames (files_of (S.log store.new)) dir.now) }
{
    store.names(dir)
}

pub fn put<S: Store<Pipeline>>(store: &mut S, path: &Path, bytes: &[u8]) -> Result<(), StoreError>
    ensures rule { S.rule store.new ≡ S.rule store.old }
    ensures cause { HasCause (S.faults store.old) (S.faults store.new) result }
    ensures went { S.tells → WentPut (is_allowed (S.rule store.old)) (S.log store.old) (S.log store.new) path.now bytes.now result }
    ensures did { S.tells → S.rule store.old ≡ local_rule → DidPut (S.log store.old) (S.log store.new) path.now bytes.now result }
{
    store.put(path, bytes)
}
