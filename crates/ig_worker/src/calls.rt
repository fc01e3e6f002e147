//! The calls on a store, whatever others do beside it: each is answered by one own act.
ghost use Rattle.std.specs.Prelude.{◌≡◌, All, IfOk};
ghost use Rattle.ig_defs.specs.Calls.{HasCause};
ghost use Rattle.ig_defs.specs.Names.{IsNameIn};
ghost use Rattle.ig_task.specs.Pipeline.{is_allowed};
ghost use Rattle.ig_defs.specs.Answers.{answer_by, Answered, Found, Lists, Names as Listed, put_answer, Puts, Reads, Removes, WasThere};

use ig_space::{Bytes, Names, Path};
use ig_store::{Store, StoreError};
use ig_task::Pipeline;

/// The last segments of the files directly in a directory.
pub(crate) fn names<S: Store<Pipeline>>(store: &mut S, dir: &Path) -> Result<Names, StoreError>
    ensures rule { S.rule store.new ≡ S.rule store.old }
    ensures cause { HasCause (S.faults store.old) (S.faults store.new) result }
    ensures named { IfOk result (All (IsNameIn dir.now)) }
    ensures answered { S.tells → Answered (is_allowed (S.rule store.old)) (S.log store.old) (S.log store.new) (Lists dir.now) (answer_by Listed result) }
{
    store.names(dir)
}

/// The bytes of a file, or `None` where it isn't there.
pub(crate) fn read<S: Store<Pipeline>>(
    store: &mut S,
    path: &Path,
) -> Result<Option<Bytes>, StoreError>
    ensures rule { S.rule store.new ≡ S.rule store.old }
    ensures cause { HasCause (S.faults store.old) (S.faults store.new) result }
    ensures answered { S.tells → Answered (is_allowed (S.rule store.old)) (S.log store.old) (S.log store.new) (Reads path.now) (answer_by Found result) }
{
    store.read(path)
}

/// Replaces a file whole.
pub(crate) fn put<S: Store<Pipeline>>(
    store: &mut S,
    path: &Path,
    bytes: &[u8],
) -> Result<(), StoreError>
    ensures rule { S.rule store.new ≡ S.rule store.old }
    ensures cause { HasCause (S.faults store.old) (S.faults store.new) result }
    ensures answered { S.tells → Answered (is_allowed (S.rule store.old)) (S.log store.old) (S.log store.new) (Puts path.now bytes.now) (answer_by put_answer result) }
{
    store.put(path, bytes)
}

/// Takes a file away; false exactly where there is none.
pub(crate) fn remove<S: Store<Pipeline>>(store: &mut S, path: &Path) -> Result<bool, StoreError>
    ensures rule { S.rule store.new ≡ S.rule store.old }
    ensures cause { HasCause (S.faults store.old) (S.faults store.new) result }
    ensures answered { S.tells → Answered (is_allowed (S.rule store.old)) (S.log store.old) (S.log store.new) (Removes path.now) (answer_by WasThere result) }
{
    store.remove(path)
}
