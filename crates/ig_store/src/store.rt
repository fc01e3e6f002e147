ghost use Rattle.std.specs.Prelude.{◌≡◌, ◌≤◌, ℕ, true, All, IfOk};
ghost use Rattle.ig_defs.specs.Log.{Log};
ghost use Rattle.ig_defs.specs.Names.{IsNameIn};
ghost use Rattle.ig_defs.specs.Answers.{answer_by, Answered, Found, Lists, Names as Listed, put_answer, Puts, Reads, Removes, Sees, Shifts, WasThere};
ghost use Rattle.ig_defs.specs.Calls.{HasCause};

use crate::{Rule, StoreError};
use ig_space::{Bytes, Names, Path};

/// A store of files, which other processes may share. In each call others take steps first, each allowed by the rule
/// at its moment, and then the call takes its own step. The rule and the opening files never change.
pub trait Store<R: Rule> {
    /// The rule that it keeps.
    ghost rule: { Self → R };

    /// How often it failed, counted up to 2^64 - 1.
    ghost faults: { Self → ℕ };

    /// How often it can fail at most.
    ghost most: { Self → ℕ };

    /// Whether stores of this type tell their logs.
    ghost tells: { Type 0 };

    /// The opening files and each step since, where it tells.
    ghost log: { Self → Log };

    /// The bytes of a file, or `None` exactly where it isn't there.
    fn read(&mut self, path: &Path) -> Result<Option<Bytes>, StoreError>
        ensures rule { rule self.new ≡ rule self.old }
        ensures most { most self.new ≡ most self.old }
        ensures cause { HasCause (faults self.old) (faults self.new) result }
        ensures turn { tells → Answered (R.allows (rule self.old)) (log self.old) (log self.new) (Reads path.now) (answer_by Found result) };

    /// Whether a file is there.
    fn has(&mut self, path: &Path) -> Result<bool, StoreError>
        ensures rule { rule self.new ≡ rule self.old }
        ensures most { most self.new ≡ most self.old }
        ensures cause { HasCause (faults self.old) (faults self.new) result }
        ensures turn { tells → Answered (R.allows (rule self.old)) (log self.old) (log self.new) (Sees path.now) (answer_by WasThere result) };

    /// The last segments of the files directly in a directory, each of which makes a path in it.
    fn names(&mut self, dir: &Path) -> Result<Names, StoreError>
        ensures rule { rule self.new ≡ rule self.old }
        ensures most { most self.new ≡ most self.old }
        ensures cause { HasCause (faults self.old) (faults self.new) result }
        ensures named { IfOk result (All (IsNameIn dir.now)) }
        ensures turn { tells → Answered (R.allows (rule self.old)) (log self.old) (log self.new) (Lists dir.now) (answer_by Listed result) };

    /// Replaces a file whole.
    fn put(&mut self, path: &Path, bytes: &[u8]) -> Result<(), StoreError>
        ensures rule { rule self.new ≡ rule self.old }
        ensures most { most self.new ≡ most self.old }
        ensures cause { HasCause (faults self.old) (faults self.new) result }
        ensures turn { tells → Answered (R.allows (rule self.old)) (log self.old) (log self.new) (Puts path.now bytes.now) (answer_by put_answer result) };

    /// Moves a file, in one step, in place of the one at `to`; false exactly where there is none at `from`.
    fn shift(&mut self, from: &Path, to: &Path) -> Result<bool, StoreError>
        ensures rule { rule self.new ≡ rule self.old }
        ensures most { most self.new ≡ most self.old }
        ensures cause { HasCause (faults self.old) (faults self.new) result }
        ensures turn { tells → Answered (R.allows (rule self.old)) (log self.old) (log self.new) (Shifts from.now to.now) (answer_by WasThere result) };

    /// Takes a file away; false exactly where there is none.
    fn remove(&mut self, path: &Path) -> Result<bool, StoreError>
        ensures rule { rule self.new ≡ rule self.old }
        ensures most { most self.new ≡ most self.old }
        ensures cause { HasCause (faults self.old) (faults self.new) result }
        ensures turn { tells → Answered (R.allows (rule self.old)) (log self.old) (log self.new) (Removes path.now) (answer_by WasThere result) };

    ghost bounded: { (store : Self) → faults store ≤ most store };
}
