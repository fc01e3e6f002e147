ghost use Rattle.std.specs.Prelude.{◌≡◌, ◌&&◌, nat_le, is_some, if◌then◌else◌};
ghost use Rattle.ig_store.specs.Fails.{fail_of, counted};

use ig_space::{List, TryClone};
use std::alloc::AllocError;

/// The calls of these numbers, counted from 1, fail: those from `from` to `to`, both among them. Where `made`, a put
/// takes its step all the same.
#[derive(Clone, Copy, Debug)]
pub struct Fail {
    pub from: u64,
    pub to: u64,
    pub made: bool,
}

/// Of several that a call lies in, the first counts.
pub type Fails = List<Fail>;

impl TryClone for Fail {
    fn copy(&self) -> Result<Fail, AllocError> {
        Ok(*self)
    }
}

/// Whether the call of this number lies within a fail.
fn covers(fail: &Fail, call: u64) -> bool
    ensures { result ≡ (nat_le fail.now.from call && nat_le call fail.now.to) }
{
    fail.from <= call && call <= fail.to
}

/// Whether the call of this number fails, and then whether its own step is made.
fn find_fail(fails: &Fails, call: u64) -> Option<bool>
    ensures { result ≡ fail_of fails.now call }
{
    for fail in fails.as_slice() {
        if covers(fail, call) {
            return Some(fail.made);
        }
    }
    None
}

/// Counts a call, and a fault where the call is to fail.
pub(crate) fn begin(fails: &Fails, calls: &mut u64, faults: &mut u64) -> Option<bool>
    ensures call { calls.new ≡ counted calls.old }
    ensures fail { result ≡ fail_of fails.now calls.new }
    ensures fault { faults.new ≡ (if is_some result then counted faults.old else faults.old) }
{
    *calls = calls.saturating_add(1);
    let fail = find_fail(fails, *calls);
    if fail.is_some() {
        *faults = faults.saturating_add(1);
    }
    fail
}
