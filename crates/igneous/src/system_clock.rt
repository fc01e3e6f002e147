ghost use Rattle.std.specs.Prelude.{◌≡◌, ◌<◌, ◌^◌, min, max};

use ig_store::Clock;
use std::time::{Clock as Source, SystemTime, UNIX_EPOCH};

/// The last second that is told.
const LATEST: u64 = 9_999_999_999;

/// The system's clock, in whole seconds since the Unix epoch. Where it can't be read or went back, the greatest answer
/// so far is given again.
#[derive(Drop)]
pub struct SystemClock<C> {
    rt: C,
    pub last: u64,
    ghost bounded: { last < 10 ^ 10 },
}

impl<C: Source> SystemClock<C> {
    /// A clock that has told nothing yet.
    pub fn new(rt: C) -> Self
        ensures { result.last ≡ 0 }
    {
        SystemClock { rt, last: 0 }
    }
}

/// The seconds since the epoch; 0 where they can't be told.
fn seconds(rt: &impl Source) -> u64 {
    match SystemTime::now(rt) {
        Ok(now) => match now.duration_since(UNIX_EPOCH) {
            Ok(since) => since.as_secs(),
            Err(_) => 0,
        },
        Err(_) => 0,
    }
}

/// What is told next, once the system's clock gave `read`.
fn told(last: u64, read: u64) -> u64
    ensures { result ≡ max last (min read 9_999_999_999) }
{
    last.max(read.min(LATEST))
}

impl<C: Source> Clock for SystemClock<C> {
    ghost last = { λ clock. clock.last };

    fn now(&mut self) -> u64 {
        self.last = told(self.last, seconds(&self.rt));
        self.last
    }

    ghost bounded = { λ clock. clock.bounded };
}
