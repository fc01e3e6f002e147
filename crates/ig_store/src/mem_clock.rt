ghost use Rattle.std.specs.Prelude.{◌≡◌, ◌≤◌, ◌<◌, ◌^◌, ◌+◌};
ghost use Rattle.ig_store.specs.Ticks.{Ticks, capped, capped-bound};

use crate::Clock;
use std::marker::Model;

/// The last second that a clock counts.
const LAST_SECOND: u64 = 9_999_999_999;

/// A clock in memory, which stands still until it is moved on.
#[derive(Debug, Drop)]
pub struct MemClock {
    time: u64,
    last: u64,
}

impl Model for MemClock {
    ghost use Rattle.std.specs.Prelude.{◌≤◌, ◌<◌, ◌^◌};
    ghost use Rattle.ig_store.specs.Ticks.{Ticks};

    ghost Value = { Ticks };

    ghost view = { λ c. record { time = c.time; last = c.last } };

    ghost invariant = { λ c. (c.last ≤ c.time) × (c.time < 10 ^ 10) };
}

impl MemClock {
    /// A clock that shows this time, in seconds, and has answered it last; 9,999,999,999 in place of any later one.
    pub fn new(at: u64) -> MemClock
        ensures { result ≡ record { time = capped at; last = capped at } }
    {
        let time = at.min(LAST_SECOND);
        MemClock { time, last: time }
    }

    /// Moves the time on, up to 9,999,999,999.
    pub fn add(&mut self, seconds: u64)
        ensures { self.new ≡ record self.old { time = capped (self.old.time + seconds) } }
    {
        self.time = self.time.saturating_add(seconds).min(LAST_SECOND);
    }
}

impl Clock for MemClock {
    ghost last = { λ c. capped c.last };

    fn now(&mut self) -> u64
        ensures later { capped self.old.last ≤ result }
        ensures kept { capped self.new.last ≡ result }
        ensures bound { result < 10 ^ 10 }
        ensures time { result ≡ self.old.time }
        ensures told { self.new ≡ record self.old { last = self.old.time } }
    {
        self.last = self.time;
        self.time
    }

    ghost bounded = { λ c. capped-bound c.last };
}
