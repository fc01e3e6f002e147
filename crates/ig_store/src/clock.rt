ghost use Rattle.std.specs.Prelude.{◌≡◌, ◌≤◌, ◌<◌, ◌^◌, ℕ};

/// A clock that counts whole seconds and never goes back.
pub trait Clock {
    /// Its last answer, below 10,000,000,000.
    ghost last: { Self → ℕ };

    /// The time, in seconds.
    fn now(&mut self) -> u64
        ensures later { last self.old ≤ result }
        ensures kept { last self.new ≡ result }
        ensures bound { result < 10 ^ 10 };

    ghost bounded: { (clock : Self) → last clock < 10 ^ 10 };
}
