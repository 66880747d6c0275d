//! The clock that stamps a command which has no stamp of its own.
ghost use Rattle.std.specs.Prelude.{◌≡◌, ℕ, Bool, IsTrue, nat_eq};

/// A clock. It gives milliseconds since 1970-01-01.
pub trait Clock: Sync {
    /// Which numbers it may give.
    ghost gives: { Self → ℕ → Bool };

    /// The number of the clock now. Of two numbers nothing is said: the second may be less.
    fn now(&self) -> u64
        ensures { IsTrue (gives self.now result) };
}

/// A clock that stands still.
#[derive(Clone, Copy, Debug, PartialEq, Eq)]
pub struct FixedClock {
    now: u64,
}

impl FixedClock {
    /// A clock that gives this number alone.
    pub fn new(now: u64) -> FixedClock
        ensures { result ≡ record { now = now } }
    {
        FixedClock { now }
    }
}

impl Clock for FixedClock {
    ghost gives = { λ clock number. nat_eq number clock.now };

    fn now(&self) -> u64 {
        self.now
    }
}
