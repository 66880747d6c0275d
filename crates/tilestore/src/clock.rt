//! The machine's clock, as a clock that stamps commands.
ghost use Rattle.std.specs.Prelude.{◌≡◌, true};

use std::time;
use ts_store::Clock;

/// The clock of the machine: milliseconds since 1970-01-01. Nothing is said of its numbers.
#[derive(Drop)]
pub struct RealClock<R: time::Clock + Drop> {
    rt: R,
}

impl<R: time::Clock + Drop> RealClock<R> {
    /// The clock of this runtime.
    pub fn new(rt: R) -> Self
        ensures { result.rt ≡ rt }
    {
        RealClock { rt }
    }
}

impl<R: time::Clock + Sync + Drop> Clock for RealClock<R> {
    ghost gives = { λ _ _. true };

    // A clock that cannot be read, as one that stands before 1970, gives 0. One past 2^64
    // milliseconds, some 584 million years on, gives the greatest number.
    fn now(&self) -> u64 {
        match self.rt.since_1970() {
            Ok(time) => u64::try_from(time.as_millis()).unwrap_or(u64::MAX),
            Err(_) => 0,
        }
    }
}
