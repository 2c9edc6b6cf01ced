//! What time it is.
#![tactic(auto)]

ghost use Rattle.std.specs.Prelude.{◌≡◌};

use std::marker::Model;

/// A clock. Its answers may be anything, also earlier than the one before.
pub trait Clock: Drop {
    /// The moment, in seconds.
    fn now(&self) -> u64;
}

/// A clock that stands still.
#[derive(Drop)]
pub struct FixedClock {
    moment: u64,
}

impl Model for FixedClock {
    ghost use Rattle.std.specs.Prelude.{ℕ};

    ghost Value = { ℕ };

    ghost view = { λ c. c.moment };
}

impl FixedClock {
    /// A clock that stands at this moment, in seconds.
    pub fn new(moment: u64) -> FixedClock
        ensures { result ≡ moment }
    {
        FixedClock { moment }
    }
}

impl Clock for FixedClock {
    fn now(&self) -> u64
        ensures { result ≡ self.now }
    {
        self.moment
    }
}
