//! The number of tickets, and what shows that the turns are used up.
ghost use Rattle.std.specs.Prelude.{◌≡◌, ℕ, ◌^◌, ◌≤◌};

use std::marker::Model;

// So many tickets can be drawn, so that no count of turns can overflow.
pub(crate) const LIMIT: u64 = 1 << 62;

/// Shows that a seat was shown a ticket word of at least 2^62. Contracts see it as that word.
///
/// Only `TurnCell::call` and `TurnSeat::spent` give one.
#[derive(Debug, Drop)]
pub struct Spent {
    pub(crate) drawn: u64,
}

impl Model for Spent {
    ghost Value = { ℕ };

    ghost view = { λ s. s.drawn };

    ghost invariant = { λ s. 2 ^ 62 ≤ s.drawn };
}

impl Spent {
    /// The ticket word that was shown, which is at least 2^62.
    pub fn drawn(&self) -> u64
        ensures value { result ≡ self.now }
        ensures large { 2 ^ 62 ≤ result }
    {
        self.drawn
    }
}
