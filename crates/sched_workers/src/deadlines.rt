//! A moment until which a call looks.

use std::io;
use std::rt::Clock;
use std::time::{Duration, Instant};

/// A moment, and the clock that tells whether it has come. No clause speaks of time.
#[derive(Drop)]
pub struct Deadline<'k, K: Clock> {
    clock: &'k K,
    // None is later than what the clock can tell.
    moment: Option<Instant>,
}

impl<'k, K: Clock> Deadline<'k, K> {
    /// So many milliseconds from now on, by this clock, as `main` has one in its runtime.
    ///
    /// # Errors
    ///
    /// The clock can't be read.
    pub fn after(clock: &'k K, millis: u64) -> io::Result<Deadline<'k, K>> {
        let now = Instant::now(clock)?;
        Ok(Deadline {
            clock,
            moment: now.checked_add(Duration::from_millis(millis)),
        })
    }

    /// Whether it has come. If the clock can't be read it has, so that nobody waits without end.
    pub fn has_come(&self) -> bool {
        match (self.moment, Instant::now(self.clock)) {
            (Some(moment), Ok(now)) => moment <= now,
            (None, Ok(_)) => false,
            (_, Err(_)) => true,
        }
    }
}
