//! How a thread waits between two looks. No clause speaks of it.

use crossbeam_utils::Backoff;
use std::sync::Wait;
use std::sync::atomic::AtomicU64;
use std::thread;
use std::time::Duration;
use turn_cell::{Bell, SHORT_SLEEP};

// So often it spins before it gives its time away once and then sleeps. Each look takes a turn for which others wait, so they are few.
const SPINS: u32 = 3;

// So long a sleep is at most, in microseconds, that nobody ends.
const LONGEST: u64 = 1_000;

// So long a sleep is at most, in microseconds, that a bell ends, while nobody that belongs to the bell is awake.
pub(crate) const IDLE: u64 = 16_000;

// So many sleeps a wait with a limit of looks makes at most: two seconds, whatever the limit is.
const FEW: u64 = 2_000;

/// How a thread waits by itself: it spins, then gives its time away, and then sleeps, twice as long each time, up to a millisecond. Or
/// how a worker waits for its bell.
#[derive(Drop)]
pub struct Pause {
    backoff: Backoff,
    // How often it has waited without a sleep, at most once more than it spins.
    short: u32,
    // The length of the next sleep, in microseconds.
    micros: u64,
    // The length of the next sleep that a bell ends, in microseconds, if nobody that belongs to the bell is awake then.
    idle: u64,
    // How many sleeps are left; without one it gives its time away.
    left: u64,
    // Nobody wakes it, so that a sleep ends by its length.
    asleep: AtomicU64,
    // How often the bell had rung when it was last heard, while it listens.
    heard: Option<u64>,
}

impl Pause {
    /// For looks without a limit.
    pub fn new() -> Pause {
        Pause::with(u64::MAX)
    }

    /// For looks with a limit, which may be many.
    pub fn within_limit() -> Pause {
        Pause::with(FEW)
    }

    fn with(left: u64) -> Pause {
        Pause {
            backoff: Backoff::new(),
            short: 0,
            micros: 1,
            idle: SHORT_SLEEP,
            left,
            asleep: AtomicU64::new(0),
            heard: None,
        }
    }

    /// Whether it hasn't waited for a bell since there was something to do.
    pub fn is_new(&self) -> bool {
        self.heard.is_none()
    }

    // The length of a sleep that this bell ends: a millisecond while somebody that belongs to it is awake, who may not ring for all work,
    // and else twice as long each time.
    fn length(&mut self, bell: &Bell) -> u64 {
        if !bell.all_listen() {
            self.idle = SHORT_SLEEP;
            return SHORT_SLEEP;
        }
        let length = self.idle;
        self.idle = length.saturating_mul(2).min(IDLE);
        length
    }

    /// Waits once for a bell: at first it listens and spins until the bell rings, which asks for no turn. Later it sleeps until it rings.
    pub fn wait_for<R: Wait>(&mut self, rt: &R, bell: &Bell) {
        let rings = match self.heard {
            None => bell.spin(bell.listen()),
            Some(rings) => bell.sleep(rt, rings, self.length(bell)),
        };
        self.heard = Some(rings);
    }

    /// Waits for the bell no more, since there is something to do.
    pub fn leave(&mut self, bell: &Bell) {
        if self.heard.is_some() {
            bell.leave();
        }
        self.heard = None;
        self.idle = SHORT_SLEEP;
    }

    /// Waits once.
    pub fn wait<R: Wait>(&mut self, rt: &R) {
        if self.short < SPINS {
            self.short += 1;
            self.backoff.spin();
            return;
        }
        if self.short == SPINS || self.left == 0 {
            self.short = SPINS + 1;
            thread::yield_now();
            return;
        }
        self.left -= 1;
        self.asleep
            .park_timeout(rt, 0, Duration::from_micros(self.micros));
        self.micros = self.micros.saturating_mul(2).min(LONGEST);
    }
}
