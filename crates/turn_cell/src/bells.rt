//! A bell: threads sleep until it rings. It changes nothing that a clause speaks of, and no clause says that a sleep ends.
use std::sync::Wait;
use std::sync::atomic::{AtomicU64, Ordering};
use std::time::Duration;

/// So long a sleep is at most, in microseconds, while one of those that belong to the bell may be awake.
pub const SHORT_SLEEP: u64 = 1_000;

/// Each end is awaited, in the place of the number of one.
pub const EACH_END: u64 = u64::MAX;

/// No end by itself is awaited, but that a worker finds no task any more.
pub const NO_END: u64 = u64::MAX - 1;

// Nothing is awaited, or the bell has rung for it. No end has this number.
const NOTHING: u64 = 0;

// So often a thread that spins looks whether the bell has rung: for fifty microseconds at most, which it takes to wake another thread.
const MOST_SPINS: u64 = 8_000;

// So often where it was in vain of late: for three microseconds at most.
const FEW_SPINS: u64 = 500;

// After so many spins in vain it takes the few.
const IN_VAIN: u64 = 8;

// In each of so many spins it tries whether more serve again.
const TRIAL: u64 = 16;

// Nobody spins.
const NOBODY: u64 = 0;

// Somebody spins, and hears the next ring by itself.
const SPINS: u64 = 1;

// Somebody spins, for whom the bell has rung.
const HEARS: u64 = 2;

/// A bell, how many threads belong to it, how many of them listen for it, and how many of these sleep.
#[derive(Drop)]
pub struct Bell {
    rings: AtomicU64,
    members: AtomicU64,
    listeners: AtomicU64,
    sleepers: AtomicU64,
    // Not 0 where somebody may sleep for longer than `SHORT_SLEEP`.
    long: AtomicU64,
    // The number of the end that is awaited, or `EACH_END`, `NO_END` or `NOTHING`.
    awaited: AtomicU64,
    // How often there may have been work since one that was awake last took some, while others listened; or an end for which it didn't ring.
    missed: AtomicU64,
    // Whether somebody spins, and whether the bell has rung for it.
    spinner: AtomicU64,
    // How many spins in a row were in vain.
    vain: AtomicU64,
}

impl Bell {
    pub(crate) fn new() -> Bell {
        Bell {
            rings: AtomicU64::new(0),
            members: AtomicU64::new(0),
            listeners: AtomicU64::new(0),
            sleepers: AtomicU64::new(0),
            long: AtomicU64::new(0),
            awaited: AtomicU64::new(NOTHING),
            missed: AtomicU64::new(0),
            spinner: AtomicU64::new(NOBODY),
            vain: AtomicU64::new(0),
        }
    }

    /// A further thread belongs to it.
    pub fn join(&self) {
        self.members.fetch_add(1, Ordering::SeqCst);
    }

    /// Listens from now on, and tells how often it has rung.
    pub fn listen(&self) -> u64 {
        self.listeners.fetch_add(1, Ordering::SeqCst);
        self.rings.load(Ordering::SeqCst)
    }

    /// Listens no more.
    pub fn leave(&self) {
        self.listeners.fetch_sub(1, Ordering::SeqCst);
    }

    /// Whether somebody listens.
    pub fn is_heard(&self) -> bool {
        self.listeners.load(Ordering::SeqCst) > 0
    }

    /// Whether threads belong to it, and all of them listen.
    pub fn all_listen(&self) -> bool {
        let members = self.members.load(Ordering::SeqCst);
        members > 0 && self.listeners.load(Ordering::SeqCst) >= members
    }

    // Whether one has to be woken where there is work: nobody is awake, or somebody may sleep long.
    fn asks_for_ring(&self) -> bool {
        self.all_listen() || self.long.load(Ordering::SeqCst) != 0
    }

    /// There may be work for one more. It rings where nobody is awake, or somebody may sleep long; else it notes it where somebody listens.
    pub fn call(&self) {
        if self.asks_for_ring() {
            self.ring();
        } else if self.is_heard() {
            self.missed.fetch_add(1, Ordering::SeqCst);
        }
    }

    /// One that was awake has taken work. Where more was noted than this, it rings for another one.
    pub fn pass_on(&self) {
        if self.missed.load(Ordering::SeqCst) == 0 {
            return;
        }
        let missed = self.missed.swap(0, Ordering::SeqCst);
        if missed > 1 && self.is_heard() {
            self.missed.fetch_add(missed - 2, Ordering::SeqCst);
            self.ring();
        }
    }

    /// One that listens awaits this end, `EACH_END` or `NO_END` from now on. It tells how often the bell has rung: if that has changed
    /// later, the end may be awaited no more. If several await different ones, the bell rings for each end.
    pub fn await_end(&self, end: u64) -> u64 {
        let rings = self.rings.load(Ordering::SeqCst);
        let found = self.awaited.load(Ordering::SeqCst);
        let awaited = match found {
            NOTHING | NO_END => end,
            other if other == end || end == NO_END => other,
            _ => EACH_END,
        };
        let set = self
            .awaited
            .compare_exchange(found, awaited, Ordering::SeqCst, Ordering::SeqCst);
        if set.is_err() {
            self.awaited.store(EACH_END, Ordering::SeqCst);
        }
        rings
    }

    /// Somebody made the end with this number, or a worker found no task (`NO_END`). It rings where that is awaited, once for those that
    /// await it by now; else it notes it where somebody listens.
    pub fn tell(&self, end: u64) {
        if !self.is_heard() {
            return;
        }
        let awaited = self.awaited.load(Ordering::SeqCst);
        if awaited != end && awaited != EACH_END {
            self.missed.fetch_add(1, Ordering::SeqCst);
            return;
        }
        let rung = self
            .awaited
            .compare_exchange(awaited, NOTHING, Ordering::SeqCst, Ordering::SeqCst);
        if rung.is_ok() {
            self.ring_all();
        }
    }

    /// How many ends were told since it was last asked, for which it didn't ring.
    pub fn missed(&self) -> u64 {
        self.missed.swap(0, Ordering::SeqCst)
    }

    // Changes the word of the one that spins from one value to another. Whether it had the first.
    fn turn_spinner(&self, from: u64, to: u64) -> bool {
        let found = self
            .spinner
            .compare_exchange(from, to, Ordering::SeqCst, Ordering::SeqCst);
        found.is_ok()
    }

    // Looks so often whether it has rung since. Between two looks it adds to a number of its own, which takes about as long on each processor,
    // while a pause may take ten times as long on one as on another.
    fn rings_within(&self, rings: u64, most: u64) -> bool {
        let looks = AtomicU64::new(0);
        for _ in 0..most {
            if self.rings.load(Ordering::SeqCst) != rings {
                return true;
            }
            looks.fetch_add(1, Ordering::SeqCst);
        }
        false
    }

    /// Spins for about as long as it takes to wake a thread, until it has rung since, and tells how often it has rung. Where that was in
    /// vain of late, as it is while other work has the processors, it spins for less. One thread at a time spins, so that one processor at
    /// most is kept from others; a further one comes back at once.
    pub fn spin(&self, rings: u64) -> u64 {
        if self.turn_spinner(NOBODY, SPINS) {
            let vain = self.vain.load(Ordering::SeqCst);
            let most = if vain < IN_VAIN || vain % TRIAL == 0 {
                MOST_SPINS
            } else {
                FEW_SPINS
            };
            let vain = if self.rings_within(rings, most) {
                0
            } else {
                vain.saturating_add(1)
            };
            self.vain.store(vain, Ordering::SeqCst);
            self.spinner.store(NOBODY, Ordering::SeqCst);
        }
        self.rings.load(Ordering::SeqCst)
    }

    /// Sleeps where it hasn't rung since, for so many microseconds at most, and tells how often it has rung.
    pub fn sleep<R: Wait>(&self, rt: &R, rings: u64, micros: u64) -> u64 {
        if micros > SHORT_SLEEP {
            self.long.store(1, Ordering::SeqCst);
        }
        // Before the ring is looked at, so that one who rings sees either a sleeper or none that will sleep.
        self.sleepers.fetch_add(1, Ordering::SeqCst);
        self.rings.park_timeout(
            rt,
            (rings % 0x1_0000_0000) as u32,
            Duration::from_micros(micros),
        );
        self.sleepers.fetch_sub(1, Ordering::SeqCst);
        self.rings.load(Ordering::SeqCst)
    }

    /// Rings, and wakes one thread that sleeps, unless one spins, which hears it by itself; all, where somebody may sleep
    /// long, so that none comes late.
    pub fn ring(&self) {
        self.rings.fetch_add(1, Ordering::SeqCst);
        if !self.turn_spinner(SPINS, HEARS) {
            self.wake(self.long.load(Ordering::SeqCst) != 0);
        }
    }

    /// Rings, and wakes all threads that sleep.
    pub fn ring_all(&self) {
        self.rings.fetch_add(1, Ordering::SeqCst);
        self.wake(true);
    }

    // Wakes all threads that sleep, or one.
    fn wake(&self, all: bool) {
        if self.sleepers.load(Ordering::SeqCst) == 0 {
            return;
        }
        if all {
            self.long.store(0, Ordering::SeqCst);
            self.rings.wake_all();
        } else {
            self.rings.wake_one();
        }
    }
}
