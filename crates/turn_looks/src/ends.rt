//! How a caller waits for an end. No clause speaks of it.

use crate::pauses::IDLE;
use std::sync::Wait;
use turn_cell::{Bell, EACH_END, NO_END, SHORT_SLEEP};

// So long it is deaf at least and at most, in microseconds, where ends come quickly of which any may be the last.
const BRIEFLY: u64 = 50;

const LONGEST: u64 = 1_000;

// If it missed more ends while it was deaf, the next time is twice as long.
const FEW: u64 = 8;

/// A caller that awaits an end: it spins on the bell, and then sleeps until it rings.
#[derive(Drop)]
pub struct Awaiting<'a> {
    bell: &'a Bell,
    // What it awaits.
    end: u64,
    // How often the bell had rung when it was last heard.
    heard: u64,
    // Whether it has rung since the end was last awaited.
    rung: bool,
    // Whether it has spun.
    spun: bool,
    // So long it is deaf the next time, in microseconds.
    deaf: u64,
}

impl<'a> Awaiting<'a> {
    /// Listens, and awaits this end.
    pub fn new(bell: &'a Bell, end: u64) -> Awaiting<'a> {
        let _ = bell.listen();
        Awaiting {
            bell,
            end,
            heard: bell.await_end(end),
            rung: false,
            spun: false,
            deaf: BRIEFLY,
        }
    }

    /// Waits once, after a look in vain.
    pub fn wait<R: Wait>(&mut self, rt: &R) {
        if self.rung {
            self.await_again(rt);
            return;
        }
        let mut rings = self.heard;
        if !self.spun {
            self.spun = true;
            rings = self.bell.spin(rings);
        }
        if rings == self.heard {
            let micros = if self.end == NO_END {
                SHORT_SLEEP
            } else {
                IDLE
            };
            rings = self.bell.sleep(rt, rings, micros);
        }
        self.rung = rings != self.heard;
        self.heard = rings;
    }

    // The bell rang, but not for its end. Where further ends came before it had looked, it is deaf for a while, so that they don't all wake
    // it: but for a worker that finds no task.
    fn await_again<R: Wait>(&mut self, rt: &R) {
        if self.end == EACH_END && self.bell.missed() > 0 {
            let rings = self.bell.await_end(NO_END);
            let _ = self.bell.sleep(rt, rings, self.deaf);
            self.deaf = if self.bell.missed() > FEW {
                self.deaf.saturating_mul(2).min(LONGEST)
            } else {
                BRIEFLY
            };
        }
        self.heard = self.bell.await_end(self.end);
        self.rung = false;
    }

    /// Waits no more.
    pub fn end(self) {
        self.bell.leave();
    }
}
