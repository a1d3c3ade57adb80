//! How those wait that stand in line for a turn. It changes nothing that a clause speaks of, and no clause says that a wait ends.
use crate::bells::Bell;
use crossbeam_utils::Backoff;
use std::sync::Wait;

// Tickets that differ by a multiple of it share a bell.
const BELLS: usize = 16;

// So long the first sleep of a seat is at most, in microseconds.
const FIRST: u64 = 1_000;

// So long each sleep is at most, in microseconds. So late a seat comes at the latest that didn't hear its bell.
const LONGEST: u64 = 8_000;

/// The bells of those that stand in line: each ticket has one, which is rung when the ticket is served.
#[derive(Drop)]
pub(crate) struct Line {
    bells: [Bell; BELLS],
}

impl Line {
    pub(crate) fn new() -> Line {
        Line {
            bells: std::array::from_fn(|_| Bell::new()),
        }
    }

    /// The bell for this ticket.
    pub(crate) fn bell(&self, ticket: u64) -> &Bell {
        &self.bells[(ticket % BELLS as u64) as usize]
    }

    /// Wakes those that sleep until this ticket is served.
    pub(crate) fn wake(&self, ticket: u64) {
        let bell = self.bell(ticket);
        if bell.is_heard() {
            bell.ring_all();
        }
    }
}

/// One seat that waits for its ticket: it spins, then yields, and then sleeps until its bell rings, twice as long at most each time.
#[derive(Drop)]
pub(crate) struct Waiting<'a> {
    bell: &'a Bell,
    backoff: Backoff,
    // How often the bell had rung when it was last heard, while the seat listens.
    heard: Option<u64>,
    // So long the next sleep is at most, in microseconds.
    micros: u64,
}

impl<'a> Waiting<'a> {
    pub(crate) fn new(bell: &'a Bell) -> Waiting<'a> {
        Waiting {
            bell,
            backoff: Backoff::new(),
            heard: None,
            micros: FIRST,
        }
    }

    /// Waits once between two looks. Before its first sleep it begins to listen, so that no ring between the look and the sleep is lost.
    pub(crate) fn pause<R: Wait>(&mut self, rt: &R) {
        if !self.backoff.is_completed() {
            self.backoff.snooze();
            return;
        }
        match self.heard {
            None => self.heard = Some(self.bell.listen()),
            Some(rings) => {
                self.heard = Some(self.bell.sleep(rt, rings, self.micros));
                self.micros = self.micros.saturating_mul(2).min(LONGEST);
            }
        }
    }

    /// Waits no more.
    pub(crate) fn end(self) {
        if self.heard.is_some() {
            self.bell.leave();
        }
    }
}
