//! That the system had no thread.

ghost use Rattle.std.specs.Prelude.{◌<◌, ◌≡◌};

use node_core::Journaled;
use sched_workers::{Beside, Threads};
use std::fmt;
use turn_cell::TurnSeat;

/// That the system had no thread. It holds a count of refused threads, which a refusal alone raises.
#[derive(Drop)]
pub struct NoThread {
    /// Main's seat, which tells the calls that main made.
    pub main: TurnSeat<Journaled>,
    threads: Threads,
    ghost refused: { 0 < ⟦<Threads as Beside>⟧.refusals threads },
}

impl NoThread {
    /// Shows it by a count of refused threads.
    pub fn shown_by(threads: Threads, main: TurnSeat<Journaled>) -> NoThread
        requires { 0 < ⟦<Threads as Beside>⟧.refusals threads }
        ensures { result.main ≡ main }
    {
        NoThread { main, threads }
    }
}

impl fmt::Debug for NoThread {
    fn fmt<W: fmt::Write>(&self, f: &mut fmt::Formatter<W>) -> fmt::Result {
        let _ = &self.threads;
        f.write_str("NoThread")
    }
}
