//! What the threads of a node's workers do.

ghost use Rattle.std.specs.Prelude.{◌≡◌, ℕ, List};
ghost use Rattle.mtapi_machine.specs.Legal.{NodeEntry};
ghost use Rattle.workload_runners.specs.Rounds.{AtRest};
ghost use Rattle.workload_runners.specs.Crews.{HasServed};

use crate::workers::Worker;
use action_fn::{ActionSet, ActionSource};
use node_core::Journaled;
use std::sync::Wait;
use turn_cell::{Spent, TurnCell, TurnSeat};
use turn_looks::ServeEnd;

/// A worker's seat, and what served on it, once its thread has ended.
#[derive(Drop)]
pub struct Served<A: Drop> {
    pub seat: TurnSeat<Journaled>,
    pub set: A,
    /// Where the turns were used up before it stopped.
    pub spent: Option<Spent>,
}

/// What a worker of a node does with its seat.
pub trait Serve: Drop {
    // What a worker with this number has added to the entries of its seat.
    ghost rounds: { ℕ → List NodeEntry → Type 0 };

    /// Makes calls by a worker's seat, on which no task runs, until it is told to stop or the turns are used up.
    fn serve<R: Wait>(
        self,
        rt: &R,
        cell: &TurnCell<Journaled>,
        seat: TurnSeat<Journaled>,
    ) -> Served<Self>
        requires cell { seat.cell ≡ cell.now.id }
        requires rest { AtRest seat }
        ensures { HasServed rounds seat result };
}

/// A worker runs the actions of its set.
impl<A: ActionSet + Drop> Serve for A {
    ghost use Rattle.workload_runners.specs.Rounds.{WorkerAs};

    ghost rounds = { WorkerAs };

    fn serve<R: Wait>(
        self,
        rt: &R,
        cell: &TurnCell<Journaled>,
        seat: TurnSeat<Journaled>,
    ) -> Served<A> {
        let mut set = self;
        match Worker::new(cell, seat).serve(rt, &mut set) {
            (seat, ServeEnd::Stopped) => Served {
                seat,
                set,
                spent: None,
            },
            (seat, ServeEnd::Spent(spent)) => Served {
                seat,
                set,
                spent: Some(spent),
            },
        }
    }
}

/// Gives each worker of a node what serves on its seat.
pub trait ServeSource {
    /// What serves on a worker's seat.
    type Set: Serve + Send + Drop;

    /// What serves on the seat of this worker.
    fn server_for(&mut self, worker: u32) -> Self::Set;
}

/// Gives each worker a set of actions.
#[derive(Drop)]
pub struct Acting<'a, S: ActionSource> {
    /// Where the sets are from.
    pub acts: &'a mut S,
}

impl<'a, S: ActionSource> ServeSource for Acting<'a, S> {
    type Set = S::Set;

    fn server_for(&mut self, worker: u32) -> S::Set {
        self.acts.for_worker(worker)
    }
}
