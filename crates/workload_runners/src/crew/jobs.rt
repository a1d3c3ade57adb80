//! The threads of a worker and of a further caller.

ghost use Rattle.std.specs.Prelude.{◌≡◌, ◌<◌, ◌≤◌, []};
ghost use Rattle.workload_runners.specs.Rounds.{AtRest};

use crate::crew::holder::{Held, Holder};
use crate::crew::serving::{Serve, Served};
use node_core::Journaled;
use run_beside::Job;
use std::sync::Wait;
use turn_cell::{TurnCell, TurnSeat};

/// A worker, in a thread of its own.
#[derive(Drop)]
pub struct WorkerJob<'a, A: Drop> {
    pub cell: &'a TurnCell<Journaled>,
    pub seat: TurnSeat<Journaled>,
    pub set: A,
    pub ghost of_cell: { seat.cell ≡ cell.now.id },
    pub ghost rest: { AtRest seat },
}

impl<'a, A: Drop> WorkerJob<'a, A> {
    /// The job of a worker whose seat has made no call and seen none.
    pub fn new(cell: &'a TurnCell<Journaled>, seat: TurnSeat<Journaled>, set: A) -> WorkerJob<'a, A>
        requires cell { seat.cell ≡ cell.now.id }
        requires worker { seat.number < seat.terms.node.settings.workers }
        requires new { seat.seen ≡ [] }
        ensures { result.seat ≡ seat }
    {
        WorkerJob { cell, seat, set }
    }
}

impl<'a, A: Serve + Drop + Send> Job for WorkerJob<'a, A> {
    ghost use Rattle.workload_runners.specs.Crews.{HasServed};

    type Done = Served<A>;

    ghost promise = { λ j d. HasServed A.rounds j.seat d };

    fn go<R: Wait>(self, rt: &R) -> Served<A> {
        let WorkerJob { cell, seat, set } = self;
        set.serve(rt, cell, seat)
    }
}

/// A further caller, in a thread of its own.
#[derive(Drop)]
pub struct CallerJob<'a, D: Holder> {
    pub cell: &'a TurnCell<Journaled>,
    pub seat: TurnSeat<Journaled>,
    pub client: D,
    pub ghost of_cell: { seat.cell ≡ cell.now.id },
    pub ghost caller: { seat.terms.node.settings.workers ≤ seat.number },
    pub ghost new: { seat.mine ≡ [] },
}

impl<'a, D: Holder + Send> Job for CallerJob<'a, D>
where
    D::Told: Send,
{
    ghost use Rattle.workload_runners.specs.Crews.{HasHeld};

    type Done = Held<D::Told>;

    ghost promise = { λ j r. HasHeld D.promise j.client j.seat r.seat r.told };

    fn go<R: Wait>(self, rt: &R) -> Held<D::Told> {
        let CallerJob { cell, seat, client } = self;
        client.hold(rt, cell, seat)
    }
}
