//! The callers of the node.

ghost use Rattle.std.specs.Prelude.{◌≡◌, ◌≤◌, []};
ghost use Rattle.workload_runners.specs.Turns.{Seat, SameNodeSeat};
ghost use Rattle.node_with_workers.specs.Clients.{Enters, SeatGoesOn, HasThreads, IsUnopened, Opens, SaysOf};

use crate::failure::Failure;
use mtapi_values::MtapiStatus;
use node_core::Journaled;
use sched_workers::Caller;
use std::sync::Wait;
use turn_cell::{TurnCell, TurnSeat};
use workload_runners::crew::callers::closed;
use workload_runners::{Held, Holder};

/// What a program does on a node, between its opening and its end.
pub trait Client: Drop {
    /// What comes of it.
    type Told: Drop;

    // What it promises: of itself, of its caller's seat before its calls and after them, and of what it was told.
    ghost promise: { Self → Seat → Seat → Self.Told → Type 0 };

    /// Calls the node, which is open. It may leave tasks that haven't ended, and needn't end the node.
    fn call<R: Wait>(self, rt: &R, caller: &mut Caller) -> Self::Told
        ensures same { SameNodeSeat caller.old caller.new }
        ensures goes_on { SeatGoesOn caller.old caller.new }
        ensures kept { promise self caller.old caller.new result };
}

// Why a call of this seat answered a status: the turns of the cell are used up, or the node refused it.
fn failure_of(seat: &TurnSeat<Journaled>, status: MtapiStatus) -> Failure
    ensures says { SaysOf seat.now status result }
    ensures started { HasThreads result }
{
    match seat.spent() {
        Some(spent) => Failure::Spent(spent),
        None => Failure::Refused(status),
    }
}

// Begins the end of a node that main couldn't open, and says why.
fn unopened<R: Wait, T: Drop>(
    rt: &R,
    cell: &TurnCell<Journaled>,
    seat: TurnSeat<Journaled>,
    status: MtapiStatus,
) -> Held<Result<T, Failure>>
    requires cell { seat.cell ≡ cell.now.id }
    ensures { IsUnopened seat status result }
{
    let failure = failure_of(&seat, status);
    Held {
        seat: closed(rt, cell, seat),
        told: Err(failure),
    }
}

// Opens the node, lets the further callers in, and has the client call. Where the node isn't opened, its end begins at once.
fn call<R: Wait, C: Client>(
    rt: &R,
    cell: &TurnCell<Journaled>,
    seat: TurnSeat<Journaled>,
    client: C,
) -> Held<Result<C::Told, Failure>>
    requires cell { seat.cell ≡ cell.now.id }
    requires caller { seat.terms.node.settings.workers ≤ seat.number }
    requires new { seat.mine ≡ [] }
    ensures same { SameNodeSeat seat result.seat }
    ensures told { Opens C.promise client seat.terms.node seat.number result.told result.seat.mine }
{
    let mut caller = Caller::new(cell, seat);
    match caller.initialize(rt) {
        Ok(()) => match caller.release(rt) {
            Ok(()) => {
                let told = client.call(rt, &mut caller);
                let seat = caller.into_seat();
                Held {
                    seat,
                    told: Ok(told),
                }
            }
            Err(status) => unopened(rt, cell, caller.into_seat(), status),
        },
        Err(status) => unopened(rt, cell, caller.into_seat(), status),
    }
}

// Waits until main lets the further callers in, and has the client call. Where the end of the node begins first, it isn't let in.
fn call_inside<R: Wait, D: Client>(
    rt: &R,
    cell: &TurnCell<Journaled>,
    seat: TurnSeat<Journaled>,
    client: D,
) -> Held<Result<D::Told, Failure>>
    requires cell { seat.cell ≡ cell.now.id }
    requires caller { seat.terms.node.settings.workers ≤ seat.number }
    requires new { seat.mine ≡ [] }
    ensures same { SameNodeSeat seat result.seat }
    ensures told { Enters D.promise client seat.terms.node seat.number result.told result.seat.mine }
{
    let mut caller = Caller::new(cell, seat);
    match caller.enter(rt) {
        Ok(()) => {
            let told = client.call(rt, &mut caller);
            let seat = caller.into_seat();
            Held {
                seat,
                told: Ok(told),
            }
        }
        Err(status) => {
            let seat = caller.into_seat();
            seat.known();
            Held {
                told: Err(failure_of(&seat, status)),
                seat,
            }
        }
    }
}

/// Main, which opens the node and lets the further callers in before its client calls.
#[derive(Drop)]
pub struct Opening<C: Drop> {
    /// Its client.
    pub client: C,
}

impl<C: Client> Holder for Opening<C> {
    ghost use Rattle.node_with_workers.specs.Clients.{Opens};

    type Told = Result<C::Told, Failure>;

    ghost promise = { λ o t who told es. Opens C.promise o.client t who told es };

    fn hold<R: Wait>(
        self,
        rt: &R,
        cell: &TurnCell<Journaled>,
        seat: TurnSeat<Journaled>,
    ) -> Held<Result<C::Told, Failure>> {
        let Opening { client } = self;
        call(rt, cell, seat, client)
    }
}

/// A further caller, which waits to be let in before its client calls.
#[derive(Drop)]
pub struct Entering<D: Drop> {
    /// Its client.
    pub client: D,
}

impl<D: Client> Holder for Entering<D> {
    ghost use Rattle.node_with_workers.specs.Clients.{Enters};

    type Told = Result<D::Told, Failure>;

    ghost promise = { λ e t who told es. Enters D.promise e.client t who told es };

    fn hold<R: Wait>(
        self,
        rt: &R,
        cell: &TurnCell<Journaled>,
        seat: TurnSeat<Journaled>,
    ) -> Held<Result<D::Told, Failure>> {
        let Entering { client } = self;
        call_inside(rt, cell, seat, client)
    }
}
