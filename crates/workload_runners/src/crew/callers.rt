//! The threads of the further callers, and main beside them.

ghost use Rattle.std.specs.Prelude.{◌≡◌, ◌≤◌, ◌<◌, [], vec_len, vec_capacity, IfOk, IfErr};
ghost use Rattle.std.specs.Thread.{IsSync};
ghost use Rattle.run_beside.specs.Pairs.{Counts};
ghost use Rattle.workload_runners.specs.Crews.{GaveUp, HaveHeld, IsOneMore, MayCall, is_seat_alone};

use crate::crew::holder::{Held, Holder};
use crate::crew::jobs::CallerJob;
use node_core::{Journaled, Op};
use run_beside::{Beside, pair};
use std::sync::Wait;
use std::thread::Threads as StartsThreads;
use turn_cell::{TurnCell, TurnSeat};
use turn_looks::turn;

/// Main's seat and its client, the seats and the clients of the further callers that aren't started yet, and room for the seats that come back
/// and for what they are told.
#[derive(Drop)]
pub struct UnstartedCallers<C: Drop, D: Drop, U: Drop> {
    pub main: TurnSeat<Journaled>,
    pub client: C,
    pub seats: Vec<TurnSeat<Journaled>>,
    pub others: Vec<D>,
    pub room: Vec<TurnSeat<Journaled>>,
    pub told: Vec<U>,
}

/// Main's seat and what its client was told, and those of the further callers whose threads are served, in the order of their numbers.
#[derive(Drop)]
pub struct ReturnedCallers<T: Drop, U: Drop> {
    pub main: TurnSeat<Journaled>,
    pub told: T,
    pub seats: Vec<TurnSeat<Journaled>>,
    pub others: Vec<U>,
}

// Main closes, where a ticket is left.
fn close<R: Wait>(rt: &R, cell: &TurnCell<Journaled>, seat: &mut TurnSeat<Journaled>)
    requires { seat.old.cell ≡ cell.now.id }
    ensures { GaveUp seat.old seat.new }
{
    let _ = turn(rt, cell, seat, Op::Close);
}

/// Begins the end of the node, so that nobody waits at the entrance any more, and wakes the workers.
pub fn closed<R: Wait>(
    rt: &R,
    cell: &TurnCell<Journaled>,
    seat: TurnSeat<Journaled>,
) -> TurnSeat<Journaled>
    requires { seat.cell ≡ cell.now.id }
    ensures { GaveUp seat result }
{
    let mut seat = seat;
    close(rt, cell, &mut seat);
    cell.work().ring_all();
    seat
}

// The returned with one more further caller, whose thread is served.
fn joined<T: Drop, U: Drop>(returned: ReturnedCallers<T, U>, held: Held<U>) -> ReturnedCallers<T, U>
    requires seats { vec_len returned.seats < vec_capacity returned.seats }
    requires others { vec_len returned.others < vec_capacity returned.others }
    ensures { IsOneMore returned held result }
{
    let ReturnedCallers {
        main,
        told,
        mut seats,
        mut others,
    } = returned;
    let _ = seats.push(held.seat);
    let _ = others.push(held.told);
    ReturnedCallers {
        main,
        told,
        seats,
        others,
    }
}

/// Starts a thread for each further caller, one inside the other, and has main's client call beside them. All of them have ended when it returns.
/// Where a thread is refused the end of the node begins at once, and it gives main's seat back.
pub(crate) fn start_callers<B: Beside, C: Holder, D: Holder + Send, R: StartsThreads + Wait + Sync>(
    rt: &R,
    cell: &TurnCell<Journaled>,
    beside: &mut B,
    callers: UnstartedCallers<C, D, D::Told>,
) -> Result<ReturnedCallers<C::Told, D::Told>, TurnSeat<Journaled>>
where
    D::Told: Send,
    requires { MayCall cell.now callers }
    ensures back { IfOk result (HaveHeld C.promise D.promise cell.now callers) }
    ensures lost { IfErr result (GaveUp callers.main) }
    ensures counts { Counts (is_seat_alone result) (B.refusals beside.old) (B.refusals beside.new) }
{
    let mut callers = callers;
    let Some(client) = callers.others.pop() else {
        let UnstartedCallers {
            main,
            client,
            seats: _,
            others: _,
            room,
            told: others,
        } = callers;
        let Held { seat, told } = client.hold(rt, cell, main);
        return Ok(ReturnedCallers {
            main: seat,
            told,
            seats: room,
            others,
        });
    };
    let Some(seat) = callers.seats.pop() else {
        unreachable!()
    };
    let job = CallerJob { cell, seat, client };
    let outcome = pair(
        beside,
        rt,
        job,
        callers,
        |beside: &mut B, callers: UnstartedCallers<C, D, D::Told>| -> Result<
            ReturnedCallers<C::Told, D::Told>,
            TurnSeat<Journaled>,
        >
            requires { MayCall cell.now callers × IsSync R.row }
            ensures back { IfOk result (HaveHeld C.promise D.promise cell.entry.now callers) }
            ensures lost { IfErr result (GaveUp callers.main) }
            ensures counts { Counts (is_seat_alone result) (B.refusals beside.old) (B.refusals beside.new) }
        { start_callers(rt, cell, beside, callers) },
    );
    match outcome {
        Ok((held, returned)) => match returned {
            Ok(returned) => Ok(joined(returned, held)),
            Err(main) => Err(main),
        },
        Err((_, callers, _)) => Err(closed(rt, cell, callers.main)),
    }
}
