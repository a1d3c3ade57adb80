//! The threads of the workers, and the callers beside them.

ghost use Rattle.std.specs.Prelude.{◌≡◌, ◌≤◌, ◌<◌, All, vec_len, vec_capacity, IfOk, IfErr};
ghost use Rattle.std.specs.Thread.{IsSync};
ghost use Rattle.run_beside.specs.Pairs.{Counts};
ghost use Rattle.workload_runners.specs.Turns.{Seat};
ghost use Rattle.workload_runners.specs.Crews.{AreReady, GaveUp, HaveCome, HaveHeld, IsClosedBy, IsJoined, is_seat_alone};

use crate::crew::callers::{ReturnedCallers, UnstartedCallers, closed, start_callers};
use crate::crew::end::{Ended, end_with};
use crate::crew::holder::Holder;
use crate::crew::jobs::WorkerJob;
use crate::crew::serving::{ServeSource, Served};
use node_core::{Journaled, Op};
use run_beside::{Beside, pair};
use std::sync::Wait;
use std::thread::Threads as StartsThreads;
use turn_cell::{Spent, TurnCell, TurnSeat};

/// The seats of the workers that aren't started yet, the callers, and room for what the workers were given.
#[derive(Drop)]
pub struct UnstartedThreads<C: Drop, D: Drop, U: Drop, A: Drop> {
    pub workers: Vec<TurnSeat<Journaled>>,
    pub callers: UnstartedCallers<C, D, U>,
    pub sets: Vec<A>,
}

/// What came back: main's seat, the further callers' and then the workers', what the clients were told, the sets, and whether the turns were
/// used up.
#[derive(Drop)]
pub struct Crew<T: Drop, U: Drop, A: Drop> {
    pub main: TurnSeat<Journaled>,
    pub told: T,
    pub seats: Vec<TurnSeat<Journaled>>,
    pub others: Vec<U>,
    pub sets: Vec<A>,
    pub spent: Option<Spent>,
}

// Main meets the further callers, and begins the end of the node.
fn begin_end<R: Wait, T: Drop, U: Drop, A: Drop>(
    rt: &R,
    cell: &TurnCell<Journaled>,
    returned: ReturnedCallers<T, U>,
    sets: Vec<A>,
) -> Crew<T, U, A>
    requires main { returned.main.cell ≡ cell.now.id }
    requires others { All (λ (s : Seat). s.cell ≡ cell.now.id) returned.seats.items }
    ensures closed { IsClosedBy returned sets result }
{
    let ReturnedCallers {
        main,
        told,
        seats,
        others,
    } = returned;
    let Ended {
        main,
        others: seats,
        answer,
    } = end_with(rt, cell, main, seats, Op::Close);
    Crew {
        main,
        told,
        seats,
        others,
        sets,
        spent: answer.err(),
    }
}

// The crew with one more worker, whose thread has ended.
fn joined<T: Drop, U: Drop, A: Drop>(crew: Crew<T, U, A>, served: Served<A>) -> Crew<T, U, A>
    requires seats { vec_len crew.seats < vec_capacity crew.seats }
    requires sets { vec_len crew.sets < vec_capacity crew.sets }
    ensures { IsJoined crew served result }
{
    let Crew {
        main,
        told,
        mut seats,
        others,
        mut sets,
        spent,
    } = crew;
    let _ = seats.push(served.seat);
    let _ = sets.push(served.set);
    Crew {
        main,
        told,
        seats,
        others,
        sets,
        spent: match spent {
            Some(spent) => Some(spent),
            None => served.spent,
        },
    }
}

/// Starts a thread for each worker, one inside the other, then the callers, and begins the end of the node once all of them are back.
pub(crate) fn start_workers<
    S: ServeSource,
    B: Beside,
    C: Holder,
    D: Holder + Send,
    R: StartsThreads + Wait + Sync,
>(
    rt: &R,
    cell: &TurnCell<Journaled>,
    acts: &mut S,
    beside: &mut B,
    threads: UnstartedThreads<C, D, D::Told, S::Set>,
) -> Result<Crew<C::Told, D::Told, S::Set>, TurnSeat<Journaled>>
where
    D::Told: Send,
    requires { AreReady cell.now threads }
    ensures back { IfOk result (HaveCome S.Set.rounds C.promise D.promise cell.now threads) }
    ensures lost { IfErr result (GaveUp threads.callers.main) }
    ensures counts { Counts (is_seat_alone result) (B.refusals beside.old) (B.refusals beside.new) }
{
    let mut threads = threads;
    let Some(seat) = threads.workers.pop() else {
        let UnstartedThreads {
            workers: _,
            callers,
            sets,
        } = threads;
        return match start_callers(rt, cell, beside, callers) {
            Ok(returned) => Ok(begin_end(rt, cell, returned, sets)),
            Err(main) => Err(main),
        };
    };
    let number = seat.number();
    let job = WorkerJob {
        cell,
        seat,
        set: acts.server_for(number),
    };
    let outcome = pair(
        beside,
        rt,
        job,
        threads,
        |beside: &mut B, threads: UnstartedThreads<C, D, D::Told, S::Set>| -> Result<
            Crew<C::Told, D::Told, S::Set>,
            TurnSeat<Journaled>,
        >
            requires { AreReady cell.now threads × IsSync R.row }
            ensures back { IfOk result (HaveCome S.Set.rounds C.promise D.promise cell.entry.now threads) }
            ensures lost { IfErr result (GaveUp threads.callers.main) }
            ensures counts { Counts (is_seat_alone result) (B.refusals beside.old) (B.refusals beside.new) }
        { start_workers(rt, cell, acts, beside, threads) },
    );
    match outcome {
        Ok((served, crew)) => match crew {
            Ok(crew) => Ok(joined(crew, served)),
            Err(main) => Err(main),
        },
        Err((_, threads, _)) => {
            let callers = threads.callers;
            Err(closed(rt, cell, callers.main))
        }
    }
}
