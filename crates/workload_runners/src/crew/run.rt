//! The node, from its start to its journal.

ghost use Rattle.std.specs.Prelude.{◌≡◌, ◌+◌, ◌-◌, ◌≤◌, ◌<◌, ℕ, true, false, List, [], ◌∷◌, ◌++◌, length, IfOk, IfErr, vec_len, vec_capacity};
ghost use Rattle.node_core.specs.Stands.{NodeStands, terms_of_node};
ghost use Rattle.turn_cell.specs.Seats.{fresh_seats};
ghost use Rattle.run_beside.specs.Pairs.{Counts};
ghost use Rattle.workload_runners.specs.Runs.{Causes, GivesMain, is_refused};
ghost use Rattle.workload_runners.specs.Crews.{AreDealt, CameFrom, IsWhole};
ghost use Rattle.workload_runners.specs.Ran.{RanAs};

use crate::crew::callers::UnstartedCallers;
use crate::crew::end::{Ended, end_with};
use crate::crew::holder::Holder;
use crate::crew::serving::{Serve, ServeSource};
use crate::crew::workers::{Crew, UnstartedThreads, start_workers};
use crate::run::RunError;
use node_core::{Journaled, Node, Op, Reply, RunJournal, journal_of};
use run_beside::Beside;
use std::alloc::{AllocError, Global};
use std::sync::Wait;
use std::thread::Threads as StartsThreads;
use turn_cell::{TurnCell, TurnSeat};

/// What comes of a node that threads ran.
#[derive(Drop)]
pub struct RanNode<T: Drop, U: Drop, A: Drop> {
    /// What main's client was told.
    pub told: T,
    /// What the clients of the further callers were told, in their order.
    pub others: Vec<U>,
    /// What the last call of main, which ends the node, was answered.
    pub last: Reply,
    /// The journal of all calls.
    pub journal: RunJournal,
    /// What the workers were given, as their sets of actions.
    pub sets: Vec<A>,
}

// The seats of a new cell for those who get them, and room for all that come back.
fn deal<C: Drop, D: Drop, U: Drop, A: Drop>(
    alloc: Global,
    cell: &TurnCell<Journaled>,
    seats: Vec<TurnSeat<Journaled>>,
    client: C,
    others: Vec<D>,
) -> Result<UnstartedThreads<C, D, U, A>, AllocError>
    requires fresh { seats.items ≡ fresh_seats cell.now.terms cell.now.id 0 (vec_len seats) }
    requires count { vec_len seats ≡ cell.now.terms.node.settings.workers + (vec_len others + 1) }
    ensures { IfOk result (AreDealt cell.now client others) }
{
    let _ = cell;
    let workers = seats.len() - others.len() - 1;
    let room = Vec::with_capacity(alloc, seats.len())?;
    let told = Vec::with_capacity(alloc, others.len())?;
    let sets = Vec::with_capacity(alloc, workers)?;
    let mut seats = seats;
    let mut rest = seats.split_off(workers)?;
    let further = rest.split_off(1)?;
    let Some(main) = rest.pop() else {
        unreachable!()
    };
    Ok(UnstartedThreads {
        workers: seats,
        callers: UnstartedCallers {
            main,
            client,
            seats: further,
            others,
            room,
            told,
        },
        sets,
    })
}

// All seats.
fn with_main(
    main: TurnSeat<Journaled>,
    others: Vec<TurnSeat<Journaled>>,
) -> Vec<TurnSeat<Journaled>>
    requires { vec_len others < vec_capacity others }
    ensures { result.items ≡ others.items ++ main ∷ [] }
{
    let mut others = others;
    let _ = others.push(main);
    others
}

// Main meets the workers and ends the node; then its cell is closed, and the journal taken out of it.
fn end<R: Wait, A: Serve, C: Holder, D: Holder>(
    rt: &R,
    cell: TurnCell<Journaled>,
    crew: Crew<C::Told, D::Told, A>,
) -> Result<RanNode<C::Told, D::Told, A>, RunError>
    requires keeps { cell.terms.keeps ≡ true }
    requires came { IsWhole A.rounds C.promise D.promise cell crew }
    requires room { vec_len crew.seats < vec_capacity crew.seats }
    ensures ran { (client : C) (others : List D) → CameFrom A.rounds C.promise D.promise cell client others cell.terms.node.settings.workers crew
        → IfOk result (RanAs A.rounds C.promise D.promise client others cell.terms.node) }
    ensures sets { IfOk result (λ r. r.sets ≡ crew.sets) }
    ensures started { is_refused result ≡ false }
{
    let Crew {
        main,
        told,
        seats,
        others,
        sets,
        spent,
    } = crew;
    let Ended {
        main,
        others: seats,
        answer,
    } = end_with(rt, &cell, main, seats, Op::Final);
    if let Some(spent) = spent {
        return Err(RunError::Spent(spent));
    }
    match answer {
        Ok(last) => match journal_of(cell.close(with_main(main, seats))) {
            Ok(journal) => Ok(RanNode {
                told,
                others,
                last,
                journal,
                sets,
            }),
            Err(_) => Err(RunError::Memory),
        },
        Err(spent) => Err(RunError::Spent(spent)),
    }
}

/// Runs a new node: its workers and the further callers each in a thread of its own, main on the calling thread.
///
/// Main meets each further caller before it begins the end of the node, and each worker before it ends it.
///
/// # Errors
///
/// - `Refused`: a thread was refused. Main's client made no call, and all threads that were started have ended. No other answer is given where
///   a thread was refused.
/// - `Spent`: the turns of the cell are used up.
/// - `Memory`: there was no memory for the cell, for the lists of its seats, or for the journal.
pub fn run_crew<
    S: ServeSource,
    B: Beside,
    C: Holder,
    D: Holder + Send,
    R: StartsThreads + Wait + Sync,
>(
    rt: &R,
    alloc: Global,
    node: Node,
    acts: &mut S,
    beside: &mut B,
    client: C,
    others: Vec<D>,
) -> Result<RanNode<C::Told, D::Told, S::Set>, RunError>
where
    D::Told: Send,
    requires new { NodeStands node [] }
    requires callers { (terms_of_node node).callers ≡ vec_len others + 1 }
    ensures ran { IfOk result (RanAs S.Set.rounds C.promise D.promise client others.items (terms_of_node node)) }
    ensures sets { IfOk result (λ r. vec_len r.sets ≡ (terms_of_node node).settings.workers) }
    ensures causes { IfErr result (Causes (B.refusals beside.old) (B.refusals beside.new)) }
    ensures counts { Counts (is_refused result) (B.refusals beside.old) (B.refusals beside.new) }
    ensures unbegun { IfErr result (GivesMain (terms_of_node node).settings.workers) }
{
    let object = Journaled::with(alloc, node);
    let Ok((cell, seats)) = TurnCell::new(alloc, object) else {
        return Err(RunError::Memory);
    };
    let Ok(threads) = deal(alloc, &cell, seats, client, others) else {
        return Err(RunError::Memory);
    };
    match start_workers(rt, &cell, acts, beside, threads) {
        Ok(crew) => end::<R, S::Set, C, D>(rt, cell, crew),
        Err(main) => Err(RunError::Refused(main)),
    }
}
