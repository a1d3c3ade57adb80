//! Pieces that are all run, and waited for.

ghost use Rattle.std.specs.Prelude.{◌≡◌, ◌<◌, ◌^◌, Some, IfOk, IfErr, map, vec_len};
ghost use Rattle.std.specs.List.{All};
ghost use Rattle.node_with_workers.specs.Clients.{IfRefused};
ghost use Rattle.node_with_workers.specs.declared.failure.Failure.TheVariants.{Memory};
ghost use Rattle.typed_pieces.specs.Places.{AreKept, IsFirstWithout};
ghost use Rattle.typed_pieces.specs.Runs.{FailsBy, HasRun, HasRunAll, IfNoResult, MeansTooMany, RefusesPieces};

use crate::client::PieceClient;
use crate::node::{Worked, with_pieces};
use crate::piece::Piece;
use crate::pieces::{Pieces, make_action, start_place};
use crate::table::Handed;
use crate::unfinished::Unfinished;
use mtapi_values::{MtapiStatus, NodeAttr, TaskAttr, Timeout};
use node_with_workers::Failure;
use sched_workers::Caller;
use std::alloc::Global;
use std::sync::Wait;
use std::thread::Threads;

/// A client that starts a task for each piece, all in one group, and waits for the group.
#[derive(Drop)]
pub struct AllPieces {
    /// How many pieces there are.
    pub count: u32,
}

// The job of its action.
const JOB: u32 = 1;

impl<J: Piece> PieceClient<J> for AllPieces {
    ghost use Rattle.std.specs.Prelude.{IfOk, IfErr};
    ghost use Rattle.workload_runners.specs.Turns.{SameNodeSeat};
    ghost use Rattle.typed_pieces.specs.Runs.{HasAwaited, StopsAt};

    type Told = Result<(), MtapiStatus>;

    ghost promise = { λ all _ old new told. IfOk told (λ _. HasAwaited all.count old new) × IfErr told (λ status. StopsAt all.count status old new) };

    fn call<R: Wait, L: Handed<J>>(
        self,
        rt: &R,
        caller: &mut Caller,
        _pieces: &Pieces<L, J>,
    ) -> Result<(), MtapiStatus> {
        make_action(rt, caller, JOB)?;
        let group = caller.group_create(rt)?;
        for place in 0..self.count {
            start_place(rt, caller, place, JOB, TaskAttr::new(), Some(group))?;
        }
        caller.group_wait_all(rt, group, Timeout::Infinite)
    }
}

/// The results, if each is there.
///
/// # Errors
///
/// - `Node(Memory)`: there was none for the list of them.
/// - `NoResult`: the result of this place isn't there, and it is the first such place.
pub fn all_there<D: Drop>(alloc: Global, results: Vec<Option<D>>) -> Result<Vec<D>, Unfinished>
    ensures there { IfOk result (λ v. map Some v.items ≡ results.items) }
    ensures causes { IfErr result (λ u. FailsBy u (λ e. e ≡ Memory)) }
    ensures first { vec_len results < 2 ^ 32 → IfErr result (λ u. IfNoResult u (λ place. IsFirstWithout results.items place)) }
    ensures within { IfErr result (λ u. IfNoResult u (λ place. place < vec_len results)) }
{
    let mut there = Vec::with_capacity(alloc, results.len())?;
    for result in results {
        let Some(done) = result else {
            let place = u32::try_from(there.len()).unwrap_or(u32::MAX);
            return Err(Unfinished::NoResult(place));
        };
        let Ok(()) = there.push(done) else {
            return Err(Unfinished::Node(Failure::Memory));
        };
    }
    Ok(there)
}

/// Makes a node with these settings, has its workers run these pieces, each as a task, waits for all of them, and ends the node. Each result
/// stands at the place of its piece and keeps what this one promises.
///
/// There may be as many pieces as the node has tasks (`NodeAttr::TASKS`).
///
/// # Errors
///
/// - `Node`: as with `with_pieces`. `Refused` is with `ErrTaskLimit` only if there are more pieces than the node may have tasks.
/// - `NoResult`: a task completed without a result of the piece of this place, which is the first such one. It doesn't occur, but no clause
///   says so.
pub fn run_pieces<J: Piece + Send, R: Threads + Wait + Sync>(
    rt: &R,
    alloc: Global,
    settings: NodeAttr,
    pieces: Vec<J>,
) -> Result<Worked<(), J::Done>, Unfinished>
where
    J::Done: Send,
    requires ready { All J.ready pieces.items }
    ensures run { IfOk result (λ w. HasRun settings w.journal) }
    ensures awaited { vec_len pieces < 2 ^ 32 → IfOk result (λ w. HasRunAll settings (vec_len pieces) w.journal) }
    ensures causes { IfErr result (λ u. FailsBy u (λ e. IfRefused e (RefusesPieces settings))) }
    ensures limit { IfErr result (λ u. FailsBy u (λ e. IfRefused e (MeansTooMany settings (vec_len pieces)))) }
    ensures missing { IfErr result (λ u. IfNoResult u (λ place. place < vec_len pieces)) }
    ensures kept { IfOk result (λ w. AreKept J.promise pieces.items (map Some w.results.items)) }
    ensures places { IfOk result (λ w. vec_len w.results ≡ vec_len pieces) }
{
    let count = u32::try_from(pieces.len()).unwrap_or(u32::MAX);
    let worked = with_pieces(rt, alloc, settings, pieces, AllPieces { count })?;
    let Worked {
        told,
        journal,
        results,
    } = worked;
    let told = told?;
    let results = all_there(alloc, results)?;
    Ok(Worked {
        told,
        journal,
        results,
    })
}
