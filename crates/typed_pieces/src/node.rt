//! A node whose workers run the pieces.

ghost use Rattle.std.specs.Prelude.{◌≡◌, ◌≤◌, IfOk, IfErr, map, vec_len};
ghost use Rattle.std.specs.List.{All};
ghost use Rattle.node_with_workers.specs.Clients.{IfNoThread, IfRefused};
ghost use Rattle.node_with_workers.specs.Runs.{IsClientRun, IsRunOfAll, Refuses, RefusesOne};
ghost use Rattle.typed_pieces.specs.Places.{AreKept};

use crate::client::{PieceClient, WithPieces};
use crate::context::Cancels;
use crate::piece::Piece;
use crate::pieces::Pieces;
use crate::shared::Shared;
use crate::table::{Handed, Table};
use crate::workers::PieceRunners;
use mtapi_values::NodeAttr;
use node_core::RunJournal;
use node_with_workers::{Failure, with_callers};
use sched_workers::Caller;
use std::alloc::{AllocError, Global};
use std::marker::Brand;
use std::sync::{Mutex, Wait};
use std::thread::Threads;

/// What comes of a node whose workers ran pieces.
#[derive(Drop)]
pub struct Worked<T: Drop, D: Drop> {
    /// What the client was told.
    pub told: T,
    /// The journal of all calls.
    pub journal: RunJournal,
    /// What is at the place of each piece.
    pub results: Vec<D>,
}

/// What comes of a node with further callers whose workers ran pieces.
#[derive(Drop)]
pub struct AllWorked<T: Drop, U: Drop, D: Drop> {
    /// What main's client was told.
    pub told: T,
    /// What the clients of the further callers were told, in their order.
    pub others: Vec<U>,
    /// The journal of all calls.
    pub journal: RunJournal,
    /// What is at the place of each piece.
    pub results: Vec<D>,
}

// Each of these clients beside the pieces.
fn beside<'a, L: Handed<J>, J: Piece, D: PieceClient<J>>(
    alloc: Global,
    clients: Vec<D>,
    shared: &'a Shared<L, J>,
) -> Result<Vec<WithPieces<'a, L, J, D>>, AllocError>
    ensures { IfOk result (λ v. map (λ b. b.client) v.items ≡ clients.items) }
{
    let mut all = Vec::with_capacity(alloc, clients.len())?;
    for client in clients {
        all.push(WithPieces { client, shared })?;
    }
    Ok(all)
}

// The node of these pieces with further callers.
fn over<
    'a,
    L: Handed<J> + Send,
    J: Piece + Send,
    C: PieceClient<J>,
    D: PieceClient<J> + Send,
    R: Threads + Wait + Sync,
>(
    rt: &R,
    alloc: Global,
    settings: NodeAttr,
    shared: &'a Shared<L, J>,
    client: C,
    others: Vec<D>,
) -> Result<(C::Told, Vec<D::Told>, RunJournal), Failure>
where
    J::Done: Send,
    D::Told: Send,
    requires few { vec_len others ≤ 8 }
    ensures run { IfOk result (λ r. IsRunOfAll (λ c. C.promise c L.pieces) (λ d. D.promise d L.pieces) client others.items settings r.0 r.1.items r.2) }
    ensures causes { IfErr result (λ e. IfRefused e (RefusesOne (λ c. C.promise c L.pieces) client (vec_len others) settings)) }
    ensures unbegun { IfErr result (λ e. IfNoThread e settings.workers) }
{
    let others = beside(alloc, others, shared)?;
    let done = with_callers(
        rt,
        alloc,
        settings,
        &mut PieceRunners { shared },
        WithPieces { client, shared },
        others,
    )?;
    Ok((done.told, done.others, done.journal))
}

// The same as `with_pieces_callers`, for pieces that a type names.
fn with_handed<
    L: Handed<J> + Send,
    J: Piece + Send,
    C: PieceClient<J>,
    D: PieceClient<J> + Send,
    R: Threads + Wait + Sync,
>(
    rt: &R,
    alloc: Global,
    settings: NodeAttr,
    pieces: Vec<J>,
    client: C,
    others: Vec<D>,
) -> Result<AllWorked<C::Told, D::Told, Option<J::Done>>, Failure>
where
    J::Done: Send,
    D::Told: Send,
    requires named { L.pieces ≡ pieces.items }
    requires ready { All J.ready pieces.items }
    requires few { vec_len others ≤ 8 }
    ensures run { IfOk result (λ w. IsRunOfAll (λ c. C.promise c pieces.items) (λ d. D.promise d pieces.items) client others.items settings w.told w.others.items w.journal) }
    ensures causes { IfErr result (λ e. IfRefused e (RefusesOne (λ c. C.promise c pieces.items) client (vec_len others) settings)) }
    ensures unbegun { IfErr result (λ e. IfNoThread e settings.workers) }
    ensures kept { IfOk result (λ w. AreKept J.promise pieces.items w.results.items) }
    ensures places { IfOk result (λ w. vec_len w.results ≡ vec_len pieces) }
{
    let cancels = Cancels::none(alloc, pieces.len())?;
    let table = Mutex::new(Table::<L, J>::new(alloc, pieces)?);
    let shared = Shared { table, cancels };
    let (told, others, journal) = over(rt, alloc, settings, &shared, client, others)?;
    let Table { results, .. } = shared.table.into_inner();
    let results = results.into_vec();
    Ok(AllWorked {
        told,
        others,
        journal,
        results,
    })
}

/// The same as `with_pieces`, with a further caller for each of the other clients, as `with_callers` has them: each calls the node on a thread of
/// its own, over the same pieces. A piece runs once at most, also if several of them start it.
///
/// # Errors
///
/// Those of `with_callers`, and `Memory` if there was none for the table of the pieces.
pub fn with_pieces_callers<
    J: Piece + Send,
    C: PieceClient<J>,
    D: PieceClient<J> + Send,
    R: Threads + Wait + Sync,
>(
    rt: &R,
    alloc: Global,
    settings: NodeAttr,
    pieces: Vec<J>,
    client: C,
    others: Vec<D>,
) -> Result<AllWorked<C::Told, D::Told, Option<J::Done>>, Failure>
where
    J::Done: Send,
    D::Told: Send,
    requires few { vec_len others ≤ 8 }
    requires ready { All J.ready pieces.items }
    ensures run { IfOk result (λ w. IsRunOfAll (λ c. C.promise c pieces.items) (λ d. D.promise d pieces.items) client others.items settings w.told w.others.items w.journal) }
    ensures causes { IfErr result (λ e. IfRefused e (RefusesOne (λ c. C.promise c pieces.items) client (vec_len others) settings)) }
    ensures unbegun { IfErr result (λ e. IfNoThread e settings.workers) }
    ensures kept { IfOk result (λ w. AreKept J.promise pieces.items w.results.items) }
    ensures places { IfOk result (λ w. vec_len w.results ≡ vec_len pieces) }
{
    with_handed::<Brand, J, C, D, R>(rt, alloc, settings, pieces, client, others)
}

// The client of a further caller that there isn't.
#[derive(Drop)]
struct Nobody;

impl<J: Piece> PieceClient<J> for Nobody {
    type Told = ();

    ghost promise = { λ _ _ _ _ _. Unit {0} };

    #[tactic(auto, using(node_with_workers::proofs::Calls::further_calls))]
    fn call<R: Wait, L: Handed<J>>(self, _rt: &R, _caller: &mut Caller, _pieces: &Pieces<L, J>) {}
}

/// Makes a node with these settings and runs it, as `with_workers` does. Its workers run these pieces: a task of kind `echo` with one argument
/// runs the piece of this place, counted from 0, unless a task has run it.
///
/// In the end there is a place for each piece. A result there keeps what the piece of this place promises. A piece runs once at most, since the
/// task takes it.
///
/// No clause says that each completed task left a result: a place is empty if no task ran its piece, or if the client took the result.
///
/// # Errors
///
/// Those of `with_workers`, and `Memory` if there was none for the table of the pieces.
pub fn with_pieces<J: Piece + Send, C: PieceClient<J>, R: Threads + Wait + Sync>(
    rt: &R,
    alloc: Global,
    settings: NodeAttr,
    pieces: Vec<J>,
    client: C,
) -> Result<Worked<C::Told, Option<J::Done>>, Failure>
where
    J::Done: Send,
    requires ready { All J.ready pieces.items }
    ensures run { IfOk result (λ w. IsClientRun (λ c. C.promise c pieces.items) client settings w.told w.journal) }
    ensures causes { IfErr result (λ e. IfRefused e (Refuses (λ c. C.promise c pieces.items) client settings)) }
    ensures unbegun { IfErr result (λ e. IfNoThread e settings.workers) }
    ensures kept { IfOk result (λ w. AreKept J.promise pieces.items w.results.items) }
    ensures places { IfOk result (λ w. vec_len w.results ≡ vec_len pieces) }
{
    let nobody = Vec::<Nobody>::new(alloc);
    let worked = with_pieces_callers(rt, alloc, settings, pieces, client, nobody)?;
    Ok(Worked {
        told: worked.told,
        journal: worked.journal,
        results: worked.results,
    })
}
