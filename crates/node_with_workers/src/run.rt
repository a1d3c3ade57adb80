//! The node, from its start to its journal.

ghost use Rattle.std.specs.Prelude.{◌≡◌, ◌≤◌, ◌<◌, true, Err, map, IfOk, IfErr, vec_len};
ghost use Rattle.run_beside.specs.Pairs.{Counts};
ghost use Rattle.workload_runners.specs.Runs.{Causes, GivesMain, is_refused};
ghost use Rattle.node_with_workers.specs.Clients.{IfFailed, IfNoThread, IfRefused, IsUnbegun, is_no_thread, is_thread_refused};
ghost use Rattle.node_with_workers.specs.Runs.{IsClientRun, IsRunBy, IsRunOfAll, IsRunOfAllBy, Refuses, RefusesOne};
ghost use Rattle.node_with_workers.specs.Ends.{IsFailureOf, IsShownAs};

use crate::client::{Client, Entering, Opening};
use crate::failure::{Failure, NodeFailure};
use crate::outcome::unpacked;
use crate::refusals::NoThread;
use action_fn::ActionSource;
use mtapi_values::NodeAttr;
use node_core::{Node, RunJournal};
use sched_workers::{Beside, Caller, Threads};
use std::alloc::{AllocError, Global};
use std::sync::Wait;
use std::thread::Threads as StartsThreads;
use workload_runners::{Acting, RunError, ServeSource, run_crew};

/// What comes of a node that was ended.
#[derive(Drop)]
pub struct Done<T: Drop, A: Drop> {
    /// What the client was told.
    pub told: T,
    /// The journal of all calls.
    pub journal: RunJournal,
    /// What the workers were given, as their sets of actions. It comes in the order of the workers' numbers, which no clause says.
    pub sets: Vec<A>,
}

/// What comes of a node with further callers that was ended.
#[derive(Drop)]
pub struct AllDone<T: Drop, U: Drop, A: Drop> {
    /// What main's client was told.
    pub told: T,
    /// What the clients of the further callers were told, in their order.
    pub others: Vec<U>,
    /// The journal of all calls.
    pub journal: RunJournal,
    /// What the workers were given, as their sets of actions. It comes in the order of the workers' numbers, which no clause says.
    pub sets: Vec<A>,
}

// Each of these clients as a further caller.
fn entering<D: Drop>(alloc: Global, clients: Vec<D>) -> Result<Vec<Entering<D>>, AllocError>
    ensures { IfOk result (λ v. map (λ e. e.client) v.items ≡ clients.items) }
{
    let mut all = Vec::with_capacity(alloc, clients.len())?;
    for client in clients {
        all.push(Entering { client })?;
    }
    Ok(all)
}

// Why there is no journal.
fn failure_of(error: RunError) -> NodeFailure
    ensures { IsFailureOf error result }
{
    match error {
        RunError::Refused(main) => NodeFailure::NoThread(main),
        RunError::Spent(spent) => NodeFailure::Failed(Failure::Spent(spent)),
        RunError::Memory => NodeFailure::Failed(Failure::Memory),
    }
}

// Why a node gave nothing back whose threads were these.
fn shown(failure: NodeFailure, threads: Threads) -> Failure
    requires { is_no_thread failure ≡ true → 0 < ⟦<Threads as Beside>⟧.refusals threads }
    ensures { IsShownAs failure result }
{
    match failure {
        NodeFailure::NoThread(main) => Failure::NoThread(NoThread::shown_by(threads, main)),
        NodeFailure::Failed(failure) => failure,
    }
}

/// The same as `with_callers_beside`, with workers that serve as these do.
///
/// # Errors
///
/// Those of `with_callers_beside`.
pub fn with_servers_beside<
    R: StartsThreads + Wait + Sync,
    S: ServeSource,
    B: Beside,
    C: Client,
    D: Client + Send,
>(
    rt: &R,
    alloc: Global,
    settings: NodeAttr,
    workers: &mut S,
    beside: &mut B,
    client: C,
    others: Vec<D>,
) -> Result<AllDone<C::Told, D::Told, S::Set>, NodeFailure>
where
    D::Told: Send,
    requires few { vec_len others ≤ 8 }
    ensures run { IfOk result (λ d. IsRunOfAllBy S.Set.rounds C.promise D.promise client others.items settings d.told d.others.items d.journal) }
    ensures causes { IfErr result (λ e. IfFailed e (λ f. IfRefused f (RefusesOne C.promise client (vec_len others) settings))) }
    ensures sets { IfOk result (λ d. vec_len d.sets ≡ settings.workers) }
    ensures counts { Counts (is_thread_refused result) (B.refusals beside.old) (B.refusals beside.new) }
    ensures unbegun { IfErr result (IsUnbegun settings.workers) }
{
    let count = others.len();
    let Ok(node) = Node::init(alloc, settings, count as u32 + 1) else {
        return Err(NodeFailure::Failed(Failure::Memory));
    };
    let Ok(callers) = entering(alloc, others) else {
        return Err(NodeFailure::Failed(Failure::Memory));
    };
    let ran = run_crew(
        rt,
        alloc,
        node,
        workers,
        beside,
        Opening { client },
        callers,
    );
    match ran {
        Ok(ran) => match unpacked(alloc, ran) {
            Ok(done) => Ok(done),
            Err(failure) => Err(NodeFailure::Failed(failure)),
        },
        Err(error) => Err(failure_of(error)),
    }
}

/// The same as `with_callers`, with threads that `beside` starts or refuses.
///
/// # Errors
///
/// - `NoThread`: a thread was refused. Main's client made no call, and the threads that were started have ended. No other answer is given where a
///   thread was refused.
/// - `Failed`: those of `with_callers`.
pub fn with_callers_beside<
    R: StartsThreads + Wait + Sync,
    S: ActionSource,
    B: Beside,
    C: Client,
    D: Client + Send,
>(
    rt: &R,
    alloc: Global,
    settings: NodeAttr,
    acts: &mut S,
    beside: &mut B,
    client: C,
    others: Vec<D>,
) -> Result<AllDone<C::Told, D::Told, S::Set>, NodeFailure>
where
    D::Told: Send,
    requires few { vec_len others ≤ 8 }
    ensures run { IfOk result (λ d. IsRunOfAll C.promise D.promise client others.items settings d.told d.others.items d.journal) }
    ensures causes { IfErr result (λ e. IfFailed e (λ f. IfRefused f (RefusesOne C.promise client (vec_len others) settings))) }
    ensures sets { IfOk result (λ d. vec_len d.sets ≡ settings.workers) }
    ensures counts { Counts (is_thread_refused result) (B.refusals beside.old) (B.refusals beside.new) }
    ensures unbegun { IfErr result (IsUnbegun settings.workers) }
{
    let mut workers = Acting { acts };
    with_servers_beside(rt, alloc, settings, &mut workers, beside, client, others)
}

/// The same as `with_callers`, with workers that serve as these do.
///
/// # Errors
///
/// Those of `with_callers`.
pub fn with_servers<R: StartsThreads + Wait + Sync, S: ServeSource, C: Client, D: Client + Send>(
    rt: &R,
    alloc: Global,
    settings: NodeAttr,
    workers: &mut S,
    client: C,
    others: Vec<D>,
) -> Result<AllDone<C::Told, D::Told, S::Set>, Failure>
where
    D::Told: Send,
    requires few { vec_len others ≤ 8 }
    ensures run { IfOk result (λ d. IsRunOfAllBy S.Set.rounds C.promise D.promise client others.items settings d.told d.others.items d.journal) }
    ensures causes { IfErr result (λ e. IfRefused e (RefusesOne C.promise client (vec_len others) settings)) }
    ensures sets { IfOk result (λ d. vec_len d.sets ≡ settings.workers) }
    ensures unbegun { IfErr result (λ e. IfNoThread e settings.workers) }
{
    let mut beside = Threads::new();
    let done = with_servers_beside(rt, alloc, settings, workers, &mut beside, client, others);
    match done {
        Ok(done) => Ok(done),
        Err(failure) => Err(shown(failure, beside)),
    }
}

/// Makes a node with these settings, main and a further caller for each of the other clients, and starts its workers, each in a thread of its own
/// with a set of `acts`. Then it starts the further callers, each in a thread of its own, opens the node, and lets them in. Main's client calls
/// the node on the calling thread, and each of the others on the thread of its caller. Once all of them have called, it begins the end of the
/// node, joins the workers, and ends it.
///
/// If a client ends the node, later calls of the others are refused, which they have to expect.
///
/// # Errors
///
/// - `Memory`: there was no memory for the node, for its cell, for the lists of its callers and workers, or for the journal.
/// - `NoThread`: a thread was refused. Main's client made no call, and the threads that were started have ended.
/// - `Spent`: the turns of the cell are used up.
/// - `Refused`: a client ended the node.
pub fn with_callers<R: StartsThreads + Wait + Sync, S: ActionSource, C: Client, D: Client + Send>(
    rt: &R,
    alloc: Global,
    settings: NodeAttr,
    acts: &mut S,
    client: C,
    others: Vec<D>,
) -> Result<AllDone<C::Told, D::Told, S::Set>, Failure>
where
    D::Told: Send,
    requires few { vec_len others ≤ 8 }
    ensures run { IfOk result (λ d. IsRunOfAll C.promise D.promise client others.items settings d.told d.others.items d.journal) }
    ensures causes { IfErr result (λ e. IfRefused e (RefusesOne C.promise client (vec_len others) settings)) }
    ensures sets { IfOk result (λ d. vec_len d.sets ≡ settings.workers) }
    ensures unbegun { IfErr result (λ e. IfNoThread e settings.workers) }
{
    let mut workers = Acting { acts };
    with_servers(rt, alloc, settings, &mut workers, client, others)
}

// The client of a further caller that there isn't.
#[derive(Drop)]
struct Nobody;

impl Client for Nobody {
    type Told = ();

    ghost promise = { λ _ _ _ _. Unit {0} };

    #[tactic(auto, using(crate::proofs::Calls::further_calls))]
    fn call<R: Wait>(self, _rt: &R, _caller: &mut Caller) {}
}

/// The same as `with_workers`, with workers that serve as these do.
///
/// # Errors
///
/// Those of `with_workers`.
pub fn with_servers_alone<R: StartsThreads + Wait + Sync, S: ServeSource, C: Client>(
    rt: &R,
    alloc: Global,
    settings: NodeAttr,
    workers: &mut S,
    client: C,
) -> Result<Done<C::Told, S::Set>, Failure>
    ensures run { IfOk result (λ d. IsRunBy S.Set.rounds C.promise client settings d.told d.journal) }
    ensures causes { IfErr result (λ e. IfRefused e (Refuses C.promise client settings)) }
    ensures sets { IfOk result (λ d. vec_len d.sets ≡ settings.workers) }
    ensures unbegun { IfErr result (λ e. IfNoThread e settings.workers) }
{
    let nobody = Vec::<Nobody>::new(alloc);
    let done = with_servers(rt, alloc, settings, workers, client, nobody)?;
    Ok(Done {
        told: done.told,
        journal: done.journal,
        sets: done.sets,
    })
}

/// Makes a node with these settings and one caller, main, and starts its workers, each in a thread of its own with a set of `acts`. Then it
/// opens the node, has the client call it on the calling thread, begins its end whatever came of that, joins the workers, and ends it.
///
/// # Errors
///
/// - `Memory`: there was no memory for the node, for its cell, for the list of its workers or for the journal.
/// - `NoThread`: a thread was refused. The client made no call, and the workers that were started have ended.
/// - `Spent`: the turns of the cell are used up.
/// - `Refused`: the client ended the node.
pub fn with_workers<R: StartsThreads + Wait + Sync, S: ActionSource, C: Client>(
    rt: &R,
    alloc: Global,
    settings: NodeAttr,
    acts: &mut S,
    client: C,
) -> Result<Done<C::Told, S::Set>, Failure>
    ensures run { IfOk result (λ d. IsClientRun C.promise client settings d.told d.journal) }
    ensures causes { IfErr result (λ e. IfRefused e (Refuses C.promise client settings)) }
    ensures sets { IfOk result (λ d. vec_len d.sets ≡ settings.workers) }
    ensures unbegun { IfErr result (λ e. IfNoThread e settings.workers) }
{
    let mut workers = Acting { acts };
    with_servers_alone(rt, alloc, settings, &mut workers, client)
}
