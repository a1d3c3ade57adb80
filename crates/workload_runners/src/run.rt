//! The run of a workload: its parts are the clients of a node's callers.
ghost use Rattle.std.specs.Prelude.{◌≡◌, ◌+◌, ℕ, false, Err, Option, [], None, All, map, length, IfOk, IfErr, vec_len};
ghost use Rattle.node_core.specs.Stands.{NodeStands, terms_of_node};
ghost use Rattle.node_journals.specs.declared.entries.Journal.{Journal};
ghost use Rattle.run_beside.specs.Pairs.{Counts};
ghost use Rattle.workload_runners.specs.RunJournals.{terms_for, IsRun};
ghost use Rattle.workload_runners.specs.Runs.{Causes, GivesMain, is_refused};
ghost use Rattle.workload_runners.specs.Reasons.{HasReason};
ghost use Rattle.workload_runners.specs.Parts.{IsUnstopped};
ghost use Rattle.workload_runners.specs.declared.statements.Stop.{Stop};

use crate::crew::run::{RanNode, run_crew};
use crate::crew::serving::Acting;
use crate::parts::{CallerPart, MainPart};
use crate::statements::Stop;
use action_fn::ActionSource;
use node_core::{Journaled, Node, RunJournal};
use run_beside::Beside;
use std::alloc::{AllocError, Global};
use std::sync::Wait;
use std::thread::Threads as StartsThreads;
use turn_cell::{Spent, TurnSeat};
use workload_file::{Part, Workload};

/// Why a run gave no journal.
#[derive(Drop)]
pub enum RunError {
    /// A thread was refused. Main's seat tells the calls that main made.
    Refused(TurnSeat<Journaled>),
    /// The turns are used up.
    Spent(Spent),
    /// Want of memory.
    Memory,
}

/// Why a run gave no journal, without main's seat.
#[derive(Drop)]
pub enum NoRun {
    /// A thread was refused.
    Refused,
    /// The turns are used up.
    Spent(Spent),
    /// Want of memory.
    Memory,
}

fn no_thread(main: TurnSeat<Journaled>) -> NoRun
    ensures { result ≡ NoRun.Refused }
{
    let _ = main;
    NoRun::Refused
}

/// The reason without main's seat, which is let go here: a layer above that has no use for it drops none.
pub fn without_seat(error: RunError) -> NoRun
    ensures { (before after : ℕ) → Causes before after error → Counts (is_refused {A = Journal} (Err error)) before after
        → HasReason before after result }
{
    match error {
        RunError::Refused(main) => no_thread(main),
        RunError::Spent(spent) => NoRun::Spent(spent),
        RunError::Memory => NoRun::Memory,
    }
}

// Why one had to stop, as the reason of the run.
fn reason(stop: Stop) -> RunError
    ensures { is_refused {A = Unit {0}} (Err result) ≡ false }
{
    match stop {
        Stop::Spent(spent) => RunError::Spent(spent),
        Stop::Memory => RunError::Memory,
    }
}

// The first of those that had to stop.
fn first_stop(stops: Vec<Option<Stop>>) -> Option<Stop>
    ensures { result ≡ None → All (λ (s : Option Stop). s ≡ None) stops.items }
{
    for stop in stops {
        if let Some(stop) = stop {
            return Some(stop);
        }
    }
    None
}

// The journal, where nobody had to stop.
fn unstopped<A: Drop>(ran: RanNode<Option<Stop>, Option<Stop>, A>) -> Result<RunJournal, RunError>
    ensures run { IfOk result (IsUnstopped ran) }
    ensures started { is_refused result ≡ false }
{
    let RanNode {
        told,
        others,
        last: _,
        journal,
        sets: _,
    } = ran;
    if let Some(stop) = told {
        return Err(reason(stop));
    }
    match first_stop(others) {
        Some(stop) => Err(reason(stop)),
        None => Ok(journal),
    }
}

// A client for each of these parts.
fn clients<'a>(alloc: Global, parts: &'a [Part]) -> Result<Vec<CallerPart<'a>>, AllocError>
    ensures { IfOk result (λ v. map (λ c. c.part.now) v.items ≡ parts.now) }
{
    let mut all = Vec::with_capacity(alloc, parts.len())?;
    for part in parts {
        all.push(CallerPart { alloc, part })?;
    }
    Ok(all)
}

/// Carries a workload out on a new node: the workers and the further callers each in a thread of
/// its own, main on the calling thread.
///
/// Main meets each further caller before it begins the end of the node, and each worker before it
/// ends it.
///
/// # Errors
///
/// - `Refused`: a thread was refused. Main made no statement, and all threads that were started
///   have ended. No other answer is given where a thread was refused.
/// - `Spent`: the turns of the cell are used up.
/// - `Memory`: there was no memory for the cell, for the handles of a caller, or for the journal.
pub fn run_node<S: ActionSource, B: Beside, R: StartsThreads + Wait + Sync>(
    rt: &R,
    alloc: Global,
    node: Node,
    load: &Workload,
    acts: &mut S,
    beside: &mut B,
) -> Result<RunJournal, RunError>
    requires new { NodeStands node [] }
    requires terms { terms_of_node node ≡ terms_for load.now }
    ensures run { IfOk result (IsRun load.now) }
    ensures causes { IfErr result (Causes (B.refusals beside.old) (B.refusals beside.new)) }
    ensures counts { Counts (is_refused result) (B.refusals beside.old) (B.refusals beside.new) }
    ensures unbegun { IfErr result (GivesMain load.now.settings.workers) }
{
    let parts = load.parts.as_slice();
    let [part, further @ ..] = parts else {
        unreachable!()
    };
    let Ok(others) = clients(alloc, further) else {
        return Err(RunError::Memory);
    };
    let main = MainPart { alloc, part };
    let mut workers = Acting { acts };
    match run_crew(rt, alloc, node, &mut workers, beside, main, others) {
        Ok(ran) => unstopped(ran),
        Err(error) => Err(error),
    }
}
