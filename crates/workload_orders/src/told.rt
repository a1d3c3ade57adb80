//! The search, and what is told of it.
ghost use Rattle.std.specs.Prelude.{◌≡◌, true, IfOk, OnOk, ◌<◌, length, ⊤};
ghost use Rattle.graph_search.specs.Visits.{Reached};
ghost use Rattle.workload_file.specs.Formed.{WellFormed};
ghost use Rattle.begun_runs.specs.Complete.{HasAllReports};
ghost use Rattle.workload_orders.specs.Shown.{AllShow, AllHaveHistories, AllAreStuck, IsShown, report_texts};

use crate::graph::Steps;
use crate::judged::{is_stuck, journal_of, judged_report, judged_stop};
use crate::listed::{Orders, Report};
use crate::whole::are_all;
use graph_search::{Found, explore, path_to};
use node_journals::{Journal, ShortList};
use orders_machine::{Label, Machine, State};
use std::alloc::{AllocError, Global};
use std::collections::HashSet;
use workload_file::Workload;

// The texts and the words that are listed already.
#[derive(Drop)]
pub(crate) struct Known {
    pub(crate) texts: HashSet<Vec<u8>>,
    pub(crate) words: HashSet<Vec<u8>>,
}

// Notes a text. False if it was noted before.
fn note(alloc: Global, texts: &mut HashSet<Vec<u8>>, text: &[u8]) -> Result<bool, AllocError> {
    if texts.contains(text) {
        return Ok(false);
    }
    let mut own = Vec::new(alloc);
    own.extend_from_slice(text)?;
    texts.insert(own)?;
    Ok(true)
}

// Lists the report of this journal, unless its text is listed already. False if the journal is judged to be no run.
#[tactic(auto, using(crate::proofs::Pushed::shown_push))]
pub(crate) fn add_report(
    alloc: Global,
    load: &Workload,
    journal: Journal,
    reports: &mut Vec<Report>,
    texts: &mut HashSet<Vec<u8>>,
) -> Result<bool, AllocError>
    requires formed { WellFormed load.now }
    requires shown { AllShow load.now reports.old.items }
    ensures { OnOk result (AllShow load.now reports.new.items) }
{
    match judged_report(alloc, load, journal)? {
        Some(report) => {
            if note(alloc, texts, &report.text)? {
                reports.push(report)?;
            }
            Ok(true)
        }
        None => Ok(false),
    }
}

// Lists the deadlock behind these entries, unless its words are listed already; where it isn't shown to be one, as a stop. False if they
// are judged to be no legal history, or not the front of a run.
#[tactic(auto, using(crate::proofs::Pushed::histories_push, crate::proofs::Pushed::stuck_push))]
pub(crate) fn add_stop(
    alloc: Global,
    load: &Workload,
    entries: ShortList,
    waits: Vec<u8>,
    orders: &mut Orders,
    words: &mut HashSet<Vec<u8>>,
) -> Result<bool, AllocError>
    requires formed { WellFormed load.now }
    requires shown { IsShown load.now orders.old }
    ensures { OnOk result (IsShown load.now orders.new) }
{
    match judged_stop(alloc, load, entries, waits)? {
        Some(stop) => {
            if note(alloc, words, &stop.waits)? {
                if is_stuck(alloc, load, &stop)? {
                    orders.deadlocks.push(stop)?;
                } else {
                    orders.stops.push(stop)?;
                }
            }
            Ok(true)
        }
        None => Ok(false),
    }
}

// The entries of the way to a state.
fn entries_at(
    alloc: Global,
    steps: &Steps,
    found: &Found<State, Label>,
    place: usize,
) -> Result<ShortList, AllocError>
    requires within { place < length found.now.states.keys }
    requires reached { Reached {L = Label} (λ s xs. ⊤) (λ s. ⊤) found.now.states.keys found.now.origins.items }
{
    let labels = path_to(alloc, steps, found, place)?;
    steps.machine.entries(alloc, &labels)
}

// Lists what is found at a state from which no step leads on, and to which these entries lead. False if they are judged to be wrong.
fn tell_state(
    alloc: Global,
    load: &Workload,
    steps: &Steps,
    state: &State,
    entries: ShortList,
    orders: &mut Orders,
    known: &mut Known,
) -> Result<bool, AllocError>
    requires formed { WellFormed load.now }
    requires shown { IsShown load.now orders.old }
    ensures { OnOk result (IsShown load.now orders.new) }
{
    if steps.machine.is_end(state) {
        let journal = journal_of(load, entries);
        add_report(alloc, load, journal, &mut orders.reports, &mut known.texts)
    } else {
        let waits = steps.machine.waits(alloc, state)?;
        add_stop(alloc, load, entries, waits, orders, &mut known.words)
    }
}

// Lists what is found at the state at this place, from which no step leads on.
fn tell(
    alloc: Global,
    load: &Workload,
    steps: &Steps,
    found: &Found<State, Label>,
    place: usize,
    orders: &mut Orders,
    known: &mut Known,
) -> Result<(), AllocError>
    requires formed { WellFormed load.now }
    requires within { place < length found.now.states.keys }
    requires reached { Reached {L = Label} (λ s xs. ⊤) (λ s. ⊤) found.now.states.keys found.now.origins.items }
    requires shown { IsShown load.now orders.old }
    ensures { OnOk result (IsShown load.now orders.new) }
{
    let entries = entries_at(alloc, steps, found, place)?;
    let state = &found.states.as_slice()[place];
    if !tell_state(alloc, load, steps, state, entries, orders, known)? {
        orders.refused = orders.refused.saturating_add(1);
    }
    Ok(())
}

// Lists what is found at each state from which no step leads on.
fn tell_all(
    alloc: Global,
    load: &Workload,
    steps: &Steps,
    found: &Found<State, Label>,
    orders: &mut Orders,
) -> Result<(), AllocError>
    requires formed { WellFormed load.now }
    requires reached { Reached {L = Label} (λ s xs. ⊤) (λ s. ⊤) found.now.states.keys found.now.origins.items }
    requires shown { IsShown load.now orders.old }
    ensures { OnOk result (IsShown load.now orders.new) }
{
    let mut known = Known {
        texts: HashSet::new(alloc),
        words: HashSet::new(alloc),
    };
    for place in &found.stops {
        if *place < found.states.len() {
            tell(alloc, load, steps, found, *place, orders, &mut known)?;
        }
    }
    Ok(())
}

/// The reports that the schedules of a workload give, and the deadlocks that they meet, as far as `most` states tell. Each is judged before
/// it is listed. Call `may_retire` and `is_too_large` of `orders_machine` first: where they hold, runs may be missing. It fails for want
/// of memory alone.
pub fn orders(alloc: Global, load: &Workload, most: usize) -> Result<Orders, AllocError>
    requires formed { WellFormed load.now }
    ensures shown { IfOk result (λ o. AllShow load.now o.reports.items) }
    ensures histories { IfOk result (λ o. AllHaveHistories load.now o.deadlocks.items) }
    ensures stuck { IfOk result (λ o. AllAreStuck load.now o.deadlocks.items) }
    ensures stops { IfOk result (λ o. AllHaveHistories load.now o.stops.items) }
    ensures all { IfOk result (λ o. o.all ≡ true → HasAllReports load.now (report_texts o.reports.items)) }
{
    let steps = Steps {
        machine: Machine::new(alloc, load)?,
    };
    let found = explore(alloc, &steps, most)?;
    let mut orders = Orders {
        states: found.states.len(),
        cut: found.cut,
        all: false,
        reports: Vec::new(alloc),
        deadlocks: Vec::new(alloc),
        stops: Vec::new(alloc),
        refused: 0,
    };
    tell_all(alloc, load, &steps, &found, &mut orders)?;
    orders.all = are_all(alloc, load, &orders.reports)?;
    Ok(orders)
}
