//! By line: what may stand at each line of the report, each with a run in which it stands there.
ghost use Rattle.std.specs.Prelude.{◌≡◌, true, IfOk, OnOk, ◌<◌, length, ⊤};
ghost use Rattle.graph_search.specs.Visits.{Reached};
ghost use Rattle.workload_file.specs.Formed.{WellFormed};
ghost use Rattle.begun_runs.specs.Complete.{HasAllReports};
ghost use Rattle.workload_orders.specs.Shown.{AllShow, AllHaveHistories, AllAreStuck, IsShown, report_texts};

use crate::counted::count_of;
use crate::edges::{Edge, Edges};
use crate::judged::journal_of;
use crate::listed::{Lines, Orders};
use crate::needed::Needed;
use crate::told::{Known, add_report, add_stop};
use crate::ways::{Way, push_way, ways_of};
use crate::whole::are_all;
use graph_search::{Found, explore, path_to};
use orders_machine::{Label, Line, Machine, State};
use std::alloc::{AllocError, Global};
use std::collections::HashSet;
use workload_file::Workload;

/// The steps that a run is carried on by at most, from a state from which no way to its end is known.
const MOST_STEPS: usize = 1_000_000;

/// How many runs may be carried on in vain.
const MOST_TRIES: usize = 1_000;

/// A search, and what is worked out of it.
#[derive(Drop)]
struct Searched {
    found: Found<State, Label>,
    edges: Edges,
    ways: Vec<Way>,
}

/// Which lines stand in a run that is listed, by their places.
#[derive(Drop)]
struct Covered {
    marks: Vec<bool>,
    /// How many more runs may be carried on in vain.
    tries: usize,
}

/// What is listed.
#[derive(Drop)]
struct Listing {
    orders: Orders,
    known: Known,
    covered: Covered,
}

impl Covered {
    /// Whether all lines that a step settles are there.
    fn has_all(&self, lines: &[usize]) -> bool {
        for line in lines {
            if self.marks.get(*line) == Some(&false) {
                return false;
            }
        }
        true
    }

    /// Marks the lines of a run.
    fn mark(&mut self, edges: &Edges, lines: &[Line]) {
        for line in lines {
            if let Some(place) = edges.lines.get_index_of(line) {
                if place < self.marks.len() {
                    self.marks[place] = true;
                }
            }
        }
    }

    /// Marks the lines that a step settles.
    fn mark_all(&mut self, lines: &[usize]) {
        for line in lines {
            if *line < self.marks.len() {
                self.marks[*line] = true;
            }
        }
    }
}

/// Carries a path on until no step is left.
fn carry_on(alloc: Global, machine: &Machine, labels: &mut Vec<Label>) -> Result<(), AllocError> {
    let (_, mut state) = machine.follow(alloc, labels)?;
    for _ in 0..MOST_STEPS {
        let mut steps = Vec::new(alloc);
        machine.steps(alloc, &state, &mut steps)?;
        let Some((label, after)) = steps.pop() else {
            break;
        };
        labels.push(label)?;
        state = after;
    }
    Ok(())
}

/// A path to the end of a run by this step of the state at this place, or to where it gets stuck.
fn path_by(
    alloc: Global,
    graph: &Needed,
    searched: &Searched,
    place: usize,
    edge: &Edge,
) -> Result<Vec<Label>, AllocError>
    requires within { place < length searched.now.found.states.keys }
    requires reached { Reached {L = Label} (λ s xs. ⊤) (λ s. ⊤) searched.now.found.states.keys searched.now.found.origins.items }
{
    let mut labels = path_to(alloc, graph, &searched.found, place)?;
    labels.push(edge.label)?;
    if searched.ways.get(edge.to) == Some(&Way::Unknown) {
        carry_on(alloc, &graph.machine, &mut labels)?;
    } else {
        push_way(&searched.edges, &searched.ways, edge.to, &mut labels)?;
    }
    Ok(labels)
}

/// Lists the run of this path, if it has ended. Whether it has.
fn list_run(
    alloc: Global,
    load: &Workload,
    machine: &Machine,
    labels: &[Label],
    searched: &Searched,
    listing: &mut Listing,
) -> Result<bool, AllocError>
    requires formed { WellFormed load.now }
    requires shown { IsShown load.now listing.old.orders }
    ensures { OnOk result (IsShown load.now listing.new.orders) }
{
    let (lines, state) = machine.follow(alloc, labels)?;
    if !machine.is_end(&state) {
        return Ok(false);
    }
    listing.covered.mark(&searched.edges, &lines);
    let journal = journal_of(load, machine.entries(alloc, labels)?);
    if !add_report(
        alloc,
        load,
        journal,
        &mut listing.orders.reports,
        &mut listing.known.texts,
    )? {
        listing.orders.refused = listing.orders.refused.saturating_add(1);
    }
    Ok(true)
}

/// Lists a run with a step that settles lines, unless they stand in one that is listed, or it isn't known how the run would end.
fn list_edge(
    alloc: Global,
    load: &Workload,
    graph: &Needed,
    searched: &Searched,
    place: usize,
    edge: &Edge,
    listing: &mut Listing,
) -> Result<(), AllocError>
    requires formed { WellFormed load.now }
    requires within { place < length searched.now.found.states.keys }
    requires reached { Reached {L = Label} (λ s xs. ⊤) (λ s. ⊤) searched.now.found.states.keys searched.now.found.origins.items }
    requires shown { IsShown load.now listing.old.orders }
    ensures { OnOk result (IsShown load.now listing.new.orders) }
{
    let covered = &listing.covered;
    let lines = searched.edges.lines_of(edge);
    let unknown = searched.ways.get(edge.to) == Some(&Way::Unknown);
    if covered.has_all(lines) || (unknown && (!searched.found.cut || covered.tries == 0)) {
        return Ok(());
    }
    let labels = path_by(alloc, graph, searched, place, edge)?;
    let machine = &graph.machine;
    if list_run(alloc, load, machine, &labels, searched, listing)? {
        listing.covered.mark_all(lines);
    } else {
        listing.covered.tries = listing.covered.tries.saturating_sub(1);
    }
    Ok(())
}

/// Lists a run for each line that a step of the state at this place settles.
fn list_place(
    alloc: Global,
    load: &Workload,
    graph: &Needed,
    searched: &Searched,
    place: usize,
    listing: &mut Listing,
) -> Result<(), AllocError>
    requires formed { WellFormed load.now }
    requires within { place < length searched.now.found.states.keys }
    requires reached { Reached {L = Label} (λ s xs. ⊤) (λ s. ⊤) searched.now.found.states.keys searched.now.found.origins.items }
    requires shown { IsShown load.now listing.old.orders }
    ensures { OnOk result (IsShown load.now listing.new.orders) }
{
    for edge in searched.edges.of(place) {
        list_edge(alloc, load, graph, searched, place, edge, listing)?;
    }
    Ok(())
}

/// Lists runs in which each line stands that is settled somewhere on the way to an end.
fn list_runs(
    alloc: Global,
    load: &Workload,
    graph: &Needed,
    searched: &Searched,
    listing: &mut Listing,
) -> Result<(), AllocError>
    requires formed { WellFormed load.now }
    requires reached { Reached {L = Label} (λ s xs. ⊤) (λ s. ⊤) searched.now.found.states.keys searched.now.found.origins.items }
    requires shown { IsShown load.now listing.old.orders }
    ensures { OnOk result (IsShown load.now listing.new.orders) }
{
    for place in 0..searched.found.states.len() {
        list_place(alloc, load, graph, searched, place, listing)?;
    }
    Ok(())
}

/// Lists the deadlock at a stop, unless it is an end.
fn list_stop(
    alloc: Global,
    load: &Workload,
    graph: &Needed,
    searched: &Searched,
    place: usize,
    listing: &mut Listing,
) -> Result<(), AllocError>
    requires formed { WellFormed load.now }
    requires within { place < length searched.now.found.states.keys }
    requires reached { Reached {L = Label} (λ s xs. ⊤) (λ s. ⊤) searched.now.found.states.keys searched.now.found.origins.items }
    requires shown { IsShown load.now listing.old.orders }
    ensures { OnOk result (IsShown load.now listing.new.orders) }
{
    let machine = &graph.machine;
    if machine.is_end(&searched.found.states.as_slice()[place]) {
        return Ok(());
    }
    let labels = path_to(alloc, graph, &searched.found, place)?;
    let (_, state) = machine.follow(alloc, &labels)?;
    let waits = machine.waits(alloc, &state)?;
    let entries = machine.entries(alloc, &labels)?;
    let words = &mut listing.known.words;
    if !add_stop(alloc, load, entries, waits, &mut listing.orders, words)? {
        listing.orders.refused = listing.orders.refused.saturating_add(1);
    }
    Ok(())
}

/// Lists the deadlocks.
fn list_stops(
    alloc: Global,
    load: &Workload,
    graph: &Needed,
    searched: &Searched,
    listing: &mut Listing,
) -> Result<(), AllocError>
    requires formed { WellFormed load.now }
    requires reached { Reached {L = Label} (λ s xs. ⊤) (λ s. ⊤) searched.now.found.states.keys searched.now.found.origins.items }
    requires shown { IsShown load.now listing.old.orders }
    ensures { OnOk result (IsShown load.now listing.new.orders) }
{
    for place in &searched.found.stops {
        if *place < searched.found.states.len() {
            list_stop(alloc, load, graph, searched, *place, listing)?;
        }
    }
    Ok(())
}

/// Searches a graph, and works out what is told of it.
fn search(alloc: Global, graph: &Needed, most: usize) -> Result<Searched, AllocError>
    ensures reached { IfOk result (λ s. Reached {L = Label} (λ s xs. ⊤) (λ s. ⊤) s.found.states.keys s.found.origins.items) }
{
    let found = explore(alloc, graph, most)?;
    let edges = Edges::between(alloc, graph, &found)?;
    let ways = ways_of(alloc, &graph.machine, &found, &edges)?;
    Ok(Searched { found, edges, ways })
}

/// Nothing is listed yet of this search.
fn nothing_listed(
    alloc: Global,
    load: &Workload,
    searched: &Searched,
) -> Result<Listing, AllocError>
    ensures { IfOk result (λ l. IsShown load.now l.orders) }
{
    let _ = load;
    Ok(Listing {
        orders: Orders {
            states: searched.found.states.len(),
            cut: searched.found.cut,
            all: false,
            reports: Vec::new(alloc),
            deadlocks: Vec::new(alloc),
            stops: Vec::new(alloc),
            refused: 0,
        },
        known: Known {
            texts: HashSet::new(alloc),
            words: HashSet::new(alloc),
        },
        covered: Covered {
            marks: vec![in alloc; false; searched.edges.lines.len()]?,
            tries: MOST_TRIES,
        },
    })
}

/// What may stand at each line of the report, as far as `most` states tell, and the deadlocks: with runs that have all of it. A state
/// keeps no answers, so that far fewer do than for `orders`. Call `may_retire` and `is_too_large` of `orders_machine` first. It fails for
/// want of memory alone.
pub fn find_lines(alloc: Global, load: &Workload, most: usize) -> Result<Lines, AllocError>
    requires formed { WellFormed load.now }
    ensures shown { IfOk result (λ o. AllShow load.now o.runs.reports.items) }
    ensures histories { IfOk result (λ o. AllHaveHistories load.now o.runs.deadlocks.items) }
    ensures stuck { IfOk result (λ o. AllAreStuck load.now o.runs.deadlocks.items) }
    ensures stops { IfOk result (λ o. AllHaveHistories load.now o.runs.stops.items) }
    ensures all { IfOk result (λ o. o.runs.all ≡ true → HasAllReports load.now (report_texts o.runs.reports.items)) }
{
    let machine = Machine::new(alloc, load)?;
    let uses = machine.last_uses(alloc)?;
    let graph = Needed { machine, uses };
    let searched = search(alloc, &graph, most)?;
    let count = if searched.found.cut {
        None
    } else {
        count_of(alloc, &searched.edges, &searched.ways)?
    };
    let mut listing = nothing_listed(alloc, load, &searched)?;
    list_runs(alloc, load, &graph, &searched, &mut listing)?;
    list_stops(alloc, load, &graph, &searched, &mut listing)?;
    let mut runs = listing.orders;
    runs.all = are_all(alloc, load, &runs.reports)?;
    Ok(Lines { runs, count })
}
