//! The search, breadth first.
ghost use Rattle.std.specs.Prelude.{◌≡◌, ◌<◌, ◌≤◌, ◌↔◌, ◌++◌, ◌∷◌, [], false, length, IfOk, OnOk, IsTrue};
ghost use Rattle.graph_search.specs.Visits.{Closed, AreStops, Reached};
ghost use Rattle.graph_search.specs.Visiting.{visits, visit_step, visit_steps, IsSearched, IsSearchedUpTo, FollowsState};

use crate::found::{Found, Origin};
use crate::graph::Graph;
use indexmap::IndexSet;
use std::alloc::{AllocError, Global};
use std::hash::Hash;

// Visits the state that a step leads to, unless it is visited already.
fn visit<S: Eq + Hash + Drop, L: Drop>(
    states: &mut IndexSet<S>,
    origins: &mut Vec<Origin<L>>,
    from: usize,
    step: (L, S),
) -> Result<(), AllocError>
    ensures { OnOk result (visits states.new.keys origins.new.items ≡ visit_step S.eq from step (visits states.old.keys origins.old.items)) }
{
    let (label, state) = step;
    let (_, added) = states.insert_full(state)?;
    if added {
        origins.push(Origin { from, label })?;
    }
    Ok(())
}

// Visits each state that these steps lead to, the last one first.
fn visit_all<S: Eq + Hash + Drop, L: Drop>(
    states: &mut IndexSet<S>,
    origins: &mut Vec<Origin<L>>,
    from: usize,
    mut steps: Vec<(L, S)>,
) -> Result<(), AllocError>
    ensures { OnOk result
        (visits states.new.keys origins.new.items ≡ visit_steps S.eq from steps.items (visits states.old.keys origins.old.items)) }
{
    while let Some(step) = steps.pop() {
        visit(states, origins, from, step)?;
    }
    Ok(())
}

// Visits what the state at this place leads to.
fn follow<G: Graph>(
    alloc: Global,
    graph: &G,
    found: &mut Found<G::State, G::Label>,
    place: usize,
) -> Result<(), AllocError>
    requires within { place < length found.old.states.keys }
    ensures { OnOk result (FollowsState (G.has_steps graph.now) G.State.eq place
        (visits found.old.states.keys found.old.origins.items) found.old.stops.items
        (visits found.new.states.keys found.new.origins.items) found.new.stops.items) }
{
    let steps = graph.steps(alloc, &found.states.as_slice()[place])?;
    if steps.is_empty() {
        found.stops.push(place)?;
    }
    visit_all(&mut found.states, &mut found.origins, place, steps)
}

// Follows each visited state in turn, while there are at most `most`.
fn follow_each<G: Graph>(
    alloc: Global,
    graph: &G,
    found: &mut Found<G::State, G::Label>,
    most: usize,
) -> Result<(), AllocError>
    requires begun { IsSearched (G.has_steps graph.now) (G.opens graph.now) G.State.eq 0 (visits found.old.states.keys found.old.origins.items) found.old.stops.items }
    ensures { OnOk result (IsSearchedUpTo (G.has_steps graph.now) (G.opens graph.now) G.State.eq most
        (visits found.new.states.keys found.new.origins.items) found.new.stops.items) }
{
    for place in 0..most {
        let count = found.states.len();
        if place >= count || count > most {
            return Ok(());
        }
        follow(alloc, graph, found, place)?;
    }
    Ok(())
}

// A search that has visited the opening alone.
fn begin<G: Graph>(alloc: Global, graph: &G) -> Result<Found<G::State, G::Label>, AllocError>
    ensures { IfOk result (λ f. IsSearched (G.has_steps graph.now) (G.opens graph.now) G.State.eq 0
        (visits f.states.keys f.origins.items) f.stops.items) }
{
    let opening = graph.opening(alloc)?;
    let mut states = IndexSet::new(alloc);
    states.insert(opening)?;
    Ok(Found {
        states,
        origins: Vec::new(alloc),
        stops: Vec::new(alloc),
        cut: false,
    })
}

/// Searches a graph from its opening, breadth first. Once there are more than `most` states, no further one is followed. It fails for want of memory alone.
pub fn explore<G: Graph>(
    alloc: Global,
    graph: &G,
    most: usize,
) -> Result<Found<G::State, G::Label>, AllocError>
    ensures reached { IfOk result (λ f. Reached (G.has_steps graph.now) (G.opens graph.now) f.states.keys f.origins.items) }
    ensures closed { IfOk result (λ f. f.cut ≡ false → Closed (G.has_steps graph.now) G.State.eq f.states.keys f.stops.items) }
    ensures stops { IfOk result (λ f. AreStops (G.has_steps graph.now) f.states.keys f.stops.items) }
    ensures cut { IfOk result (λ f. IsTrue f.cut ↔ (most < length f.states.keys)) }
{
    let mut found = begin(alloc, graph)?;
    follow_each(alloc, graph, &mut found, most)?;
    found.cut = found.states.len() > most;
    Ok(found)
}
