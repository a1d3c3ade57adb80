//! How a state is reached.
ghost use Rattle.std.specs.Prelude.{◌<◌, length, IfOk};
ghost use Rattle.graph_search.specs.Visits.{Reached, LeadsTo};

use crate::found::Found;
use crate::graph::Graph;
use std::alloc::{AllocError, Global};

/// The labels of the steps that lead from the opening to the state at this place. It fails for want of memory alone.
pub fn path_to<G: Graph>(
    alloc: Global,
    graph: &G,
    found: &Found<G::State, G::Label>,
    place: usize,
) -> Result<Vec<G::Label>, AllocError>
    requires within { place < length found.now.states.keys }
    requires reached { Reached (G.has_steps graph.now) (G.opens graph.now) found.now.states.keys found.now.origins.items }
    ensures { IfOk result (λ labels. LeadsTo (G.has_steps graph.now) (G.opens graph.now) found.now.states.keys place labels.items) }
{
    let _ = graph;
    let mut labels = Vec::new(alloc);
    let mut at = place;
    while at > 0 {
        let origin = &found.origins[at - 1];
        labels.push(origin.label)?;
        at = origin.from;
    }
    labels.reverse();
    Ok(labels)
}
