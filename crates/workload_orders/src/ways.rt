//! From which of the visited states a run may end, and by which step it goes there.

use crate::edges::Edges;
use graph_search::Found;
use orders_machine::{Label, Machine, State};
use std::alloc::{AllocError, Global};

/// How a run may end from a state.
#[derive(Clone, Copy, Drop, PartialEq, Eq)]
pub(crate) enum Way {
    /// No way is known.
    Unknown,
    /// It has ended there.
    Ended,
    /// By the step that is the so manieth of the state's.
    By(usize),
}

/// The way from a state, by what is known of those that its steps lead to.
fn way_from(edges: &Edges, ways: &[Way], place: usize) -> Way {
    for (number, edge) in edges.of(place).iter().enumerate() {
        match ways.get(edge.to) {
            None | Some(Way::Unknown) => {}
            Some(_) => return Way::By(number),
        }
    }
    Way::Unknown
}

/// Goes over all states, the last one first, and notes the ways that are known now. Whether there are new ones.
fn spread(edges: &Edges, ways: &mut Vec<Way>) -> bool {
    let mut changed = false;
    for place in (0..ways.len()).rev() {
        if ways.get(place) != Some(&Way::Unknown) {
            continue;
        }
        let way = way_from(edges, ways.as_slice(), place);
        if way != Way::Unknown && place < ways.len() {
            ways[place] = way;
            changed = true;
        }
    }
    changed
}

/// Notes the states in which a run has ended.
fn note_ends(machine: &Machine, found: &Found<State, Label>, ways: &mut Vec<Way>) {
    for place in &found.stops {
        if let Some(state) = found.states.get_index(*place) {
            if machine.is_end(state) && *place < ways.len() {
                ways[*place] = Way::Ended;
            }
        }
    }
}

/// Of each visited state, how a run may end from there.
pub(crate) fn ways_of(
    alloc: Global,
    machine: &Machine,
    found: &Found<State, Label>,
    edges: &Edges,
) -> Result<Vec<Way>, AllocError> {
    let mut ways = vec![in alloc; Way::Unknown; found.states.len()]?;
    note_ends(machine, found, &mut ways);
    for _ in 0..found.states.len() {
        if !spread(edges, &mut ways) {
            break;
        }
    }
    Ok(ways)
}

/// Appends the labels that lead from this place to an end, as far as they are known.
pub(crate) fn push_way(
    edges: &Edges,
    ways: &[Way],
    from: usize,
    labels: &mut Vec<Label>,
) -> Result<(), AllocError> {
    let mut place = from;
    for _ in 0..ways.len() {
        let Some(Way::By(number)) = ways.get(place) else {
            break;
        };
        let Some(edge) = edges.of(place).get(*number) else {
            break;
        };
        labels.push(edge.label)?;
        place = edge.to;
    }
    Ok(())
}
