//! The steps between the states that were visited, and the lines of the report that each settles.

use crate::needed::Needed;
use graph_search::Found;
use indexmap::IndexSet;
use orders_machine::{Label, Line, State};
use std::alloc::{AllocError, Global};

/// A step to another state.
#[derive(Clone, Copy, Drop)]
pub(crate) struct Edge {
    pub label: Label,
    /// The place of the state that it leads to.
    pub to: usize,
    /// Where the lines that it settles begin, and how many they are.
    pub first: usize,
    pub count: usize,
}

/// The steps between the states that were visited.
#[derive(Drop)]
pub(crate) struct Edges {
    /// The steps from each state, in the order of the states.
    pub edges: Vec<Edge>,
    /// Of each state, where its steps begin; and last, where the last ones end.
    pub begins: Vec<usize>,
    /// The lines that are settled, by their places in `lines`.
    pub settled: Vec<usize>,
    /// What stands at some line, each once.
    pub lines: IndexSet<Line>,
}

impl Edges {
    /// The steps of the state at this place.
    pub(crate) fn of(&self, place: usize) -> &[Edge] {
        match (
            self.begins.get(place),
            self.begins.get(place.saturating_add(1)),
        ) {
            (Some(begin), Some(end)) => self.edges.get(*begin..*end).unwrap_or(&[]),
            _ => &[],
        }
    }

    /// The lines that a step settles.
    pub(crate) fn lines_of(&self, edge: &Edge) -> &[usize] {
        let end = edge.first.saturating_add(edge.count);
        self.settled.get(edge.first..end).unwrap_or(&[])
    }

    /// Adds a step, unless it leads to a state that wasn't visited.
    fn add(
        &mut self,
        alloc: Global,
        graph: &Needed,
        found: &Found<State, Label>,
        before: &State,
        step: (Label, State),
    ) -> Result<(), AllocError> {
        let (label, mut after) = step;
        let mut lines = Vec::new(alloc);
        graph.machine.push_lines(before, &after, &mut lines)?;
        graph.machine.forget(&graph.uses, &mut after);
        let Some(to) = found.states.get_index_of(&after) else {
            return Ok(());
        };
        let first = self.settled.len();
        for line in &lines {
            let (place, _) = self.lines.insert_full(*line)?;
            self.settled.push(place)?;
        }
        let count = lines.len();
        self.edges.push(Edge {
            label,
            to,
            first,
            count,
        })?;
        Ok(())
    }

    /// Adds the steps of a state.
    fn add_all(
        &mut self,
        alloc: Global,
        graph: &Needed,
        found: &Found<State, Label>,
        state: &State,
    ) -> Result<(), AllocError> {
        self.begins.push(self.edges.len())?;
        let mut steps = Vec::new(alloc);
        graph.machine.steps(alloc, state, &mut steps)?;
        while let Some(step) = steps.pop() {
            self.add(alloc, graph, found, state, step)?;
        }
        Ok(())
    }

    /// The steps between the states that a search visited.
    pub(crate) fn between(
        alloc: Global,
        graph: &Needed,
        found: &Found<State, Label>,
    ) -> Result<Edges, AllocError> {
        let mut edges = Edges {
            edges: Vec::new(alloc),
            begins: Vec::new(alloc),
            settled: Vec::new(alloc),
            lines: IndexSet::new(alloc),
        };
        for state in found.states.as_slice() {
            edges.add_all(alloc, graph, found, state)?;
        }
        edges.begins.push(edges.edges.len())?;
        Ok(edges)
    }
}
