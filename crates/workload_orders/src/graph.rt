//! The steps of a workload, as a graph.
ghost use Rattle.std.specs.Prelude.{⊤};

use graph_search::Graph;
use orders_machine::{Label, Machine, State};
use std::alloc::{AllocError, Global};

/// The states of a workload. Nothing is claimed of its steps: what a search finds is judged before it is told.
#[derive(Drop)]
pub(crate) struct Steps<'a> {
    pub machine: Machine<'a>,
}

impl<'a> Graph for Steps<'a> {
    type State = State;

    type Label = Label;

    ghost opens = { λ g s. ⊤ };

    ghost has_steps = { λ g s steps. ⊤ };

    fn opening(&self, alloc: Global) -> Result<State, AllocError> {
        self.machine.opening(alloc)
    }

    fn steps(&self, alloc: Global, state: &State) -> Result<Vec<(Label, State)>, AllocError> {
        let mut steps = Vec::new(alloc);
        self.machine.steps(alloc, state, &mut steps)?;
        Ok(steps)
    }
}
