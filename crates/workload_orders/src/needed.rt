//! The steps of a workload over what later steps ask.
ghost use Rattle.std.specs.Prelude.{⊤};

use graph_search::Graph;
use orders_machine::{Label, LastUses, Machine, State};
use std::alloc::{AllocError, Global};

/// The states of a workload, without what no later step asks. Nothing is claimed of the steps: what a search finds is judged before it is
/// told.
#[derive(Drop)]
pub(crate) struct Needed<'a> {
    pub machine: Machine<'a>,
    pub uses: LastUses,
}

impl<'a> Graph for Needed<'a> {
    type State = State;

    type Label = Label;

    ghost opens = { λ g s. ⊤ };

    ghost has_steps = { λ g s steps. ⊤ };

    fn opening(&self, alloc: Global) -> Result<State, AllocError> {
        self.machine.opening(alloc)
    }

    fn steps(&self, alloc: Global, state: &State) -> Result<Vec<(Label, State)>, AllocError> {
        let mut steps = Vec::new(alloc);
        self.machine.steps(alloc, state, &mut steps)?;
        for (_, after) in steps.iter_mut() {
            self.machine.forget(&self.uses, after);
        }
        Ok(steps)
    }
}
