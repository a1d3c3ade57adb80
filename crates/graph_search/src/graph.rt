//! What a graph is.
ghost use Rattle.std.specs.Prelude.{List, IfOk};

use std::alloc::{AllocError, Global};
use std::hash::Hash;

/// A graph whose states and steps are worked out as they are asked for. Two states that are equal are one.
pub trait Graph {
    /// A state.
    type State: Eq + Hash + Drop;

    /// What tells the steps of a state apart.
    type Label: Copy + Drop;

    // A search may begin at this state.
    ghost opens: { Self → Self.State → Type 0 };

    // These are all the steps of this state: their labels, and the states that they lead to.
    ghost has_steps: { Self → Self.State → List (Self.Label × Self.State) → Type 0 };

    /// The state at which a search begins. It fails for want of memory alone.
    fn opening(&self, alloc: Global) -> Result<Self::State, AllocError>
        ensures { IfOk result (λ state. opens self.now state) };

    /// All steps of a state. It fails for want of memory alone.
    fn steps(
        &self,
        alloc: Global,
        state: &Self::State,
    ) -> Result<Vec<(Self::Label, Self::State)>, AllocError>
        ensures { IfOk result (λ steps. has_steps self.now state.now steps.items) };
}
