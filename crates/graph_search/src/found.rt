//! What a search finds.

use indexmap::IndexSet;
use std::hash::Hash;

/// How a state was first reached: the place of the state before it, and the label of the step from there.
#[derive(Clone, Copy, Drop)]
pub struct Origin<L> {
    pub from: usize,
    pub label: L,
}

/// The states that a search visited.
#[derive(Drop)]
pub struct Found<S: Eq + Hash, L> {
    /// Each state once, in the order in which they were first reached. The opening is at place 0.
    pub states: IndexSet<S>,
    /// How each state but the opening was reached: the one at place i + 1 by the origin at i.
    pub origins: Vec<Origin<L>>,
    /// The places of the visited states that have no step.
    pub stops: Vec<usize>,
    /// Whether there were more states than may be kept, so that not all of them were followed.
    pub cut: bool,
}
