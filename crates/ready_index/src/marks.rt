//! Marks of ready slots.

use mtapi_values::Mask;

/// A slot's task is ready: its priority, and the workers that may take it.
#[derive(Clone, Copy, Debug, Drop, PartialEq, Eq)]
pub struct Mark {
    /// Priority 0 goes first.
    pub priority: u32,
    /// The workers that may take the task.
    pub mask: Mask,
}
