//! How a worker's service ends.

use turn_cell::Spent;

/// How a worker's service ended.
#[derive(Debug, Drop)]
pub enum ServeEnd {
    /// A pick was answered Stop.
    Stopped,
    /// The turns are used up.
    Spent(Spent),
}
