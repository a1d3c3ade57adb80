//! What the workers and the client of a node of pieces share.

use crate::context::Cancels;
use crate::piece::Piece;
use crate::table::{Handed, Table};
use std::sync::Mutex;

/// The pieces with their results, and which of them were cancelled.
#[derive(Drop)]
pub struct Shared<L: Handed<J>, J: Piece> {
    /// The pieces that wait, and the results.
    pub table: Mutex<Table<L, J>>,
    /// Whose tasks were cancelled.
    pub cancels: Cancels,
}
