//! What a handle holds.

use crate::counted::CountedNode;

/// A node, or the text of the journal of one whose calls have ended.
#[derive(Drop)]
pub enum Held {
    Node(CountedNode),
    Text(Vec<u8>),
}
