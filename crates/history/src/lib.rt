//! What an object is whose calls make one history, and what the entries of a history are.
//!
//! Nothing here runs: the cell, the node and the journal stand on these words, so that they mean the same list.
#![tactic(auto)]

pub mod entries;
pub mod objects;

pub use entries::Entry;
pub use objects::Object;
