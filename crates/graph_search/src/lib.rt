//! A search of a graph that is worked out state by state: every state that the opening leads to, or as many as may be kept.
#![tactic(auto)]

pub mod found;
pub mod graph;
mod path;
mod search;

pub use found::{Found, Origin};
pub use graph::Graph;
pub use path::path_to;
pub use search::explore;
