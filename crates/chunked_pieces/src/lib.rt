//! A function of more items than a node has tasks: each task calls it with some of them.
#![tactic(auto)]

pub mod chunks;
pub mod map;

pub use map::map_chunks;
