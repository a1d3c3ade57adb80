//! Tests of the node and its cell: first handles, journals, a long one too, the laws of one that a node kept, resources; threads that call
//! one node, messages, and ends that are read without a turn. No product stands on this crate.
#![tactic(auto)]

#[cfg(test)]
mod cells;
#[cfg(test)]
mod laws;
#[cfg(test)]
mod messages;
#[cfg(test)]
mod peeks;
#[cfg(test)]
mod resources;
#[cfg(test)]
mod tests;
