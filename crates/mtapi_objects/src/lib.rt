//! The eight kinds of objects of the one-thread machine: what each of them is, what a call on one is refused for, and what the
//! call leaves.
//!
//! The definitions stand in `specs/`, one file a kind, and nothing here runs. The rows of the machine cite them, and so do the crates
//! that hold such objects in slots.
#![tactic(auto)]

pub mod worked;
