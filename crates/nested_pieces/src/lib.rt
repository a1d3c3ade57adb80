//! Work that splits, all of it on one node: the parts of a piece start as soon as it has split, and whoever ends the last of them joins their
//! results.
//!
//! [`run_nested`] runs a piece that may split into further pieces, and gives its result.
#![tactic(auto)]

pub mod client;
pub mod failure;
pub mod frame;
pub mod names;
pub mod parts;
pub mod run;
pub mod runner;
pub mod shared;
pub mod worked;

pub use failure::NestFailure;
pub use run::{Nested, run_nested, run_nested_within};
