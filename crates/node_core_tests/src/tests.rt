//! The handles that a node gives, and what a journal keeps.

pub(crate) mod asking;
mod handles;
mod journals;
