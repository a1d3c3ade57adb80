//! The generated workload: what it is, the function that makes it, and its text.
#![tactic(auto)]

mod generator;
mod laws;

pub use generator::generated;
pub use laws::law_generated_text;
