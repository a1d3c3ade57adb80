//! Every faulty line of a text that is no workload, and why: the reader's own cause, and a hint at what is allowed there.
#![tactic(auto)]

mod bindings;
mod bytes;
mod explaining;
mod guesses;
mod hints;
pub mod laws;
mod mending;
mod mistakes;
mod options;
mod reading;
mod search;
mod table;
mod telling;
mod words;
pub mod worked;

pub use explaining::{ExplainEnd, explain};
pub use mistakes::{Meant, Mistake, Mistakes};
pub use search::mistakes_of;
pub use telling::tell;
