//! What the programs share that show a kept run: the input is read and judged, a program makes its text, and the end is told. A program
//! says only how the text is made, and which program it is.
#![tactic(auto)]

mod ends;
mod own_names;
mod reading;
mod showing;
mod streams;
pub mod worked;

pub use ends::{RunView, ShowEnd, tell};
pub use own_names::OwnNames;
pub use reading::{KeptRun, run_in};
pub use showing::{RunText, show};
pub use streams::program;
