//! The command: it reads or makes a workload, makes its run, and writes its report, its journal or its summary; or it judges a
//! journal that was kept.
#![tactic(auto)]

mod checking;
mod ends;
mod input;
pub mod laws;
mod report;
mod run_output;
mod telling;
mod whole_command;
mod words;
pub mod worked;

pub use ends::{End, Outcome};
pub use generated_workload::generated;
pub use report::report_of;
pub use run_beside::{Beside, FewThreads, Threads};
pub use telling::tell;
pub use whole_command::command;
pub use words::Asked;
pub use workload_runners::run_node;
