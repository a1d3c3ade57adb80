//! Whether a workload is settled, told from its statements: then every run of it has the same report, and no search is needed.
#![tactic(auto)]

mod deeds;
mod parts;
mod rows;
mod whole;

pub use whole::is_settled;
