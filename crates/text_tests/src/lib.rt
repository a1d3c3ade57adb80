//! Tests of bytes that are read and written, of numbers in texts, of the texts of workloads and journals, of a report's line, and of
//! what the programs that show a run and tell mistakes do where a read or a write fails. No product stands on this crate.
#![tactic(auto)]

#[cfg(test)]
mod bytes;
#[cfg(test)]
mod journals;
#[cfg(test)]
mod numbers;
#[cfg(test)]
mod reports;
#[cfg(test)]
mod shows;
#[cfg(test)]
mod workloads;
