//! Tests of the command: worked workloads with their reports, each status, journals that are kept and judged, generated workloads, each
//! read, write and thread start refused in turn, and workloads of many threads. No product stands on this crate.
#![tactic(auto)]

#[cfg(test)]
mod bridges;
#[cfg(test)]
mod callers;
#[cfg(test)]
mod checks;
#[cfg(test)]
mod faults;
#[cfg(test)]
mod generated;
#[cfg(test)]
mod journals;
#[cfg(test)]
mod judged_journals;
#[cfg(test)]
mod judged_runs;
#[cfg(test)]
mod meeting;
#[cfg(test)]
mod monitor;
#[cfg(test)]
mod reports;
#[cfg(test)]
mod runs;
#[cfg(test)]
mod schedules;
#[cfg(test)]
mod statuses;
