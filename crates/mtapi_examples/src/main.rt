//! Runs the command on the examples and the cases that lie where this runs, and tells which it answers as they say: each example with
//! its report; words with an input; and journals of three short runs with one line changed each.
#![tactic(auto)]

mod asking;
mod changes;
mod examples;

use crate::asking::answers_as_said;
use crate::changes::judged_as_said;
use crate::examples::{EXAMPLES, all_agree};
use std::alloc::Global;
use std::sync::Wait;
use std::thread::Threads;
use std::{fs, io};

/// Prints each case that is answered in another way, and how many are answered as they say.
fn run_cases<R: Threads + Wait + Sync>(
    host: &HostRuntime,
    rt: &R,
    alloc: Global,
) -> io::Result<()> {
    let text = fs::read_to_string(host, "cases/inputs.cases")?;
    let mut agreeing = 0u64;
    for case in text.split("== ").skip(1) {
        if answers_as_said(rt, alloc, case)? {
            agreeing = agreeing.saturating_add(1);
        } else {
            println!(host; "not as it says: {case}")?;
        }
    }
    println!(host; "inputs: {agreeing} as they say")
}

/// The same of the changes of a journal.
fn run_changes<R: Threads + Wait + Sync>(
    host: &HostRuntime,
    rt: &R,
    alloc: Global,
    name: &str,
) -> io::Result<()> {
    let load = fs::read_to_string(host, format!(in alloc; "cases/{name}.workload")?.as_str())?;
    let journal = fs::read_to_string(host, format!(in alloc; "cases/{name}.journal")?.as_str())?;
    let changes = fs::read_to_string(host, format!(in alloc; "cases/{name}.changes")?.as_str())?;
    let mut agreeing = 0u64;
    for change in changes.lines() {
        if judged_as_said(rt, alloc, &load, &journal, change)? {
            agreeing = agreeing.saturating_add(1);
        } else {
            println!(host; "not as it says: {change}")?;
        }
    }
    println!(host; "{name}: {agreeing} as they say")
}

/// Prints of each example whether it is answered as its report says.
fn run_examples<R: Threads + Wait + Sync>(host: &HostRuntime, rt: &R) -> io::Result<()> {
    for (name, times) in EXAMPLES {
        if all_agree(host, rt, name, times)? {
            println!(host; "{name}: as its report says")?;
        } else {
            println!(host; "{name}: not as its report says")?;
        }
    }
    Ok(())
}

fn main(rt: HostRuntime) -> io::Result<()> {
    run_cases(&rt, &rt, rt.alloc())?;
    for name in ["locks", "queue", "tally"] {
        run_changes(&rt, &rt, rt.alloc(), name)?;
    }
    run_examples(&rt, &rt)
}
