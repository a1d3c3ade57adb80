//! The examples, and whether each is answered as its report says.

use crate::asking::answer;
use std::sync::Wait;
use std::thread::Threads;
use std::{fs, io};

/// The examples, which lie where this runs, and how often each is run.
pub(crate) const EXAMPLES: [(&str, u32); 13] = [
    ("affinity", 1),
    ("callers", 10),
    ("errors", 1),
    ("first", 1),
    ("group", 1),
    ("lock", 10),
    ("nine", 10),
    ("pipe", 10),
    ("queue", 1),
    ("realistic", 100),
    ("refusals", 1),
    ("tally", 10),
    ("threads", 10),
];

/// Whether one run of the example ends with 0, writes what its report says, and says nothing.
fn agrees<R: Threads + Wait + Sync>(host: &HostRuntime, rt: &R, name: &str) -> io::Result<bool> {
    let alloc = host.alloc();
    let text = fs::read(host, format!(in alloc; "{name}.workload")?.as_str())?;
    let report = fs::read(host, format!(in alloc; "{name}.report")?.as_str())?;
    let said = answer(rt, alloc, &["run"], text)?;
    Ok(said.strip_prefix(b"0\n") == Some(report.as_slice()))
}

/// Whether all runs of the example do.
pub(crate) fn all_agree<R: Threads + Wait + Sync>(
    host: &HostRuntime,
    rt: &R,
    name: &str,
    times: u32,
) -> io::Result<bool> {
    for _ in 0..times {
        if !agrees(host, rt, name)? {
            return Ok(false);
        }
    }
    Ok(true)
}
