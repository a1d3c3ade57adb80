//! A workload of 500 tasks of all eight pure kinds, and its report.

ghost use Rattle.std.specs.Prelude.{◌≤◌, ◌<◌};

use std::alloc::{AllocError, Global};

/// How many tasks there are.
const TASKS: u32 = 500;

const HEAD: &str = "node workers=2
action a job=1 kind=add
action b job=2 kind=mul
action c job=3 kind=max
action d job=4 kind=div
action e job=5 kind=gcd
action f job=6 kind=echo
action g job=7 kind=triangle
action h job=8 kind=fail
";

// The arguments of the task of this number, and the job of their kind.
fn start_of(alloc: Global, n: u32) -> Result<String, AllocError>
    requires { n < 500 }
{
    match n % 8 {
        0 => format!(in alloc; "job=1 args={n},-7,{}", n + 9),
        1 => format!(in alloc; "job=2 args={n},3"),
        2 => format!(in alloc; "job=3 args=-5,{n},250"),
        3 => format!(in alloc; "job=4 args={},6", 6 * n + 5),
        4 => format!(in alloc; "job=5 args={},{}", 6 * n, 9 * n),
        5 => format!(in alloc; "job=6 args={n}"),
        6 => format!(in alloc; "job=7 args={}", n % 64),
        _ => format!(in alloc; "job=8 args={n}"),
    }
}

// What is reported of it.
fn end_of(alloc: Global, n: u32) -> Result<String, AllocError>
    requires { n < 500 }
{
    let small = n % 64;
    let value = match n % 8 {
        0 => n + n + 2,
        1 => 3 * n,
        2 => if n < 250 { 250 } else { n },
        // Division cuts off the rest.
        3 => n,
        4 => 3 * n,
        5 => n,
        6 => small * (small + 1) / 2,
        _ => return format!(in alloc; "main.t{n} error MTAPI_ERR_ACTION_FAILED\n"),
    };
    format!(in alloc; "main.t{n} completed {value}\n")
}

/// Starts all tasks, and then waits for each.
pub(crate) fn text(alloc: Global) -> Result<Vec<u8>, AllocError> {
    let mut text = String::from_str(alloc, HEAD)?;
    for n in 0..TASKS {
        let start = start_of(alloc, n)?;
        text.push_str(&format!(in alloc; "start t{n} {start}\n")?)?;
    }
    for n in 0..TASKS {
        text.push_str(&format!(in alloc; "wait t{n} timeout=inf\n")?)?;
    }
    Ok(text.into_bytes())
}

/// The report.
pub(crate) fn report(alloc: Global) -> Result<Vec<u8>, AllocError> {
    let mut report = String::new(alloc);
    for n in 0..TASKS {
        report.push_str(&end_of(alloc, n)?)?;
    }
    Ok(report.into_bytes())
}
