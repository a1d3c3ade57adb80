//! What is told of a workload: all reports where they are few, else by line.

ghost use Rattle.workload_file.specs.Formed.{WellFormed};

use crate::page::MOST_WHOLE;
use std::alloc::{AllocError, Global};
use std::cmp::min;
use workload_file::{Sink, Workload, write_all};
use workload_orders::{Lines, Orders, find_lines, orders};

/// The states that are followed at first. Where they are too few, the search begins anew with four times as many.
const FIRST_STATES: usize = 16_000;

/// How often that is at most: after that all states are followed that may be.
const STAGES: usize = 16;

/// What is told.
#[derive(Drop)]
pub struct Told {
    /// All reports, or runs that together have each text of each line.
    pub orders: Orders,
    /// Whether these are all the reports that were found.
    pub whole: bool,
    /// How many reports were found; none if they weren't counted.
    pub count: Option<usize>,
    /// Whether the two searches found different things, so that one of them is at fault.
    pub differ: bool,
}

/// Says how far a search by line came that was cut.
fn say_how_far<E: Sink>(alloc: Global, lines: &Lines, err: &mut E) -> Result<(), AllocError> {
    let states = lines.runs.states;
    let reports = lines.runs.reports.len();
    let deadlocks = lines.runs.deadlocks.len();
    let said = format!(in alloc;
        "mtapi: orders: {states} states, at least {reports} reports, {deadlocks} deadlocks so far\n"
    )?;
    let _ = write_all(err, said.as_bytes());
    Ok(())
}

/// Searches by line, with more and more states.
fn find_in_stages<E: Sink>(
    alloc: Global,
    load: &Workload,
    most: usize,
    err: &mut E,
) -> Result<Lines, AllocError>
    requires formed { WellFormed load.now }
{
    let mut stage = FIRST_STATES;
    for _ in 0..STAGES {
        let lines = find_lines(alloc, load, min(stage, most))?;
        if !lines.runs.cut || stage >= most {
            return Ok(lines);
        }
        say_how_far(alloc, &lines, err)?;
        stage = stage.saturating_mul(4);
    }
    find_lines(alloc, load, most)
}

/// Searches by line, and then, where there are few reports, for each of them. It says how far it is.
pub fn tell_of<E: Sink>(
    alloc: Global,
    load: &Workload,
    most: usize,
    err: &mut E,
) -> Result<Told, AllocError>
    requires formed { WellFormed load.now }
{
    let lines = find_in_stages(alloc, load, most, err)?;
    let count = lines.count;
    let few = match count {
        Some(count) => count <= MOST_WHOLE,
        None => false,
    };
    if few {
        let whole = orders(alloc, load, most)?;
        if !whole.cut {
            let differ = count != Some(whole.reports.len())
                || whole.deadlocks.is_empty() != lines.runs.deadlocks.is_empty()
                || whole.stops.is_empty() != lines.runs.stops.is_empty();
            return Ok(Told {
                count: Some(whole.reports.len()),
                orders: whole,
                whole: true,
                differ,
            });
        }
    }
    Ok(Told {
        orders: lines.runs,
        whole: false,
        count,
        differ: false,
    })
}
