//! What is written of the reports and the deadlocks.

use crate::slots::{Slot, lines_of, push_bytes};
use crate::told::Told;
use number_text::{cut_at, push_number};
use std::alloc::{AllocError, Global};
use workload_orders::{Deadlock, Orders, Report};

/// The most reports that are written one by one.
pub const MOST_WHOLE: usize = 100;

/// A number and what is counted, with an `s` unless there is one.
fn push_count(
    alloc: Global,
    out: &mut Vec<u8>,
    count: usize,
    what: &[u8],
) -> Result<(), AllocError> {
    push_number(alloc, out, count as u64)?;
    push_bytes(out, b" ")?;
    push_bytes(out, what)?;
    if count != 1 {
        push_bytes(out, b"s")?;
    }
    Ok(())
}

/// The first line: how much was found, whether the search was cut, and whether the report is known to be the only one. The number of reports
/// is exact, or the least that it can be.
fn push_head(
    alloc: Global,
    out: &mut Vec<u8>,
    orders: &Orders,
    reports: usize,
    exact: bool,
) -> Result<(), AllocError> {
    if orders.cut {
        push_bytes(out, b"cut off after ")?;
        push_count(alloc, out, orders.states, b"state")?;
        push_bytes(out, b": ")?;
    }
    if orders.cut || !exact {
        push_bytes(out, b"at least ")?;
    }
    push_count(alloc, out, reports, b"report")?;
    push_bytes(out, b" found, ")?;
    push_count(alloc, out, orders.deadlocks.len(), b"deadlock")?;
    if !orders.stops.is_empty() {
        push_bytes(out, b", ")?;
        push_count(alloc, out, orders.stops.len(), b"unproved stop")?;
    }
    if !orders.cut {
        push_bytes(out, b", ")?;
        push_count(alloc, out, orders.states, b"state")?;
    }
    if orders.all {
        push_bytes(out, b"; settled: every run has this report")?;
    }
    push_bytes(out, b"\n")
}

/// A sign, a line and its end.
fn push_line(out: &mut Vec<u8>, sign: &[u8], line: &[u8]) -> Result<(), AllocError> {
    push_bytes(out, sign)?;
    push_bytes(out, line)?;
    push_bytes(out, b"\n")
}

/// The line of a slot, or what stands for it.
fn shown<'a>(slot: &'a Slot, line: &'a [u8]) -> &'a [u8] {
    if line.is_empty() {
        slot.absent.as_slice()
    } else {
        line
    }
}

/// The texts that one slot has, each once. An empty one is none.
#[derive(Drop)]
pub struct Alternatives {
    pub texts: Vec<Vec<u8>>,
}

impl Alternatives {
    /// Whether this text is there.
    fn has(&self, line: &[u8]) -> bool {
        for text in &self.texts {
            if text.as_slice() == line {
                return true;
            }
        }
        false
    }

    /// Adds a text, unless it is there.
    fn add(&mut self, alloc: Global, line: &[u8]) -> Result<(), AllocError> {
        if self.has(line) {
            return Ok(());
        }
        let mut own = Vec::new(alloc);
        push_bytes(&mut own, line)?;
        self.texts.push(own)?;
        Ok(())
    }

    /// Whether there are more than one.
    pub fn differ(&self) -> bool {
        self.texts.len() > 1
    }
}

/// What each slot has in these reports.
pub fn alternatives_of(
    alloc: Global,
    slots: &[Slot],
    reports: &[Report],
) -> Result<Vec<Alternatives>, AllocError> {
    let mut all = Vec::new(alloc);
    for _ in slots {
        all.push(Alternatives {
            texts: Vec::new(alloc),
        })?;
    }
    for report in reports {
        add_report(alloc, slots, report, &mut all)?;
    }
    Ok(all)
}

/// Adds the lines of one report.
fn add_report(
    alloc: Global,
    slots: &[Slot],
    report: &Report,
    all: &mut Vec<Alternatives>,
) -> Result<(), AllocError> {
    let lines = lines_of(alloc, slots, &report.text)?;
    for place in 0..lines.len() {
        if let Some(alternatives) = all.get_mut(place) {
            alternatives.add(alloc, lines[place])?;
        }
    }
    Ok(())
}

/// The lines that every report has, and the alternatives of the others.
fn push_lines(out: &mut Vec<u8>, slots: &[Slot], all: &[Alternatives]) -> Result<(), AllocError> {
    for (slot, alternatives) in slots.iter().zip(all) {
        push_slot(out, slot, alternatives)?;
    }
    Ok(())
}

/// The sign before the first text of a line.
fn sign_of(differ: bool) -> &'static [u8] {
    if differ { b"? " } else { b"  " }
}

/// The line of one slot, or its alternatives.
fn push_slot(
    out: &mut Vec<u8>,
    slot: &Slot,
    alternatives: &Alternatives,
) -> Result<(), AllocError> {
    let differ = alternatives.differ();
    let mut sign = sign_of(differ);
    for line in &alternatives.texts {
        if differ || !line.is_empty() {
            push_line(out, sign, shown(slot, line))?;
        }
        sign = b"| ";
    }
    Ok(())
}

/// The lines of one report that others lack.
fn push_report(
    alloc: Global,
    out: &mut Vec<u8>,
    slots: &[Slot],
    all: &[Alternatives],
    report: &Report,
) -> Result<(), AllocError> {
    let lines = lines_of(alloc, slots, &report.text)?;
    for (place, slot) in slots.iter().enumerate() {
        if let (Some(alternatives), Some(line)) = (all.get(place), lines.get(place)) {
            if alternatives.differ() {
                push_line(out, b"  ", shown(slot, *line))?;
            }
        }
    }
    Ok(())
}

/// A word, a number and the end of the line.
pub fn push_numbered(
    alloc: Global,
    out: &mut Vec<u8>,
    word: &[u8],
    number: usize,
    end: &[u8],
) -> Result<(), AllocError> {
    push_bytes(out, word)?;
    push_number(alloc, out, number as u64)?;
    push_bytes(out, end)
}

/// Each report by itself, where there are more than one and not too many.
fn push_reports(
    alloc: Global,
    out: &mut Vec<u8>,
    slots: &[Slot],
    all: &[Alternatives],
    reports: &[Report],
) -> Result<(), AllocError> {
    if reports.len() < 2 {
        return Ok(());
    }
    let mut number = 0usize;
    for report in reports {
        number = number.saturating_add(1);
        push_numbered(alloc, out, b"report ", number, b"\n")?;
        push_report(alloc, out, slots, all, report)?;
    }
    Ok(())
}

/// The lines of a text, each behind two spaces.
fn push_indented(out: &mut Vec<u8>, text: &[u8]) -> Result<(), AllocError> {
    let mut rest = text;
    for _ in 0..text.len() {
        if rest.is_empty() {
            break;
        }
        let (line, after) = cut_at(rest, b'\n');
        push_line(out, b"  ", line)?;
        rest = after.unwrap_or(&text[..0]);
    }
    Ok(())
}

/// Each deadlock, or each stop that isn't shown to be one, with a line for each that waits.
fn push_stops(
    alloc: Global,
    out: &mut Vec<u8>,
    word: &[u8],
    stops: &[Deadlock],
) -> Result<(), AllocError> {
    let mut number = 0usize;
    for stop in stops {
        number = number.saturating_add(1);
        push_numbered(alloc, out, word, number, b"\n")?;
        push_indented(out, &stop.waits)?;
    }
    Ok(())
}

/// The page of reports, by line, and each by itself where these are all.
pub fn page_of(
    alloc: Global,
    slots: &[Slot],
    all: &[Alternatives],
    told: &Told,
) -> Result<Vec<u8>, AllocError> {
    let mut out = Vec::new(alloc);
    let orders = &told.orders;
    let least = orders.reports.len();
    let count = told.count.unwrap_or(least);
    push_head(alloc, &mut out, orders, count, told.count.is_some())?;
    push_lines(&mut out, slots, all)?;
    if told.whole {
        push_reports(alloc, &mut out, slots, all, &orders.reports)?;
    }
    push_stops(alloc, &mut out, b"deadlock ", &orders.deadlocks)?;
    push_stops(alloc, &mut out, b"unproved stop ", &orders.stops)?;
    Ok(out)
}
