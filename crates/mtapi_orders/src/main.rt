//! The program behind `mtapi orders`: it reads a workload, and writes the reports that its schedules give and the deadlocks that they
//! meet. Its stored run finds the report of either order of two writers.
#![tactic(auto)]

mod ends;
mod journals;
mod page;
mod slots;
mod told;
mod words;

use ends::{OrdersEnd, tell};
use journals::push_journals;
use orders_machine::{is_too_large, may_retire};
use page::{alternatives_of, page_of};
use slots::slots_of;
use std::alloc::Global;
use std::process::ExitCode;
use told::{Told, tell_of};
use words::{Mode, Request, asked};
use workload_file::{Sink, Source, StdSink, StdSource, Workload, read_workload, write_all};

/// How a search whose page is written ends.
fn end_of(told: &Told, mode: Mode) -> OrdersEnd {
    let found = &told.orders;
    if found.refused > 0 {
        return OrdersEnd::Misjudged(found.refused);
    }
    if told.differ {
        return OrdersEnd::Differ;
    }
    if found.cut {
        return OrdersEnd::Cut;
    }
    let stops = !found.deadlocks.is_empty() || !found.stops.is_empty();
    if mode == Mode::One && (found.reports.len() != 1 || stops) {
        return OrdersEnd::NotOne;
    }
    OrdersEnd::Whole
}

/// The page of what was found, and what is asked for beside it.
fn text_of(alloc: Global, load: &Workload, told: &Told, mode: Mode) -> Result<Vec<u8>, OrdersEnd> {
    let slots = slots_of(alloc, load)?;
    let all = alternatives_of(alloc, &slots, &told.orders.reports)?;
    let mut text = page_of(alloc, &slots, &all, told)?;
    if mode == Mode::Journals {
        push_journals(alloc, &mut text, &slots, &all, told)?;
    }
    Ok(text)
}

/// Reads a workload, searches its schedules, and writes what was found.
fn run<S: Source, W: Sink, E: Sink>(
    alloc: Global,
    request: Request,
    src: &mut S,
    out: &mut W,
    err: &mut E,
) -> Result<OrdersEnd, OrdersEnd> {
    let load = read_workload(alloc, src)?;
    if is_too_large(&load) {
        return Err(OrdersEnd::TooLarge);
    }
    if may_retire(&load) {
        return Err(OrdersEnd::Retires);
    }
    let told = tell_of(alloc, &load, request.most, err)?;
    let text = text_of(alloc, &load, &told, request.mode)?;
    if write_all(out, &text).is_err() {
        return Err(OrdersEnd::WriteFault);
    }
    Ok(end_of(&told, request.mode))
}

/// Runs the program over the standard input and output.
fn run_host(rt: &HostRuntime) -> OrdersEnd {
    let mut out = StdSink::new(rt.stdout());
    let mut err = StdSink::new(rt.stderr());
    match asked(rt) {
        Ok(Some(request)) => {
            match run(
                rt.alloc(),
                request,
                &mut StdSource::new(rt.stdin()),
                &mut out,
                &mut err,
            ) {
                Ok(end) => end,
                Err(end) => end,
            }
        }
        Ok(None) => OrdersEnd::Usage,
        Err(_) => OrdersEnd::Memory,
    }
}

fn main(rt: HostRuntime) -> ExitCode {
    let end = run_host(&rt);
    ExitCode::from(tell(rt.alloc(), end, &mut StdSink::new(rt.stderr())))
}
