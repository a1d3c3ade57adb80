//! Work that splits, on the workers of a node: the placings of eight queens are counted, and a list is sorted by halves.
#![tactic(auto)]

mod queens;
mod sort;

use mtapi_values::{MtapiStatus, NodeAttr};
use sort::Sort;
use std::io;

const WORKERS: u64 = 4;

// Lists that are longer split.
const GRAIN: usize = 1000;

fn settings() -> Result<NodeAttr, MtapiStatus> {
    let mut settings = NodeAttr::new();
    settings.set(NodeAttr::WORKERS, WORKERS)?;
    Ok(settings)
}

fn main(rt: HostRuntime) -> io::Result<()> {
    match queens::eight_queens(&rt, rt.alloc()) {
        Ok(placings) => println!(rt; "eight queens: {placings} placings")?,
        Err(failure) => println!(rt; "{failure}")?,
    }
    let numbers = (1..=10_000u32).map(|n| n.wrapping_mul(2_654_435_761));
    let numbers: Vec<u32> = numbers.collect(rt.alloc())?;
    match sort::sorted(&rt, Sort(&numbers, GRAIN, rt.alloc())) {
        Ok(Ok(sorted)) => println!(rt; "{} sorted numbers", sorted.len()),
        Ok(Err(error)) => println!(rt; "{error}"),
        Err(failure) => println!(rt; "{failure}"),
    }
}
