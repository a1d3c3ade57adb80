//! What a caller may rely on of each result: squares that are proved to be the squares, and a product of matrices by blocks, each of which has as
//! many rows as it was given.
#![tactic(auto)]

mod callers;
mod product;
mod squares;

use callers::squares_below;
use mtapi_values::NodeAttr;
use product::{matrix, product_of, row_of};
use squares::squares_of;
use std::alloc::Global;
use std::io;
use std::sync::Wait;
use std::thread::Threads;
use typed_pieces::Unfinished;

// How many rows the product has, and how many of them are those of the product by one thread.
fn compare<R: Threads + Wait + Sync>(rt: &R, alloc: Global) -> Result<(usize, usize), Unfinished> {
    let (left, right) = (matrix(alloc, 1)?, matrix(alloc, 2)?);
    let blocks = left.chunks(8).collect(alloc)?;
    let (mut rows, mut same) = (0usize, 0usize);
    let mut expected = left.iter();
    for block in product_of(rt, alloc, blocks, &right)? {
        for row in &block? {
            rows = rows.saturating_add(1);
            if expected.next().map(|left| row_of(left, &right)) == Some(*row) {
                same = same.saturating_add(1);
            }
        }
    }
    Ok((rows, same))
}

// The squares of five numbers, each of which takes a task, by a node that may have so many tasks.
fn squares_on<R: Threads + Wait + Sync>(
    rt: &R,
    alloc: Global,
    tasks: u64,
) -> Result<Vec<u64>, Unfinished> {
    let numbers = vec![in alloc; 1, 2, 3, 65_536, 4_294_967_295]?;
    let mut settings = NodeAttr::new();
    settings.set(NodeAttr::TASKS, tasks)?;
    squares_of(rt, alloc, settings, numbers)
}

fn main(rt: HostRuntime) -> io::Result<()> {
    for tasks in [6, 5, 4] {
        match squares_on(&rt, rt.alloc(), tasks) {
            Ok(squares) => println!(rt; "squares on {tasks} tasks: {squares:?}")?,
            Err(unfinished) => println!(rt; "squares on {tasks} tasks: {unfinished}")?,
        }
    }
    match compare(&rt, rt.alloc()) {
        Ok((rows, same)) => println!(rt; "{rows} rows, {same} as by one thread")?,
        Err(unfinished) => println!(rt; "{unfinished}")?,
    }
    match squares_below(&rt, rt.alloc(), 8) {
        Ok(squares) => println!(rt; "by two callers: {squares:?}"),
        Err(unfinished) => println!(rt; "{unfinished}"),
    }
}
