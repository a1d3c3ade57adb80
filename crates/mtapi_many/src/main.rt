//! The squares of a hundred thousand numbers, by a node that has a thousand tasks at most. Each result is proved to be the square.
#![tactic(auto)]

ghost use Rattle.std.specs.Prelude.{◌≡◌, ◌*◌, IfOk};
ghost use Rattle.std.specs.List.{AllZip};

use chunked_pieces::map_chunks;
use mtapi_values::NodeAttr;
use std::alloc::Global;
use std::io;
use std::sync::Wait;
use std::thread::Threads;
use typed_pieces::Unfinished;

const NUMBERS: u32 = 100_000;

/// The square of each number, in their order.
fn squares_of<R: Threads + Wait + Sync>(
    rt: &R,
    alloc: Global,
    settings: NodeAttr,
    numbers: Vec<u32>,
) -> Result<Vec<u64>, Unfinished>
    ensures { IfOk result (λ squares. AllZip (λ number square. square ≡ number * number) numbers.items squares.items) }
{
    let square = |number: u32| -> u64
        ensures { result ≡ number * number }
    { u64::from(number) * u64::from(number) };
    Ok(map_chunks(rt, alloc, settings, numbers, &square)?.results)
}

/// The sum of the squares of all numbers below so many.
fn sum_of_squares<R: Threads + Wait + Sync>(
    rt: &R,
    alloc: Global,
    count: u32,
) -> Result<u64, Unfinished> {
    let mut settings = NodeAttr::new();
    settings.set(NodeAttr::WORKERS, 2)?;
    settings.set(NodeAttr::TASKS, 1_000)?;
    let numbers = (0..count).collect(alloc)?;
    let mut sum = 0u64;
    for square in &squares_of(rt, alloc, settings, numbers)? {
        sum = sum.saturating_add(*square);
    }
    Ok(sum)
}

fn main(rt: HostRuntime) -> io::Result<()> {
    match sum_of_squares(&rt, rt.alloc(), NUMBERS) {
        Ok(sum) => println!(rt; "the squares of {NUMBERS} numbers add up to {sum}"),
        Err(unfinished) => println!(rt; "{unfinished}"),
    }
}
