//! The squares of numbers.

ghost use Rattle.std.specs.Prelude.{◌≡◌, ◌*◌, IfOk};
ghost use Rattle.std.specs.List.{AllZip};

use mtapi_values::NodeAttr;
use std::alloc::Global;
use std::sync::Wait;
use std::thread::Threads;
use typed_pieces::{Unfinished, map_pieces};

/// The square of each number, at its place, by a node with these settings.
pub fn squares_of<R: Threads + Wait + Sync>(
    rt: &R,
    alloc: Global,
    settings: NodeAttr,
    numbers: Vec<u32>,
) -> Result<Vec<u64>, Unfinished>
    ensures { IfOk result (λ squares. AllZip (λ number square. square ≡ number * number) numbers.items squares.items) }
{
    let square = |number: u32| -> u64
        ensures { result ≡ number * number }
    { u64::from(number) * u64::from(number) };
    Ok(map_pieces(rt, alloc, settings, numbers, &square)?.results)
}
