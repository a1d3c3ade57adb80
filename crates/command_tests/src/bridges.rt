//! The command whose workers hand their actions to a second node, by bridges: one task, and five hundred of all kinds.

mod actions;
mod kinds;
mod on_one_thread;
mod runs;
mod seats;

use crate::bridges::kinds::{report, text};
use crate::bridges::runs::{Counts, run_beside};
use crate::bridges::seats::{one_bridge, two_bridges};
use node_bridge::Served;
use std::sync::atomic::{AtomicU64, Ordering};
use std::test::Fail;
use turn_cell::TurnCell;

const ONE_TASK: &[u8] = b"action a job=1 kind=add
start t job=1 args=1,2,3
wait t timeout=inf
";

/// Room for one task: the start that comes after the run is the second one of that slot.
#[test]
fn one_task(rt: HostRuntime) -> Result<(), Fail> {
    let alloc = rt.alloc();
    let counts = Counts {
        far: AtomicU64::new(0),
        near: AtomicU64::new(0),
    };
    let served = Served::new(alloc, 2, 2, 1)?;
    let (cell, seats) = TurnCell::new(alloc, served)?;
    let holders = one_bridge(alloc, &cell, seats, &counts.near)?;
    let bytes = ONE_TASK.to_vec(alloc)?;
    let (said, stopped) = run_beside(&rt, alloc, &cell, holders, &counts, bytes, 1);
    let said = said?;
    assert_eq!(rt; said.status, 0);
    assert_eq!(rt; said.out.bytes(), b"main.t completed 6\n".as_slice());
    assert_eq!(rt; said.handles.as_slice(), [8_623_489_024].as_slice());
    assert!(rt; stopped);
    // The task of the run, and that of the last start.
    assert_eq!(rt; counts.far.load(Ordering::SeqCst), 2);
    assert_eq!(rt; counts.near.load(Ordering::SeqCst), 0);
    Ok(())
}

// The sum of the generations of these handles.
fn issues(handles: &[u64]) -> u64 {
    let mut sum: u64 = 0;
    for handle in handles.iter() {
        sum = sum.saturating_add(*handle >> 32);
    }
    sum
}

/// The generation of a handle says how often its slot was issued. With room for two tasks, two starts afterwards tell how many there
/// were before.
#[test]
fn tasks_of_all_kinds(rt: HostRuntime) -> Result<(), Fail> {
    let alloc = rt.alloc();
    let counts = Counts {
        far: AtomicU64::new(0),
        near: AtomicU64::new(0),
    };
    let served = Served::new(alloc, 2, 3, 2)?;
    let (cell, seats) = TurnCell::new(alloc, served)?;
    let holders = two_bridges(alloc, &cell, seats, &counts.near)?;
    let bytes = text(alloc)?;
    let (said, stopped) = run_beside(&rt, alloc, &cell, holders, &counts, bytes, 2);
    let said = said?;
    let wanted = report(alloc)?;
    assert_eq!(rt; said.status, 0);
    assert_eq!(rt; said.out.bytes(), wanted.as_slice());
    assert!(rt; stopped);
    assert_eq!(rt; issues(&said.handles), 502);
    assert_eq!(rt; counts.far.load(Ordering::SeqCst), 502);
    assert_eq!(rt; counts.near.load(Ordering::SeqCst), 0);
    Ok(())
}
