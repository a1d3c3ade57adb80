//! A pipeline of two stages over two ordered queues of a node. The first stage squares numbers; each square goes to the queue of the second,
//! which takes a checksum of them. The stages run beside each other, and each takes what it is given in order.
#![tactic(auto)]

use mtapi_values::{ActionAttr, Kind, MtapiStatus, NodeAttr, QueueAttr, TaskAttr, Timeout};
use node_with_workers::{Client, Failure, with_workers};
use plain_work::{PlainWork, Work, args_of};
use sched_workers::Caller;
use std::alloc::Global;
use std::io;
use std::sync::{Mutex, Wait};
use std::thread::Threads;

const LAST: i64 = 12;

// The stages: the first number of a task says which.
const SQUARE: i64 = 1;

const CHECK: i64 = 2;

/// What the stages have made: the squares in order, and the checksum of those that reached the second.
#[derive(Clone, Copy, Drop)]
struct Stages<'a> {
    squares: &'a Mutex<Vec<i64>>,
    sum: &'a Mutex<i64>,
}

impl<'a> Work for Stages<'a> {
    fn work<R: Wait>(&mut self, rt: &R, numbers: &[i64]) {
        if let [SQUARE, number] = numbers {
            let square = number.saturating_mul(*number);
            let _ = self.squares.lock(rt).push(square);
        } else if let [CHECK, square] = numbers {
            let mut sum = self.sum.lock(rt);
            *sum = sum.wrapping_mul(31).wrapping_add(*square);
        }
    }
}

impl<'a> Client for Stages<'a> {
    type Told = Result<(), MtapiStatus>;

    ghost promise = { λ _ _ _ _. Unit {0} };

    #[tactic(auto, using(node_with_workers::proofs::Calls::further_calls))]
    fn call<R: Wait>(self, rt: &R, caller: &mut Caller) -> Result<(), MtapiStatus> {
        caller.action_create(rt, 1, Kind::Echo, ActionAttr::new())?;
        let mut ordered = QueueAttr::new();
        ordered.set(QueueAttr::ORDERED, 1)?;
        let squaring = caller.queue_create(rt, 1, 1, ordered)?;
        let checking = caller.queue_create(rt, 2, 1, ordered)?;
        let (attr, group) = (TaskAttr::new(), caller.group_create(rt)?);
        for number in 1..=LAST {
            let args = args_of(&[SQUARE, number]);
            caller.task_enqueue(rt, squaring, &args, attr, Some(group))?;
        }
        for at in 0..LAST as usize {
            caller.group_wait_any(rt, group, Timeout::Infinite)?;
            let square = self.squares.lock(rt).get(at).copied().unwrap_or(0);
            caller.task_enqueue(rt, checking, &args_of(&[CHECK, square]), attr, None)?;
        }
        // The node ends once the last squares are through.
        Ok(())
    }
}

fn run<R: Threads + Wait + Sync>(rt: &R, alloc: Global) -> Result<i64, Failure> {
    let squares = Mutex::new(Vec::with_capacity(alloc, LAST as usize)?);
    let sum = Mutex::new(0);
    let work = Stages {
        squares: &squares,
        sum: &sum,
    };
    let mut settings = NodeAttr::new();
    settings.set(NodeAttr::WORKERS, 2)?;
    with_workers(rt, alloc, settings, &mut PlainWork { work }, work)?.told?;
    Ok(sum.into_inner())
}

fn main(rt: HostRuntime) -> io::Result<()> {
    match run(&rt, rt.alloc()) {
        Ok(sum) => println!(rt; "checksum of the squares of 1 to {LAST}: {sum}"),
        Err(failure) => println!(rt; "{failure}"),
    }
}
