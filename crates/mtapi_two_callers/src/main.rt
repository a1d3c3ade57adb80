//! A program with a node that two callers share: each adds numbers to a cell of a segment, under a mutex. Its workers' sets of actions come
//! back, each with the number of its worker.
#![tactic(auto)]

ghost use Rattle.workload_runners.specs.Turns.{SameNodeSeat};
ghost use Rattle.node_with_workers.specs.Clients.{StillBegins};

use action_fn::{ActionSet, ActionSource, Finished, StandardActions};
use mtapi_values::{
    Args, Kind, MrapiStatus, MutexAttr, MutexHandle, NodeAttr, ShmemHandle, Timeout,
};
use node_with_workers::{Client, NodeFailure, with_callers, with_callers_beside};
use sched_workers::{Caller, FewThreads};
use std::alloc::Global;
use std::sync::Wait;
use std::thread::Threads;
use std::{io, vec};

/// What the callers share: a segment of one cell, and the mutex that guards it.
type Shared = (MutexHandle, ShmemHandle);

// What the callers share, which the first one makes.
#[tactic(auto, using(node_with_workers::proofs::Calls::further_calls))]
fn shared<R: Wait>(rt: &R, caller: &mut Caller) -> Result<Shared, MrapiStatus>
    ensures same { SameNodeSeat caller.old caller.new }
    ensures further { StillBegins caller.old caller.new }
{
    match caller.mutex_create(rt, 5, MutexAttr::new()) {
        Err(MrapiStatus::ErrMutexExists) => {
            Ok((caller.mutex_get(rt, 5)?, caller.shmem_get(rt, 3)?))
        }
        made => Ok((made?, caller.shmem_create(rt, 3, 1)?)),
    }
}

// Adds a number, and tells the sum.
#[tactic(auto, using(node_with_workers::proofs::Calls::further_calls))]
fn add<R: Wait>(rt: &R, caller: &mut Caller, at: Shared, number: i64) -> Result<i64, MrapiStatus>
    ensures same { SameNodeSeat caller.old caller.new }
    ensures further { StillBegins caller.old caller.new }
{
    let (mutex, cells) = at;
    let key = caller.mutex_lock(rt, mutex, Timeout::Infinite)?;
    let sum = caller.shmem_read(rt, cells, 0)?.saturating_add(number);
    caller.shmem_write(rt, cells, 0, sum)?;
    caller.mutex_unlock(rt, mutex, key)?;
    Ok(sum)
}

/// Adds the numbers from 1 up to the last, one after the other, and then makes a semaphore with this id: the end of the node may not have begun,
/// whoever has come back already.
#[derive(Drop)]
struct Adding {
    last: i64,
    id: u32,
}

impl Client for Adding {
    // What it wrote last.
    type Told = Result<i64, MrapiStatus>;

    ghost promise = { λ _ _ _ _. Unit {0} };

    #[tactic(auto, using(node_with_workers::proofs::Calls::further_calls))]
    fn call<R: Wait>(self, rt: &R, caller: &mut Caller) -> Result<i64, MrapiStatus> {
        // The gate, which the first caller makes. One at a time passes it.
        let gate = match caller.sem_create(rt, 9, 1) {
            Err(MrapiStatus::ErrSemExists) => caller.sem_get(rt, 9)?,
            made => made?,
        };
        caller.sem_lock(rt, gate, Timeout::Infinite)?;
        let shared = shared(rt, caller)?;
        caller.sem_unlock(rt, gate)?;
        caller.shmem_attach(rt, shared.1)?;
        let mut sum = 0;
        for number in 1..=self.last {
            sum = add(rt, caller, shared, number)?;
        }
        caller.sem_create(rt, self.id, 1)?;
        Ok(sum)
    }
}

/// The pure kinds, and the number of the worker that has them.
#[derive(Drop)]
struct Numbered(u32);

impl ActionSet for Numbered {
    fn run<R: Wait>(&mut self, rt: &R, kind: Kind, args: Args) -> Finished {
        StandardActions.run(rt, kind, args)
    }
}

/// Gives each worker a set with its number.
#[derive(Drop)]
struct Numbering;

impl ActionSource for Numbering {
    type Set = Numbered;

    fn for_worker(&mut self, worker: u32) -> Numbered {
        Numbered(worker)
    }
}

// What came of a node of one worker and a further caller whose threads are as these say.
fn refused<R: Threads + Wait + Sync>(
    rt: &R,
    alloc: Global,
    threads: &mut FewThreads,
) -> &'static str {
    let Ok(others) = vec![in alloc; Adding { last: 1, id: 11 }] else {
        return "out of memory";
    };
    let main = Adding { last: 2, id: 10 };
    let settings = NodeAttr::new();
    let done = with_callers_beside(rt, alloc, settings, &mut Numbering, threads, main, others);
    match done {
        Ok(_) => "both have called",
        Err(NodeFailure::NoThread(_)) => "a thread was refused",
        Err(NodeFailure::Failed(_)) => "the node failed",
    }
}

fn main(rt: HostRuntime) -> io::Result<()> {
    let others = vec![in rt.alloc(); Adding { last: 1, id: 11 }]?;
    let main = Adding { last: 200, id: 10 };
    let mut settings = NodeAttr::new();
    let _ = settings.set(NodeAttr::WORKERS, 3);
    // The thread of the worker, that of the further caller, and none.
    for number in 1..=3 {
        let came = refused(&rt, rt.alloc(), &mut FewThreads::new(number));
        println!(rt; "thread {number} is refused: {came}")?;
    }
    let mut acts = Numbering;
    match with_callers(&rt, rt.alloc(), settings, &mut acts, main, others) {
        Ok(done) => {
            for set in &done.sets {
                println!(rt; "the set of worker {}", set.0)?;
            }
            match (done.told, done.others.into_iter().next()) {
                // Whoever wrote last wrote the larger sum.
                (Ok(a), Some(Ok(b))) => println!(rt; "the segment held {}", a.max(b)),
                _ => println!(rt; "a call was refused"),
            }
        }
        Err(failure) => println!(rt; "{failure}"),
    }
}
