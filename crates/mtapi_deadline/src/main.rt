//! A task that doesn't begin is given 50 milliseconds, and is cancelled then: its queue is disabled, and keeps it.
#![tactic(auto)]

ghost use Rattle.workload_runners.specs.Turns.{SameNodeSeat};
ghost use Rattle.node_with_workers.specs.Clients.{StillBegins};

use action_fn::StandardActions;
use mtapi_values::{
    ActionAttr, Args, Kind, MtapiStatus, NodeAttr, QueueAttr, QueueHandle, TaskAttr, TaskEnd,
};
use node_with_workers::{Client, Failure, with_workers};
use sched_workers::{Caller, Deadline};
use std::alloc::Global;
use std::io;
use std::rt::Clock;
use std::sync::Wait;
use std::thread::Threads;

// The job of the action.
const JOB: u32 = 1;

/// Puts a task into a queue that is disabled, and cancels it if it hasn't ended at a moment; it is awaited until another one.
#[derive(Drop)]
struct Patient<'k, K: Clock> {
    patience: Deadline<'k, K>,
    most: Deadline<'k, K>,
}

/// What became of the task: what the first wait for it was told, and the second.
type Waits = (Result<TaskEnd, MtapiStatus>, Result<TaskEnd, MtapiStatus>);

// A queue that is disabled and keeps its tasks.
#[tactic(auto, using(node_with_workers::proofs::Calls::further_calls))]
fn disabled_queue<R: Wait>(rt: &R, caller: &mut Caller) -> Result<QueueHandle, MtapiStatus>
    ensures same { SameNodeSeat caller.old caller.new }
    ensures further { StillBegins caller.old caller.new }
{
    let mut attr = QueueAttr::new();
    attr.set(QueueAttr::RETAIN, 1)?;
    let queue = caller.queue_create(rt, 7, JOB, attr)?;
    caller.queue_disable(rt, queue)?;
    Ok(queue)
}

impl<'k, K: Clock> Client for Patient<'k, K> {
    type Told = Result<Waits, MtapiStatus>;

    ghost promise = { λ _ _ _ _. Unit {0} };

    #[tactic(auto, using(node_with_workers::proofs::Calls::further_calls))]
    fn call<R: Wait>(self, rt: &R, caller: &mut Caller) -> Result<Waits, MtapiStatus> {
        caller.action_create(rt, JOB, Kind::Echo, ActionAttr::new())?;
        let queue = disabled_queue(rt, caller)?;
        let task = caller.task_enqueue(rt, queue, &Args::new(), TaskAttr::new(), None)?;
        let first = caller.task_wait_until(rt, task, &self.patience);
        caller.task_cancel(rt, task)?;
        let second = caller.task_wait_until(rt, task, &self.most);
        Ok((first, second))
    }
}

// The client on a node of its own.
fn waits<R: Threads + Wait + Sync, K: Clock>(
    rt: &R,
    alloc: Global,
    client: Patient<'_, K>,
) -> Result<Result<Waits, MtapiStatus>, Failure> {
    let done = with_workers(rt, alloc, NodeAttr::new(), &mut StandardActions, client)?;
    Ok(done.told)
}

fn main(rt: HostRuntime) -> io::Result<()> {
    let client = Patient {
        patience: Deadline::after(&rt, 50)?,
        most: Deadline::after(&rt, 60_000)?,
    };
    match waits(&rt, rt.alloc(), client) {
        Ok(Ok((first, second))) => {
            match first {
                Err(status) => println!(rt; "after 50 ms: {status}")?,
                Ok(_) => println!(rt; "it ended by itself")?,
            }
            match second {
                Ok(TaskEnd::Cancelled) => println!(rt; "then it was cancelled"),
                Ok(_) => println!(rt; "it ended otherwise"),
                Err(status) => println!(rt; "after a minute: {status}"),
            }
        }
        Ok(Err(status)) => println!(rt; "a call was refused: {status}"),
        Err(failure) => println!(rt; "{failure}"),
    }
}
