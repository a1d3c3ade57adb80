//! What C is told of a reply.

ghost use Rattle.std.specs.Prelude.{◌≡◌, length};
ghost use Rattle.mtapi_c.specs.Replies.{status_of_reply, end_status, handle_in, reply_number, asked_in, member_in, end_numbers, numbers_in, picked_in};
ghost use Rattle.mtapi_c.specs.Answers.{written};

use crate::kinds::number_of_kind;
use crate::picked::PickedTask;
use mtapi_values::{MtapiStatus, TaskEnd};
use node_core::Reply;

// Not yet.
const PENDING: u32 = 100;
// No task to run.
const IDLE: u32 = 101;
// No task any more.
const STOP: u32 = 102;
// Statuses of MRAPI come behind this.
const MRAPI: u32 = 200;

// The status of an end.
fn end_status(end: &TaskEnd) -> u32
    ensures { result ≡ end_status end.now }
{
    match end {
        TaskEnd::Completed(_) => 0,
        TaskEnd::Cancelled => MtapiStatus::ErrTaskCancelled.number(),
        TaskEnd::Failed(status) => status.number(),
    }
}

/// The status of a reply: 0 where the call was done.
pub fn status_of(reply: &Reply) -> u32
    ensures { result ≡ status_of_reply reply.now }
{
    match reply {
        Reply::Ended(end) | Reply::Given(_, end) => end_status(end),
        Reply::Mtapi(status) => status.number(),
        Reply::Mrapi(status) => MRAPI + status.number(),
        Reply::Pending => PENDING,
        Reply::Idle => IDLE,
        Reply::Stop => STOP,
        _ => 0,
    }
}

/// The handle in a reply, 0 where there is none.
pub fn handle_in(reply: &Reply) -> u64
    ensures { result ≡ handle_in reply.now }
{
    match reply {
        Reply::Handle(handle) => *handle,
        _ => 0,
    }
}

/// The number in a reply, 0 where there is none.
pub fn number_in(reply: &Reply) -> i64
    ensures { result ≡ reply_number reply.now }
{
    match reply {
        Reply::Number(number) => *number,
        _ => 0,
    }
}

/// The yes or no in a reply, no where there is none.
pub fn asked_in(reply: &Reply) -> bool
    ensures { result ≡ asked_in reply.now }
{
    match reply {
        Reply::Asked(flag) => *flag,
        _ => false,
    }
}

/// The member of a group in a reply, 0 where there is none.
pub fn member_in(reply: &Reply) -> u64
    ensures { result ≡ member_in reply.now }
{
    match reply {
        Reply::Given(task, _) => task.0,
        _ => 0,
    }
}

/// The task that a worker took, all 0 where it took none.
pub fn picked_in(reply: &Reply) -> PickedTask
    ensures { result ≡ picked_in reply.now }
{
    match reply {
        Reply::Picked {
            task,
            action,
            kind,
            args,
        } => PickedTask {
            task: task.0,
            action: action.0,
            count: args.as_slice().len(),
            kind: number_of_kind(*kind),
        },
        _ => PickedTask {
            task: 0,
            action: 0,
            count: 0,
            kind: 0,
        },
    }
}

// Writes numbers to the head of memory, as many as there is room for, and says how many there are.
fn write(numbers: &[i64], memory: &mut [i64]) -> usize
    ensures written { memory.new ≡ written numbers.now memory.old }
    ensures count { result ≡ length numbers.now }
{
    let count = numbers.len().min(memory.len());
    memory[..count].copy_from_slice(&numbers[..count]);
    numbers.len()
}

// The same for the results of an end.
fn write_end(end: &TaskEnd, memory: &mut [i64]) -> usize
    ensures written { memory.new ≡ written (end_numbers end.now) memory.old }
    ensures count { result ≡ length (end_numbers end.now) }
{
    match end {
        TaskEnd::Completed(numbers) => write(numbers.as_slice(), memory),
        _ => 0,
    }
}

/// The same for the numbers in a reply.
pub fn write_numbers(reply: &Reply, memory: &mut [i64]) -> usize
    ensures written { memory.new ≡ written (numbers_in reply.now) memory.old }
    ensures count { result ≡ length (numbers_in reply.now) }
{
    match reply {
        Reply::Ended(end) | Reply::Given(_, end) => write_end(end, memory),
        Reply::Picked { args, .. } => write(args.as_slice(), memory),
        _ => 0,
    }
}
