//! The ops that C names by numbers.

ghost use Rattle.std.specs.Prelude.{◌≡◌, ◌≤◌, ◌<◌, ◌++◌, ◌∷◌, [], true, length, nat_le, Some, None, if◌then◌else◌};
ghost use Rattle.action_fn.specs.Answers.{is_pure, answer_of};
ghost use Rattle.mtapi_machine.specs.declared.ops.Op.TheVariants as op;
ghost use Rattle.mtapi_c.specs.Kinds.{kind_with_number};
ghost use Rattle.mtapi_c.specs.Asks.{group_by_handle, op_with_numbers, action_op, finish_op};

use crate::kinds::kind_with_number;
use action_fn::{Finished, answer_of};
use mtapi_values::{Args, GroupHandle, Kind, Mask, QueueHandle, TaskHandle};
use node_core::Op;

// The most numbers of a task.
const MOST: usize = 16;

// A group by its handle, 0 for none.
fn group_by_handle(group: u64) -> Option<GroupHandle>
    ensures { result ≡ group_by_handle group }
{
    match group {
        0 => None,
        handle => Some(GroupHandle(handle)),
    }
}

// Adds a number where there is room.
fn add(args: &mut Args, number: i64)
    requires { length args.old < 16 }
    ensures { args.new ≡ args.old ++ number ∷ [] }
{
    let _ = args.push(number);
}

// At most 16 numbers as arguments.
fn args_of(numbers: &[i64]) -> Args
    requires { length numbers.now ≤ 16 }
    ensures { result ≡ numbers.now }
{
    let mut args = Args::new();
    for number in numbers {
        add(&mut args, *number);
    }
    args
}

fn few(numbers: &[i64]) -> Option<Args>
    ensures { result ≡ (if nat_le (length numbers.now) 16 then Some numbers.now else None) }
{
    if numbers.len() <= MOST {
        Some(args_of(numbers))
    } else {
        None
    }
}

/// An action of the kind with this number.
pub fn action_op(job: u32, kind: u32, cores: u64) -> Option<Op>
    ensures { result ≡ action_op job (kind_with_number kind) cores }
{
    match kind_with_number(kind) {
        Some(kind) => Some(Op::ActionCreate {
            job,
            kind,
            cores: Mask(cores),
        }),
        None => None,
    }
}

/// The start of a task with these numbers.
pub fn start_op(
    job: u32,
    numbers: &[i64],
    priority: u32,
    cores: u64,
    detached: bool,
    group: u64,
) -> Option<Op>
    ensures { result ≡ op_with_numbers numbers.now (λ args. op.TaskStart job args priority (record { 0 = cores }) detached (group_by_handle group)) }
{
    match few(numbers) {
        Some(args) => Some(Op::TaskStart {
            job,
            args,
            priority,
            cores: Mask(cores),
            detached,
            group: group_by_handle(group),
        }),
        None => None,
    }
}

/// The start of a task of a queue with these numbers.
pub fn enqueue_op(queue: u64, numbers: &[i64], cores: u64, detached: bool, group: u64) -> Option<Op>
    ensures { result ≡ op_with_numbers numbers.now (λ args. op.TaskEnqueue (record { 0 = queue }) args (record { 0 = cores }) detached (group_by_handle group)) }
{
    match few(numbers) {
        Some(args) => Some(Op::TaskEnqueue {
            queue: QueueHandle(queue),
            args,
            cores: Mask(cores),
            detached,
            group: group_by_handle(group),
        }),
        None => None,
    }
}

fn is_pure(kind: Kind) -> bool
    ensures { result ≡ is_pure kind }
{
    !matches!(kind, Kind::Watch | Kind::Tally)
}

// The end of a task by what this pure kind answers.
fn finish_of(task: u64, kind: Kind, numbers: &[i64]) -> Option<Op>
    requires { is_pure kind ≡ true }
    ensures { result ≡ op_with_numbers numbers.now (λ args. op.Finish (record { 0 = task }) (record { kind = kind; args = args; end = answer_of kind args })) }
{
    match few(numbers) {
        Some(args) => {
            let end = answer_of(kind, &args);
            Some(Op::Finish {
                task: TaskHandle(task),
                done: Finished::new(kind, args, end),
            })
        }
        None => None,
    }
}

/// The end of a task by what the kind with this number answers, where it is pure.
pub fn finish_op(task: u64, kind: u32, numbers: &[i64]) -> Option<Op>
    ensures { result ≡ finish_op task (kind_with_number kind) numbers.now }
{
    match kind_with_number(kind) {
        Some(kind) => {
            if is_pure(kind) {
                finish_of(task, kind, numbers)
            } else {
                None
            }
        }
        None => None,
    }
}
