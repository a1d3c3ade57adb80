//! Whether a task runs on a worker, with the kind and the arguments of what was finished.

ghost use Rattle.std.specs.Prelude.{◌≡◌, ◌&&◌};
ghost use Rattle.std.specs.Ordering.{int_eq};
ghost use Rattle.std.specs.Cmp.Lexicographic.{pointwise};
ghost use Rattle.mtapi_objects.specs.Tasks.{kind_number, runs_as};
ghost use Rattle.mtapi_values.specs.Seats.{is_seat};
ghost use Rattle.action_fn.specs.Answers.{IsAnswered};

use action_fn::Finished;
use mtapi_values::Kind;
use task_core::{TaskRecord, TaskState};

fn kind_number(kind: Kind) -> u32
    ensures { result ≡ kind_number kind }
{
    match kind {
        Kind::Add => 1,
        Kind::Mul => 2,
        Kind::Max => 3,
        Kind::Div => 4,
        Kind::Gcd => 5,
        Kind::Echo => 6,
        Kind::Triangle => 7,
        Kind::Fail => 8,
        Kind::Watch => 9,
        Kind::Tally => 10,
    }
}

// Whether there is a seat, and it is this one.
pub(crate) fn is_seat(who: u32, seat: Option<u32>) -> bool
    ensures { is_seat who seat ≡ result }
{
    seat == Some(who)
}

// Whether the task runs on the worker, with this kind.
pub(crate) fn runs_as(task: &TaskRecord, worker: u32, kind: Kind) -> bool
    ensures { result ≡ runs_as worker kind task.now }
{
    match task.state() {
        TaskState::Running {
            worker: on,
            kind: with,
        } => on == worker && kind_number(with) == kind_number(kind),
        TaskState::Scheduled | TaskState::Ended => false,
    }
}

// What was finished has the answer of its kind to its arguments. It does nothing.
pub(crate) fn is_answered(done: &Finished)
    ensures { IsAnswered done.now }
{
    let _ = done.kind();
    let _ = done.args();
}

// Whether the task runs on the worker, with the kind and the arguments of what was finished.
pub(crate) fn runs_so(task: &TaskRecord, worker: u32, done: &Finished) -> bool
    ensures { result ≡ (runs_as worker done.now.kind task.now && pointwise int_eq task.now.args done.now.args) }
{
    runs_as(task, worker, done.kind()) && task.args().as_slice() == done.args().as_slice()
}
