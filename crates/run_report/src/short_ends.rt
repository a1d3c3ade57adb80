//! Ends of tasks that take little room.
ghost use Rattle.std.specs.Prelude.{◌≡◌, ◌∷◌, [], IfOk, IfSome};
ghost use Rattle.mtapi_values.specs.declared.ends.TaskEnd.TheVariants.{Completed};
ghost use Rattle.mtapi_machine.specs.WorkRows.{task_end};
ghost use Rattle.run_report.specs.ShortEnds.{end_in_full};

use action_fn::ActEnd;
use mtapi_values::{Args, MtapiStatus, TaskEnd};
use std::alloc::{AllocError, Global};
use std::marker::Model;

// Most tasks answer one number. A longer answer stands in a place of its own, so that a table of ends has small entries.
#[derive(Drop)]
enum Short {
    Number(i64),
    Cancelled,
    Failed(MtapiStatus),
    Full(Box<TaskEnd>),
}

/// How a task ended. Contracts see it as that end.
#[derive(Drop)]
pub struct ShortEnd {
    short: Short,
}

impl Model for ShortEnd {
    ghost use Rattle.mtapi_values.specs.declared.ends.TaskEnd.{TaskEnd};
    ghost use Rattle.run_report.specs.ShortEnds.{end_in_full};

    ghost Value = { TaskEnd };

    ghost view = { λ e. end_in_full e.short };
}

// The end of a task that answered one number.
fn one_number(number: i64) -> TaskEnd
    ensures { result ≡ Completed (number ∷ []) }
{
    let mut numbers = Args::new();
    numbers.push(number);
    TaskEnd::Completed(numbers)
}

// The number, where there is one alone.
fn only_number(numbers: &Args) -> Option<i64>
    ensures { IfSome result (λ number. numbers.now ≡ number ∷ []) }
{
    match numbers.as_slice() {
        [number] => Some(*number),
        _ => None,
    }
}

// The end of a task that answered these numbers.
fn short_answer(alloc: Global, numbers: Args) -> Result<Short, AllocError>
    ensures { IfOk result (λ short. end_in_full short ≡ Completed numbers) }
{
    match only_number(&numbers) {
        Some(number) => Ok(Short::Number(number)),
        None => Ok(Short::Full(Box::new(alloc, TaskEnd::Completed(numbers))?)),
    }
}

fn short_of(alloc: Global, end: TaskEnd) -> Result<Short, AllocError>
    ensures { IfOk result (λ short. end_in_full short ≡ end) }
{
    match end {
        TaskEnd::Cancelled => Ok(Short::Cancelled),
        TaskEnd::Failed(status) => Ok(Short::Failed(status)),
        TaskEnd::Completed(numbers) => short_answer(alloc, numbers),
    }
}

impl ShortEnd {
    /// The same end in short.
    ///
    /// # Errors
    ///
    /// - `AllocError`: memory ran out. Only an answer of none or of several numbers takes any.
    pub fn new(alloc: Global, end: TaskEnd) -> Result<ShortEnd, AllocError>
        ensures { IfOk result (λ short. short ≡ end) }
    {
        let short = short_of(alloc, end)?;
        Ok(ShortEnd { short })
    }

    /// In short how a task ends whose action answered so.
    ///
    /// # Errors
    ///
    /// - `AllocError`: as for `new`.
    pub fn answered(alloc: Global, end: ActEnd) -> Result<ShortEnd, AllocError>
        ensures { IfOk result (λ short. short ≡ task_end end) }
    {
        let short = match end {
            ActEnd::Done(numbers) => short_answer(alloc, numbers)?,
            ActEnd::Fails(status) => Short::Failed(status),
        };
        Ok(ShortEnd { short })
    }

    /// The end of a task that answered one number.
    pub fn number(number: i64) -> ShortEnd
        ensures { result ≡ Completed (number ∷ []) }
    {
        ShortEnd {
            short: Short::Number(number),
        }
    }

    /// The end in full. It takes no memory.
    pub fn full(&self) -> TaskEnd
        ensures { result ≡ self.now }
    {
        match &self.short {
            Short::Number(number) => one_number(*number),
            Short::Cancelled => TaskEnd::Cancelled,
            Short::Failed(status) => TaskEnd::Failed(*status),
            Short::Full(end) => end.again(),
        }
    }
}
