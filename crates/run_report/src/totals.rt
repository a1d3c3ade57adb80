//! The tasks of a run, counted by how they ended.
ghost use Rattle.std.specs.Prelude.{◌≡◌, ◌≤◌, ◌<◌, ◌+◌, ◌*◌, ◌+ℤ◌, ◌≤ℤ◌, pos, neg_ℤ, Some, length, if◌then◌else◌, nat_eq};
ghost use Rattle.std.specs.HashMap.{get};
ghost use Rattle.run_report.specs.Replies.{nows};
ghost use Rattle.run_report.specs.Calls.{shown_of, is_task};
ghost use Rattle.run_report.specs.Summary.{no_totals, with_summand, with_numbers, with_end, with_fate, with_task_total, with_tasks, IsNear, AreTotals};

use crate::deciding::reply_of;
use crate::short_ends::ShortEnd;
use crate::sorts::{Shown, shown_of};
use mtapi_machine::Reply;
use mtapi_values::TaskEnd;
use node_journals::ShortEntry;
use std::collections::HashMap;
use workload_file::Statement;

/// The tasks of a run, counted by how they ended, and the sum of all numbers of those that completed.
#[derive(Drop)]
pub struct Totals {
    pub tasks: u64,
    pub completed: u64,
    pub cancelled: u64,
    /// Those that ended with an error.
    pub failed: u64,
    /// Those whose statement was refused.
    pub refused: u64,
    pub sum: i128,
}

/// With a number added to the sum.
fn with_number(totals: Totals, number: i64) -> Totals
    requires low { neg_ℤ (pos 1267650600228229401496703205376) ≤ℤ totals.sum }
    requires high { totals.sum ≤ℤ pos 1267650600228229401496703205376 }
    ensures value { result ≡ with_summand totals number }
    ensures near { IsNear 1 totals.sum result.sum }
{
    Totals {
        sum: totals.sum + i128::from(number),
        ..totals
    }
}

/// With numbers added to the sum, 16 at most.
fn with_numbers(totals: Totals, numbers: &[i64]) -> Totals
    requires low { neg_ℤ (pos 633825300114114700748351602688) ≤ℤ totals.sum }
    requires high { totals.sum ≤ℤ pos 633825300114114700748351602688 }
    requires few { length numbers.now ≤ 16 }
    ensures value { result ≡ with_numbers totals numbers.now }
    ensures kept { result ≡ record totals { sum = result.sum } }
    ensures near { IsNear 16 totals.sum result.sum }
{
    let mut totals = totals;
    for number in numbers {
        totals = with_number(totals, *number);
    }
    totals
}

/// With a task that ended so.
fn with_end(totals: Totals, end: &TaskEnd) -> Totals
    requires totals { AreTotals totals.tasks totals }
    requires few { totals.tasks < 20000 }
    ensures value { result ≡ with_end totals (Some end.now) }
    ensures totals { AreTotals (totals.tasks + 1) result }
    ensures tasks { result.tasks ≡ totals.tasks }
{
    match end {
        TaskEnd::Completed(numbers) => {
            let completed = totals.completed + 1;
            let summed = with_numbers(totals, numbers.as_slice());
            Totals {
                completed,
                ..summed
            }
        }
        TaskEnd::Cancelled => Totals {
            cancelled: totals.cancelled + 1,
            ..totals
        },
        TaskEnd::Failed(_) => Totals {
            failed: totals.failed + 1,
            ..totals
        },
    }
}

/// With what became of a task, by the reply to its statement.
fn with_fate(totals: Totals, ended: &HashMap<u64, ShortEnd>, reply: &Reply) -> Totals
    requires totals { AreTotals totals.tasks totals }
    requires few { totals.tasks < 20000 }
    ensures value { result ≡ with_fate (get nat_eq ended.now) totals reply.now }
    ensures totals { AreTotals (totals.tasks + 1) result }
    ensures tasks { result.tasks ≡ totals.tasks }
{
    match reply {
        Reply::Handle(handle) => match ended.get(handle) {
            Some(end) => with_end(totals, &end.full()),
            _ => totals,
        },
        Reply::Mtapi(_) => Totals {
            refused: totals.refused + 1,
            ..totals
        },
        _ => totals,
    }
}

/// With a task.
fn with_task(totals: Totals, ended: &HashMap<u64, ShortEnd>, reply: &Reply) -> Totals
    requires totals { AreTotals totals.tasks totals }
    requires few { totals.tasks < 20000 }
    ensures value { result ≡ with_task_total (get nat_eq ended.now) totals reply.now }
    ensures totals { AreTotals result.tasks result }
    ensures tasks { result.tasks ≡ totals.tasks + 1 }
{
    let told = with_fate(totals, ended, reply);
    Totals {
        tasks: told.tasks + 1,
        ..told
    }
}

/// With a statement, where it is of a task.
fn with_statement(
    totals: Totals,
    ended: &HashMap<u64, ShortEnd>,
    statement: &Statement,
    reply: &Reply,
) -> Totals
    requires totals { AreTotals totals.tasks totals }
    requires few { totals.tasks < 20000 }
    ensures value { result ≡ (if is_task (shown_of statement.now.deed) then with_task_total (get nat_eq ended.now) totals reply.now else totals) }
    ensures totals { AreTotals result.tasks result }
    ensures tasks { result.tasks ≤ totals.tasks + 1 }
{
    match shown_of(&statement.deed) {
        Shown::Task => with_task(totals, ended, reply),
        _ => totals,
    }
}

/// With the tasks among these statements, one reply for each.
#[tactic(auto, unfolding(crate::specs::Summary::with_tasks))]
pub fn with_tasks(
    totals: Totals,
    ended: &HashMap<u64, ShortEnd>,
    statements: &[Statement],
    replies: &[&ShortEntry],
) -> Totals
    requires totals { AreTotals totals.tasks totals }
    requires few { totals.tasks + length statements.now ≤ 20000 }
    ensures value { result ≡ with_tasks (get nat_eq ended.now) totals statements.now (nows replies.now) }
    ensures totals { AreTotals result.tasks result }
    ensures tasks { result.tasks ≤ totals.tasks + length statements.now }
{
    let mut totals = totals;
    let mut statements = statements;
    let mut replies = replies;
    'statements: while let [statement, later @ ..] = statements {
        let [short, fewer @ ..] = replies else {
            return totals;
        };
        totals = with_statement(totals, ended, statement, &reply_of(short));
        statements = later;
        replies = fewer;
    }
    totals
}

/// Before the first task.
pub fn no_totals() -> Totals
    ensures value { result ≡ no_totals }
    ensures totals { AreTotals 0 result }
{
    Totals {
        tasks: 0,
        completed: 0,
        cancelled: 0,
        failed: 0,
        refused: 0,
        sum: 0,
    }
}
