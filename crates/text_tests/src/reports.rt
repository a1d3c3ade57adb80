//! The line of hand-made totals.
ghost use Rattle.std.specs.Prelude.{◌≤◌, length};

use mtapi_machine::{Entry, Op, Reply};
use mtapi_values::{Args, Kind, Mask, MtapiStatus, TaskEnd, Timeout};
use node_journals::{ShortEntry, ShortList};
use run_report::{ShortEnd, Totals, line_of, no_totals, with_tasks};
use std::alloc::Global;
use std::collections::HashMap;
use std::test::Fail;
use workload_file::{Deed, Name, Statement};

const ALL_CORES: Mask = Mask(u64::MAX);

fn numbers(values: &[i64]) -> Args {
    let mut args = Args::new();
    for value in values {
        args.push(*value);
    }
    args
}

// A statement that binds no name.
fn statement(line: u64, deed: Deed) -> Statement {
    Statement {
        line,
        name: Name::new(b""),
        deed,
    }
}

fn action() -> Deed {
    Deed::Action {
        job: 1,
        kind: Kind::Add,
        cores: ALL_CORES,
    }
}

fn start() -> Deed {
    Deed::Start {
        job: 1,
        args: Args::new(),
        priority: 0,
        cores: ALL_CORES,
        detached: false,
        group: None,
    }
}

fn enqueue() -> Deed {
    Deed::Enqueue {
        queue: 0,
        args: Args::new(),
        cores: ALL_CORES,
        detached: false,
        group: None,
    }
}

fn wait_all() -> Deed {
    Deed::WaitAll {
        place: 0,
        timeout: Timeout::Infinite,
    }
}

fn completed(values: &[i64]) -> TaskEnd {
    TaskEnd::Completed(numbers(values))
}

fn counted(ended: &HashMap<u64, ShortEnd>, statements: &[Statement], told: &[&ShortEntry]) -> Totals
    requires { length statements.now ≤ 20000 }
{
    with_tasks(no_totals(), ended, statements, told)
}

/// The line of six statements of tasks and two others, of which the first task completed with these numbers.
fn line(alloc: Global, values: &[i64]) -> Result<Vec<u8>, Fail> {
    let mut ended = HashMap::new(alloc);
    for (task, end) in [
        (1, completed(values)),
        (2, completed(&[])),
        (3, TaskEnd::Cancelled),
        (4, TaskEnd::Failed(MtapiStatus::ErrActionFailed)),
    ] {
        ended.insert(task, ShortEnd::new(alloc, end)?)?;
    }
    let statements = vec![in alloc;
        statement(1, action()),
        statement(2, start()),
        statement(3, enqueue()),
        statement(4, start()),
        statement(5, enqueue()),
        statement(6, start()),
        statement(7, enqueue()),
        statement(8, wait_all()),
    ]?;
    let mut kept = ShortList::new(alloc);
    for reply in [
        Reply::Handle(3),
        Reply::Handle(1),
        Reply::Handle(2),
        Reply::Handle(3),
        Reply::Handle(4),
        Reply::Mtapi(MtapiStatus::ErrTaskLimit),
        Reply::Mtapi(MtapiStatus::ErrQueueLimit),
        Reply::Mtapi(MtapiStatus::ErrActionFailed),
    ] {
        kept.push(
            Entry {
                who: 1,
                op: Op::Close,
                reply,
            },
            0,
        )?;
    }
    let told: Vec<&ShortEntry> = kept.shorts().iter().collect(alloc)?;
    let totals = counted(&ended, &statements, &told);
    Ok(line_of(alloc, &totals)?)
}

#[test]
fn a_line_counts_each_task_once(rt: HostRuntime) -> Result<(), Fail> {
    let front = b"tasks 6 completed 2 cancelled 1 error 1 refused 2 sum ".as_slice();
    for (values, sum) in [
        ([3, 4], b"7\n".as_slice()),
        ([-3, 3], b"0\n".as_slice()),
        ([i64::MAX, i64::MAX], b"18446744073709551614\n".as_slice()),
        ([i64::MIN, i64::MIN], b"-18446744073709551616\n".as_slice()),
    ] {
        let made = line(rt.alloc(), &values)?;
        let (before, behind) = made.split_at(front.len().min(made.len()));
        assert!(rt; before == front);
        assert!(rt; behind == sum);
    }
    Ok(())
}
