//! A node with two workers, two callers, and a monitor that counts their tasks at a board.

ghost use Rattle.std.specs.Prelude.{◌≡◌, IfOk, replicate};
ghost use Rattle.turn_cell.specs.Seats.{fresh_seats};
ghost use Rattle.peek_board.specs.Seats.{fresh_board_seat};

use action_fn::{ActionSource, StandardActions};
use mtapi_values::{Args, Kind, Mask, MtapiStatus, NodeAttr, TaskHandle};
use node_core::{Journaled, Node, Op, Reply};
use peek_board::{Board, BoardSeat, EndClass, Marks, Peek, Peeker};
use run_beside::Job;
use std::alloc::{AllocError, Global};
use std::sync::{OnceLock, Wait};
use std::test::Fail;
use std::thread::{Threads, join};
use turn_cell::{TurnCell, TurnSeat};
use turn_looks::Pause;
use workload_runners::WorkerJob;

/// How many tasks there are.
const TASKS: u32 = 200;

/// How often the monitor peeks at a task before it gives up.
const PATIENCE: u32 = 2_000_000;

// The seats of the node and of the board, by who holds them.
#[derive(Drop)]
struct Crew<'a> {
    workers: (
        WorkerJob<'a, StandardActions>,
        WorkerJob<'a, StandardActions>,
    ),
    callers: (Peeker<'a>, Peeker<'a>),
    monitor: Peeker<'a>,
}

fn settings() -> Result<NodeAttr, MtapiStatus>
    ensures { IfOk result (λ a. a.workers ≡ 2) }
{
    let mut attr = NodeAttr::new();
    attr.set(NodeAttr::WORKERS, 2)?;
    attr.set(NodeAttr::TASKS, 2)?;
    Ok(attr)
}

fn deal<'a>(
    cell: &'a TurnCell<Journaled>,
    seats: Vec<TurnSeat<Journaled>>,
    board: &'a Board,
    marks: Vec<BoardSeat>,
) -> Crew<'a>
    requires workers { cell.now.terms.node.settings.workers ≡ 2 }
    requires seats { seats.items ≡ fresh_seats cell.now.terms cell.now.id 0 5 }
    requires marks { marks.items ≡ replicate 3 (fresh_board_seat board.now.id) }
{
    let mut seats = seats;
    let mut marks = marks;
    let Some(e) = seats.pop() else { unreachable!() };
    let Some(d) = seats.pop() else { unreachable!() };
    let Some(c) = seats.pop() else { unreachable!() };
    let Some(b) = seats.pop() else { unreachable!() };
    let Some(a) = seats.pop() else { unreachable!() };
    let Some(z) = marks.pop() else { unreachable!() };
    let Some(y) = marks.pop() else { unreachable!() };
    let Some(x) = marks.pop() else { unreachable!() };
    let mut acts = StandardActions;
    Crew {
        workers: (
            WorkerJob::new(cell, a, acts.for_worker(0)),
            WorkerJob::new(cell, b, acts.for_worker(1)),
        ),
        callers: (
            Peeker::new(board, cell, Marks::new(c, x)),
            Peeker::new(board, cell, Marks::new(d, y)),
        ),
        monitor: Peeker::new(board, cell, Marks::new(e, z)),
    }
}

// Looks until the task has ended, and posts how.
fn post_end<R: Wait>(rt: &R, caller: &mut Peeker, task: TaskHandle) {
    let mut pause = Pause::within_limit();
    for _ in rt.forever() {
        match caller.call(rt, Op::TaskLook { task, last: false }) {
            Ok(Reply::Ended(end)) => {
                if caller.is_on_board(task) {
                    caller.post(task, EndClass::of(&end));
                }
                return;
            }
            Ok(Reply::Pending) => pause.wait(rt),
            _ => return,
        }
    }
    unreachable!()
}

// A task that divides a number by its last digit, and so fails where that is 0.
fn division(number: u32) -> Op {
    let mut args = Args::new();
    let _ = args.push(i64::from(number));
    let _ = args.push(i64::from(number % 10));
    Op::TaskStart {
        job: 1,
        args,
        priority: 0,
        cores: Mask::init(true),
        detached: false,
        group: None,
    }
}

// Runs every second task from the first on, one after another, and tells the monitor of each.
fn call<R: Wait>(rt: &R, caller: &mut Peeker, started: &[OnceLock<TaskHandle>], first: u32) {
    for number in 0..TASKS {
        if number % 2 != first {
            continue;
        }
        if let Ok(Reply::Handle(handle)) = caller.call(rt, division(number)) {
            let task = TaskHandle(handle);
            if let Some(place) = started.get(number as usize) {
                let _ = place.try_set(task);
            }
            post_end(rt, caller, task);
        }
    }
}

// What a peek shows of a task once that is an end.
fn end_shown<R: Wait>(rt: &R, monitor: &mut Peeker, started: &OnceLock<TaskHandle>) -> Peek {
    let mut pause = Pause::within_limit();
    for _ in 0..PATIENCE {
        if let Some(task) = started.get() {
            let shown = monitor.peek(*task);
            if shown != Peek::NotYet {
                return shown;
            }
        }
        pause.wait(rt);
    }
    Peek::NotYet
}

// How many tasks are shown to have ended as they should, or are gone.
fn count<R: Wait>(rt: &R, monitor: &mut Peeker, started: &[OnceLock<TaskHandle>]) -> u32 {
    let mut counted: u32 = 0;
    for (number, task) in started.iter().enumerate() {
        let end = if number % 10 == 0 {
            EndClass::Error
        } else {
            EndClass::Completed
        };
        let shown = end_shown(rt, monitor, task);
        if shown == Peek::Gone || shown == Peek::Ended(end) {
            counted = counted.saturating_add(1);
        }
    }
    counted
}

// The two callers, each in a thread of its own, and then the end of the node.
fn call_both<R: Threads + Wait + Sync>(
    rt: &R,
    callers: (Peeker, Peeker),
    started: &[OnceLock<TaskHandle>],
) {
    let (mut main, mut other) = callers;
    let _ = main.call(rt, Op::Initialize);
    let action = Op::ActionCreate {
        job: 1,
        kind: Kind::Div,
        cores: Mask::init(true),
    };
    let _ = main.call(rt, action);
    let _ = main.call(rt, Op::Release);
    let (main, _other) = join(
        rt,
        move || -> Peeker {
            call(rt, &mut main, started, 0);
            main
        },
        move || -> Peeker {
            call(rt, &mut other, started, 1);
            other
        },
    );
    let mut main = main;
    let _ = main.call(rt, Op::Close);
}

// What the monitor counts beside the workers and the callers.
fn run<R: Threads + Wait + Sync>(rt: &R, crew: Crew, started: &[OnceLock<TaskHandle>]) -> u32 {
    let Crew {
        workers: (first, second),
        callers,
        mut monitor,
    } = crew;
    let (_first, (_second, (counted, _callers))) = join(
        rt,
        move || { first.go(rt) },
        move || {
            join(
                rt,
                move || { second.go(rt) },
                move || {
                    join(
                        rt,
                        move || -> u32 { count(rt, &mut monitor, started) },
                        move || -> () { call_both(rt, callers, started) },
                    )
                },
            )
        },
    );
    counted
}

// A place for the handle of each task.
fn places(alloc: Global) -> Result<Vec<OnceLock<TaskHandle>>, AllocError> {
    let mut places = Vec::with_capacity(alloc, TASKS as usize)?;
    for _ in 0..TASKS {
        places.push(OnceLock::new())?;
    }
    Ok(places)
}

#[test]
fn a_monitor_counts_200_tasks(rt: HostRuntime) -> Result<(), Fail> {
    let alloc = rt.alloc();
    let Ok(settings) = settings() else {
        return Err(Fail::from("the settings were refused"));
    };
    let node = Node::init(alloc, settings, 3)?;
    let (cell, seats) = TurnCell::new(alloc, Journaled::without(node))?;
    let (board, marks) = Board::new(alloc, 2, 3)?;
    let started = places(alloc)?;
    let crew = deal(&cell, seats, &board, marks);
    assert_eq!(rt; run(&rt, crew, started.as_slice()), 200);
    Ok(())
}
