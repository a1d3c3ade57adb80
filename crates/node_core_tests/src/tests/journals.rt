//! What a journal keeps: of looks that are made again and again, of a cell that is closed, and of many calls.

use crate::tests::asking::{Called, GROUP, MAIN, QUEUE, SHMEM, TASK};
use history::Object;
use mtapi_machine::{Entry, Op, Reply};
use mtapi_values::{
    Args, GroupHandle, Kind, Layout, Mask, MtapiStatus, NodeAttr, QueueHandle, ShmemHandle,
    TaskEnd, TaskHandle,
};
use node_core::journaled::Journaled;
use node_core::node::Node;
use node_core::run_journals::journal_of;
use node_journals::{ShortEntry, ShortList};
use std::mem::size_of;
use std::test::Fail;
use turn_cell::TurnCell;

// The op of this place: a task is started, which no worker takes, and looked at again and again.
fn started_and_looked_at(place: u32) -> Op {
    match place {
        0 => Op::Initialize,
        1 => Op::ActionCreate {
            job: 1,
            kind: Kind::Add,
            cores: Mask(1),
        },
        2 => Op::TaskStart {
            job: 1,
            args: Args::new(),
            priority: 0,
            cores: Mask(1),
            detached: false,
            group: None,
        },
        _ => Op::TaskLook {
            task: TaskHandle(TASK),
            last: place == 6,
        },
    }
}

// Of four looks the first and the last are kept, and two stand beside the last.
#[test]
fn looks_until_the_last(rt: HostRuntime) -> Result<(), Fail> {
    let mut called = Called::new(rt.alloc())?;
    for place in 0..7 {
        let _ = called.call(MAIN, started_and_looked_at(place));
    }
    let journal = called.into_journal().ok_or("no journal")?;
    assert_eq!(rt; journal.entries.skipped(), [0, 0, 0, 0, 2].as_slice());
    Ok(())
}

// A call that is made often, and its reply.
fn made_often(place: u32) -> (Op, Reply) {
    let task = TaskHandle(TASK);
    let ended = TaskEnd::Failed(MtapiStatus::ErrActionFailed);
    match place {
        0 => (Op::TaskLook { task, last: false }, Reply::Ended(ended)),
        1 => (
            Op::TaskEnqueue {
                queue: QueueHandle(QUEUE),
                args: Args::new(),
                cores: Mask(1),
                detached: false,
                group: None,
            },
            Reply::Handle(TASK),
        ),
        2 => (
            Op::AnyLook {
                group: GroupHandle(GROUP),
                last: false,
            },
            Reply::Given(task, ended),
        ),
        3 => (
            Op::AllLook {
                group: GroupHandle(GROUP),
                last: false,
            },
            Reply::Ok,
        ),
        4 => (Op::TallyRead { task }, Reply::Number(5)),
        _ => (
            Op::ShmemRead {
                shmem: ShmemHandle(SHMEM),
                cell: 3,
            },
            Reply::Number(7),
        ),
    }
}

// None of them takes memory of its own.
#[test]
fn calls_made_often_are_kept_short(rt: HostRuntime) -> Result<(), Fail> {
    assert_eq!(rt; size_of::<ShortEntry>(), 80);
    let mut kept = ShortList::new(rt.alloc());
    for place in 0..6 {
        let (op, reply) = made_often(place);
        kept.push(
            Entry {
                who: MAIN,
                op,
                reply,
            },
            0,
        )?;
    }
    for short in kept.shorts() {
        assert!(rt; !matches!(short, ShortEntry::Full(_)));
    }
    Ok(())
}

/// More entries than a slot has numbers of 16 bits.
const MANY: u32 = 70_000;

// Each call is refused and kept, and its job tells it from the others.
#[test]
fn many_calls_are_kept(rt: HostRuntime) -> Result<(), Fail> {
    let mut called = Called::new(rt.alloc())?;
    for job in 0..MANY {
        assert!(rt; matches!(called.call(MAIN, Op::JobGet { job }), Some(Reply::Mtapi(_))));
    }
    let journal = called.into_journal().ok_or("no journal")?;
    assert_eq!(rt; journal.entries.len(), 70_000);
    let mut next = 0u32;
    let entries = journal.entries.in_full(rt.alloc())?;
    for entry in entries.as_slice() {
        assert!(rt; matches!(entry.op, Op::JobGet { job } if job == next));
        next = next.wrapping_add(1);
    }
    Ok(())
}

#[test]
fn a_closed_cell_gives_its_journal(rt: HostRuntime) -> Result<(), Fail> {
    let node = Node::init(rt.alloc(), NodeAttr::new(), 1)?;
    let object = Journaled::with(rt.alloc(), node);
    let (cell, mut seats) = TurnCell::new(rt.alloc(), object)?;
    let Some(mut main) = seats.pop() else {
        unreachable!()
    };
    let Some(mut worker) = seats.pop() else {
        unreachable!()
    };
    let opened = cell.call(&rt, &mut main, Op::Initialize);
    assert!(rt; matches!(opened, Ok(Reply::Ok)));
    let idle = cell.call(&rt, &mut worker, Op::Pick);
    assert!(rt; matches!(idle, Ok(Reply::Idle)));
    seats.push(worker)?;
    seats.push(main)?;
    let run = journal_of(cell.close(seats))?;
    let journal = run.journal();
    assert_eq!(rt; (journal.callers, journal.settings), (1, NodeAttr::new()));
    assert_eq!(rt; journal.layout, Layout::Two);
    assert_eq!(rt; journal.entries.len(), 1);
    let entries = journal.entries.in_full(rt.alloc())?;
    for entry in entries.as_slice() {
        assert!(rt; matches!(entry.op, Op::Initialize));
        assert!(rt; entry.who == 1 && matches!(entry.reply, Reply::Ok));
    }
    assert_eq!(rt; journal.entries.skipped(), [0].as_slice());
    Ok(())
}
