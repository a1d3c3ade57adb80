//! A run of a workload, and what is left of it without one of its entries.

use action_fn::{Finished, act_add};
use mtapi_machine::{Entry, Op, Reply};
use mtapi_values::{ActionHandle, Args, Kind, Mask, TaskEnd, TaskHandle};
use run_check::is_run;
use std::alloc::Global;
use std::test::Fail;
use workload_file::{MemSource, Workload, read_workload};

const ACTION: u64 = 1 << 32;

const TASK: u64 = ACTION + 1;

const WORKER: u32 = 0;

const MAIN: u32 = 1;

const TEXT: &[u8] =
    b"node workers=1\naction a job=1 kind=add\nstart t job=1 args=1,2\nwait t timeout=inf\n";

// How many entries the run has.
const ENTRIES: usize = 11;

fn numbers(values: &[i64]) -> Args {
    let mut args = Args::new();
    for value in values {
        args.push(*value);
    }
    args
}

fn look() -> Op {
    Op::TaskLook {
        task: TaskHandle(TASK),
        last: false,
    }
}

// The entry at this place of the run, and the number beside it.
fn entry_at(place: usize) -> (u32, Op, Reply, u64) {
    let args = numbers(&[1, 2]);
    match place {
        0 => (MAIN, Op::Initialize, Reply::Ok, 0),
        1 => (MAIN, Op::Release, Reply::Ok, 0),
        2 => (
            MAIN,
            Op::ActionCreate {
                job: 1,
                kind: Kind::Add,
                cores: Mask(u64::MAX),
            },
            Reply::Handle(ACTION),
            0,
        ),
        3 => (
            MAIN,
            Op::TaskStart {
                job: 1,
                args,
                priority: 0,
                cores: Mask(u64::MAX),
                detached: false,
                group: None,
            },
            Reply::Handle(TASK),
            0,
        ),
        4 => (
            WORKER,
            Op::Pick,
            Reply::Picked {
                task: TaskHandle(TASK),
                action: ActionHandle(ACTION),
                kind: Kind::Add,
                args,
            },
            0,
        ),
        5 => (MAIN, look(), Reply::Pending, 3),
        6 => (
            WORKER,
            Op::Finish {
                task: TaskHandle(TASK),
                done: Finished::new(Kind::Add, args.again(), act_add(&args)),
            },
            Reply::Ok,
            0,
        ),
        7 => (
            MAIN,
            look(),
            Reply::Ended(TaskEnd::Completed(numbers(&[3]))),
            2,
        ),
        8 => (MAIN, Op::Close, Reply::Ok, 0),
        9 => (WORKER, Op::Pick, Reply::Stop, 5),
        _ => (MAIN, Op::Final, Reply::Ok, 0),
    }
}

// Whether the run without the entry at this place is a run of the workload.
fn is_run_without(alloc: Global, load: &Workload, place: usize) -> Result<bool, Fail> {
    let mut entries = Vec::new(alloc);
    let mut skipped = Vec::new(alloc);
    for i in 0..ENTRIES {
        if i != place {
            let (who, op, reply, beside) = entry_at(i);
            entries.push(Entry { who, op, reply })?;
            skipped.push(beside)?;
        }
    }
    // What the call asks of its caller.
    if skipped.len() != entries.len() {
        return Err("a number for each entry".into());
    }
    if load.settings.workers() > 16 || load.parts.as_slice().len() > 9 {
        return Err("seats".into());
    }
    Ok(is_run(alloc, load, &entries, &skipped)?)
}

// What a worker did before its last pick is no matter of the run: the machine judges that.
#[test]
fn one_entry_left_out(rt: HostRuntime) -> Result<(), Fail> {
    let alloc = rt.alloc();
    let mut src = MemSource::new(TEXT.to_vec(alloc)?, 100, vec![in alloc]?);
    let load = read_workload(alloc, &mut src).map_err(|_| "workload")?;
    assert!(rt; is_run_without(alloc, &load, ENTRIES)?);
    for place in 0..ENTRIES {
        let still = is_run_without(alloc, &load, place)?;
        assert_eq!(rt; still, matches!(place, 4..=6), "{place}");
    }
    Ok(())
}
