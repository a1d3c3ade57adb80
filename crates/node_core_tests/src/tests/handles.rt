//! The first handle of each kind, and all laws of the calls that made them.

use crate::laws::each_law;
use crate::tests::asking::{ACTION, Called, GROUP, MAIN, MUTEX, QUEUE, RWL, SEM, SHMEM, TASK};
use mtapi_machine::{Op, Reply};
use mtapi_values::{Args, Kind, Mask, MtapiStatus, TaskHandle};
use std::test::Fail;

// The op that makes an object of the kind of this place.
fn make(place: usize) -> Op {
    match place {
        0 => Op::ActionCreate {
            job: 1,
            kind: Kind::Add,
            cores: Mask(1),
        },
        1 => Op::GroupCreate,
        2 => Op::TaskStart {
            job: 1,
            args: Args::new(),
            priority: 0,
            cores: Mask(1),
            detached: false,
            group: None,
        },
        3 => Op::QueueCreate {
            id: 5,
            job: 1,
            priority: 0,
            limit: 1,
            ordered: false,
            retain: false,
        },
        4 => Op::MutexCreate {
            id: 5,
            recursive: false,
        },
        5 => Op::SemCreate { id: 5, limit: 1 },
        6 => Op::RwlCreate { id: 5, limit: 1 },
        _ => Op::ShmemCreate { id: 5, cells: 1 },
    }
}

// What each of them gives.
const FIRST: [u64; 8] = [ACTION, GROUP, TASK, QUEUE, MUTEX, SEM, RWL, SHMEM];

#[test]
fn handles_of_each_kind(rt: HostRuntime) -> Result<(), Fail> {
    let mut called = Called::new(rt.alloc())?;
    let opened = called.call(MAIN, Op::Initialize);
    assert!(rt; matches!(opened, Some(Reply::Ok)));
    for (place, handle) in FIRST.iter().enumerate() {
        assert_eq!(rt; called.made(make(place)), *handle);
    }
    assert_eq!(rt;
        (ACTION, GROUP, TASK),
        (4_311_744_512, 4_345_298_944, 4_328_521_728)
    );
    // A group's where a task's is asked for.
    let cancel = Op::TaskCancel {
        task: TaskHandle(GROUP),
    };
    let told = called.call(MAIN, cancel);
    assert!(rt; matches!(told, Some(Reply::Mtapi(MtapiStatus::ErrTaskInvalid))));
    each_law(rt.alloc(), &called.into_journal().ok_or("no journal")?)?;
    Ok(())
}
