//! A realistic workload with four workers and three callers, of which each read, each write and each thread start fails in turn.

use crate::runs::{Hindrance, Said, run, unhindered};
use std::alloc::Global;
use std::process::Abort;
use std::sync::Wait;
use std::thread::Threads as StartsThreads;

pub(crate) const REALISTIC: &[u8] = b"node workers=4
action sum job=1 kind=add
action big job=2 kind=max cores=0,1
queue q id=7 job=1 ordered=yes
mutex m id=1
shmem s id=1 cells=4
begin
group g
start a job=2 args=3,9,4 group=g
start b job=2 args=-5,-2 group=g
start c job=1 args=10,20,30 group=g priority=1
start d job=2 args=8 group=g
wait_all g timeout=inf
caller feed
queue_get q id=7
mutex_get m id=1
shmem_get s id=1
attach s
enqueue x queue=q args=1,2
enqueue y queue=q args=3,4
lock m timeout=inf
write s cell=0 value=5
read s cell=0
unlock m key=1
wait x timeout=inf
wait y timeout=inf
detach s
caller tail
mutex_get m id=1
lock m timeout=inf
unlock m key=1
";

pub(crate) const REPORT: &[u8] = b"main.a completed 9
main.b completed -2
main.c completed 60
main.d completed 8
feed.x completed 3
feed.y completed 7
= feed 21 1
= feed 23 5
= tail 30 1
";

/// One for each worker and each further caller.
const THREADS: u64 = 6;

fn run_realistic<R: Abort + StartsThreads + Wait + Sync>(
    rt: &R,
    alloc: Global,
    how: &Hindrance,
) -> Said {
    let bytes = REALISTIC.to_vec(alloc).expect(rt, "memory");
    run(rt, alloc, &["run"], bytes, how)
}

/// The status and the output are these; without a status 0 there is a message.
fn check<R: Abort + StartsThreads + Wait + Sync>(
    rt: &R,
    alloc: Global,
    how: &Hindrance,
    status: u8,
    out: &[u8],
) {
    let said = run_realistic(rt, alloc, how);
    assert_eq!(rt; said.status, status);
    assert_eq!(rt; said.out.bytes(), out);
    assert_eq!(rt; said.err.bytes().is_empty(), status == 0);
}

#[test]
fn each_read_fails(rt: HostRuntime) {
    // The last call finds the end.
    let calls = (REALISTIC.len() as u64).div_ceil(100) + 1;
    for call in 1..calls + 3 {
        let how = Hindrance {
            read: 100,
            read_fails: call,
            ..unhindered()
        };
        if call <= calls {
            check(&rt, rt.alloc(), &how, 4, b"");
        } else {
            check(&rt, rt.alloc(), &how, 0, REPORT);
        }
    }
}

#[test]
fn each_read_of_an_input_to_be_judged_fails(rt: HostRuntime) {
    // Two bytes a call; the third call finds the end, and no journal is there.
    for call in 1..=4 {
        let how = Hindrance {
            read: 2,
            read_fails: call,
            ..unhindered()
        };
        let bytes = b"# c\n".to_vec(rt.alloc()).expect(&rt, "memory");
        let said = run(&rt, rt.alloc(), &["check"], bytes, &how);
        assert_eq!(&rt; said.status, if call <= 3 { 4 } else { 3 });
        assert!(&rt; said.out.bytes().is_empty());
    }
}

#[test]
fn each_write_fails(rt: HostRuntime) {
    let calls = REPORT.len().div_ceil(10);
    for call in 1..calls + 3 {
        let how = Hindrance {
            write: 10,
            write_fails: call as u64,
            ..unhindered()
        };
        if call <= calls {
            check(&rt, rt.alloc(), &how, 5, &REPORT[..10 * (call - 1)]);
        } else {
            check(&rt, rt.alloc(), &how, 0, REPORT);
        }
    }
}

#[test]
fn an_output_without_room(rt: HostRuntime) {
    let how = Hindrance {
        room: 0,
        ..unhindered()
    };
    check(&rt, rt.alloc(), &how, 5, b"");
}

#[test]
fn a_message_fails(rt: HostRuntime) {
    let how = Hindrance {
        message_fails: 1,
        ..unhindered()
    };
    let said = run(&rt, rt.alloc(), &["run", "x"], Vec::new(rt.alloc()), &how);
    assert_eq!(rt; said.status, 2);
    assert!(rt; said.out.bytes().is_empty());
    assert!(rt; said.err.bytes().is_empty());
}

#[test]
fn each_thread_is_refused(rt: HostRuntime) {
    for thread in 1..THREADS + 2 {
        let how = Hindrance {
            thread_fails: thread,
            ..unhindered()
        };
        if thread <= THREADS {
            check(&rt, rt.alloc(), &how, 7, b"");
        } else {
            check(&rt, rt.alloc(), &how, 0, REPORT);
        }
    }
}
