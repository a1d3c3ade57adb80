//! Worked workloads, and their reports.

use crate::runs::{check, run, unhindered};
use std::alloc::Global;
use std::process::Abort;
use std::sync::Wait;
use std::thread::Threads as StartsThreads;

/// Each of these workloads has the report beside it.
fn check_all<R: Abort + StartsThreads + Wait + Sync>(
    rt: &R,
    alloc: Global,
    rows: &[(&'static [u8], &'static [u8])],
) {
    for (load, report) in rows {
        check(rt, alloc, &["run"], load, &unhindered(), 0, report, b"");
    }
}

#[test]
fn reports_of_actions_and_tasks(rt: HostRuntime) {
    let rows: [(&'static [u8], &'static [u8]); 11] = [
        (b"", b""),
        (
            b"action a job=1 kind=add\nstart t job=1 args=1,2,3\nwait t timeout=inf\n",
            b"main.t completed 6\n",
        ),
        (
            b"start t job=1 args=1\n",
            b"main.t refused MTAPI_ERR_JOB_INVALID\n",
        ),
        (
            b"action a job=1 kind=div\nstart t job=1 args=1,0\nwait t timeout=inf\n",
            b"main.t error MTAPI_ERR_ACTION_FAILED\n",
        ),
        (
            b"action a job=1 kind=mul\nstart t job=1 args=4611686018427387904,4,0\nwait t timeout=inf\n",
            b"main.t error MTAPI_ERR_ACTION_FAILED\n",
        ),
        (
            b"action a job=1 kind=add\nstart t job=1 args=9223372036854775806,1\nwait t timeout=inf\n",
            b"main.t completed 9223372036854775807\n",
        ),
        (
            b"action a job=1 kind=fail\nstart t job=1 args=1\nwait t timeout=inf\n",
            b"main.t error MTAPI_ERR_ACTION_FAILED\n",
        ),
        (
            b"node max_tasks=1\naction a job=1 kind=add\nstart t job=1 args=1\nstart u job=1 args=2\nwait u timeout=inf\nwait t timeout=inf\n",
            b"main.t completed 1\nmain.u refused MTAPI_ERR_TASK_LIMIT\n! main 5 MTAPI_ERR_TASK_INVALID\n",
        ),
        (
            b"node max_tasks=1 generations=1\naction a job=1 kind=add\nstart t job=1 args=1\nwait t timeout=inf\nstart u job=1 args=2\n",
            b"main.t completed 1\nmain.u refused MTAPI_ERR_TASK_LIMIT\n",
        ),
        (
            b"node workers=2\naction a job=1 kind=add cores=0\nstart t job=1 args=1 cores=1\nwait t timeout=nowait\n",
            b"main.t refused MTAPI_ERR_NO_CORE\n! main 4 MTAPI_ERR_TASK_INVALID\n",
        ),
        // A task that no worker can take any more fails.
        (
            b"node workers=2\naction a job=1 kind=add\nqueue q id=1 job=1 retain=yes\nqueue_disable q\nenqueue t queue=q args=1\naction_delete a\nwait t timeout=inf\n",
            b"main.t error MTAPI_ERR_ACTION_DELETED\n",
        ),
    ];
    check_all(&rt, rt.alloc(), &rows);
}

/// Three tasks of an ordered queue, in a group that gives them one after another.
pub(crate) const GIVEN: &[u8] = b"node workers=4
action a job=1 kind=echo
queue q id=1 job=1 ordered=yes
group g
enqueue x queue=q args=1 group=g
enqueue y queue=q args=2 group=g
enqueue z queue=q args=3 group=g
wait_any g timeout=inf
wait_any g timeout=inf
wait_any g timeout=inf
wait_any g timeout=inf
";

pub(crate) const GIVEN_REPORT: &[u8] = b"main.x completed 1
main.y completed 2
main.z completed 3
= main 8 x
= main 9 y
= main 10 z
! main 11 MTAPI_GROUP_COMPLETED
";

#[test]
fn reports_of_queues_and_groups(rt: HostRuntime) {
    let rows: [(&'static [u8], &'static [u8]); 5] = [
        (GIVEN, GIVEN_REPORT),
        // What a queue that is disabled retains ends when the node closes.
        (
            b"action a job=1 kind=add\nqueue q id=1 job=1 retain=yes\nqueue_disable q\nenqueue t queue=q args=1\nwait t timeout=3\n",
            b"main.t cancelled\n! main 5 MTAPI_TIMEOUT\n",
        ),
        (
            b"action a job=1 kind=add\nqueue q id=1 job=1 retain=yes\nqueue_disable q\nenqueue t queue=q args=1\ncancel t\n",
            b"main.t cancelled\n",
        ),
        (
            b"action a job=1 kind=add\nqueue q id=1 job=1 retain=yes\nqueue_disable q\nenqueue t queue=q args=1\nqueue_delete q\n",
            b"main.t error MTAPI_ERR_QUEUE_DELETED\n",
        ),
        (
            b"action a job=1 kind=add\nqueue q id=1 job=1 limit=2 retain=yes\nqueue_disable q\nenqueue t queue=q\nenqueue u queue=q\nenqueue v queue=q\n",
            b"main.t cancelled\nmain.u cancelled\nmain.v refused MTAPI_ERR_QUEUE_LIMIT\n",
        ),
    ];
    check_all(&rt, rt.alloc(), &rows);
}

#[test]
fn reports_of_resources(rt: HostRuntime) {
    let rows: [(&'static [u8], &'static [u8]); 4] = [
        // A recursive mutex gives its keys in order.
        (
            b"mutex m id=1 recursive=yes\nlock m timeout=inf\nlock m timeout=inf\nunlock m key=1\nunlock m key=2\nunlock m key=1\nunlock m key=1\n",
            b"= main 2 1\n= main 3 2\n! main 4 MRAPI_ERR_MUTEX_LOCKORDER\n! main 7 MRAPI_ERR_MUTEX_NOTLOCKED\n",
        ),
        // The cells of a new segment are 0, though another segment was written there.
        (
            b"node max_objects=1\nshmem s id=1 cells=1\nattach s\nwrite s cell=0 value=7\ndetach s\nshmem_delete s\nshmem r id=1 cells=1\nattach r\nread r cell=0\nattach s\n",
            b"= main 9 0\n! main 10 MRAPI_ERR_SHM_INVALID\n",
        ),
        // The segment doesn't have the cell.
        (
            b"node workers=2\naction a job=1 kind=tally\nmutex m id=1\nshmem s id=2 cells=1\ngroup g\nstart t job=1 args=1,2,0,5 group=g\nstart u job=1 args=1,2,1,7 group=g\nwait_all g timeout=inf\nattach s\nread s cell=0\n",
            b"main.t completed 5\nmain.u error MTAPI_ERR_ACTION_FAILED\n! main 8 MTAPI_ERR_ACTION_FAILED\n= main 10 5\n",
        ),
        // There are three arguments.
        (
            b"node workers=2\naction a job=1 kind=tally\nmutex m id=1\nshmem s id=2 cells=1\ngroup g\nstart t job=1 args=1,2,0,5 group=g\nstart u job=1 args=1,2,0 group=g\nwait_all g timeout=inf\nattach s\nread s cell=0\n",
            b"main.t completed 5\nmain.u error MTAPI_ERR_ARG_SIZE\n! main 8 MTAPI_ERR_ARG_SIZE\n= main 10 5\n",
        ),
    ];
    check_all(&rt, rt.alloc(), &rows);
}

/// Two tallies of one cell, on two workers.
const TALLIES: &[u8] = b"node workers=2
action a job=1 kind=tally
mutex m id=1
shmem s id=2 cells=1
group g
start t job=1 args=1,2,0,5 group=g
start u job=1 args=1,2,0,7 group=g
wait_all g timeout=inf
attach s
read s cell=0
";

#[test]
fn tallies_of_two_workers(rt: HostRuntime) {
    // Which of the two adds first isn't said; the cell holds the sum of both.
    for _ in 0..20 {
        let bytes = TALLIES.to_vec(rt.alloc()).expect(&rt, "memory");
        let said = run(&rt, rt.alloc(), &["run"], bytes, &unhindered());
        assert_eq!(rt; said.status, 0);
        assert!(rt; said.out.bytes().ends_with(b"= main 10 12\n"));
    }
}
