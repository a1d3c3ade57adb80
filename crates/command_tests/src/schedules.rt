//! Workloads of many threads. Each can end in every schedule, and so each run of it ends.

use crate::runs::{run, unhindered};
use std::alloc::Global;
use std::process::Abort;
use std::sync::Wait;
use std::thread::Threads as StartsThreads;

/// How often each workload runs.
const TIMES: u32 = 10;

/// So many runs of this workload each end with the status 0 and this report.
fn check<R: Abort + StartsThreads + Wait + Sync>(
    rt: &R,
    alloc: Global,
    text: &[u8],
    report: &[u8],
) {
    for _ in 0..TIMES {
        let bytes = text.to_vec(alloc).expect(rt, "memory");
        let said = run(rt, alloc, &["run"], bytes, &unhindered());
        assert_eq!(rt; said.out.bytes(), report);
        assert!(rt; said.err.bytes().is_empty());
        assert_eq!(rt; said.status, 0);
    }
}

/// Eight further callers each start tasks and wait for them, on sixteen workers.
const EIGHT_CALLERS: &[u8] = b"node workers=16
action a job=1 kind=add
begin
caller a
start t job=1 args=1
start u job=1 args=2
wait u timeout=inf
wait t timeout=inf
caller b
start t job=1 args=3
wait t timeout=inf
caller c
start t job=1 args=4
wait t timeout=inf
caller d
start t job=1 args=5
wait t timeout=inf
caller e
start t job=1 args=6
wait t timeout=inf
caller f
start t job=1 args=7
wait t timeout=inf
caller g
start t job=1 args=8
wait t timeout=inf
caller h
group g
start t job=1 args=9 group=g
start u job=1 args=10 group=g
wait_all g timeout=inf
";

const EIGHT_REPORTS: &[u8] = b"a.t completed 1
a.u completed 2
b.t completed 3
c.t completed 4
d.t completed 5
e.t completed 6
f.t completed 7
g.t completed 8
h.t completed 9
h.u completed 10
";

#[test]
fn eight_callers_and_sixteen_workers(rt: HostRuntime) {
    check(&rt, rt.alloc(), EIGHT_CALLERS, EIGHT_REPORTS);
}

/// Sixteen workers and nothing to do.
#[test]
fn sixteen_idle_workers(rt: HostRuntime) {
    check(&rt, rt.alloc(), b"node workers=16\n", b"");
}

/// The queue is disabled while its tasks run or wait to run. It keeps those that wait, which go on when it is enabled.
const DISABLED_QUEUE: &[u8] = b"node workers=2
action a job=1 kind=watch
queue q id=1 job=1 retain=yes
enqueue t queue=q args=64
enqueue u queue=q args=64
enqueue v queue=q args=64
enqueue w queue=q args=64
queue_disable q
queue_enable q
queue_disable q
queue_enable q
wait t timeout=inf
wait u timeout=inf
wait v timeout=inf
wait w timeout=inf
";

const DISABLED_REPORT: &[u8] = b"main.t completed 64
main.u completed 64
main.v completed 64
main.w completed 64
";

#[test]
fn a_queue_that_is_disabled_while_its_tasks_run(rt: HostRuntime) {
    check(&rt, rt.alloc(), DISABLED_QUEUE, DISABLED_REPORT);
}

/// Two callers fight for a mutex; each takes it twice.
const FIGHT: &[u8] = b"node workers=1
mutex m id=1
begin
caller a
mutex_get m id=1
lock m timeout=inf
unlock m key=1
lock m timeout=inf
unlock m key=1
caller b
mutex_get m id=1
lock m timeout=inf
unlock m key=1
lock m timeout=inf
unlock m key=1
";

const FIGHT_REPORT: &[u8] = b"= a 6 1
= a 8 1
= b 12 1
= b 14 1
";

#[test]
fn a_mutex_that_two_callers_fight_for(rt: HostRuntime) {
    check(&rt, rt.alloc(), FIGHT, FIGHT_REPORT);
}

/// One caller has no statement at all, and main begins before it makes anything.
const NOTHING_TO_DO: &[u8] = b"node workers=4
begin
action a job=1 kind=echo
start t job=1 args=5
wait t timeout=inf
caller a
caller b
group g
";

#[test]
fn a_caller_that_ends_at_once(rt: HostRuntime) {
    check(&rt, rt.alloc(), NOTHING_TO_DO, b"main.t completed 5\n");
}
