//! Two actions of two workers run at one time, each by the set that was made for its worker's number.

use crate::runs::{run_with, table, unhindered};
use action_fn::{ActionSet, ActionSource, Finished, FnTable};
use crossbeam_utils::Backoff;
use mtapi_top::Threads;
use mtapi_values::{Args, Kind};
use std::sync::Wait;
use std::sync::atomic::{AtomicU64, Ordering};

/// The actions of a table, of which the first that begins waits for a while until a second has begun.
#[derive(Drop)]
struct Meeting<'a> {
    plain: FnTable,
    begun: &'a AtomicU64,
    met: &'a AtomicU64,
}

impl<'a> ActionSet for Meeting<'a> {
    fn run<R: Wait>(&mut self, rt: &R, kind: Kind, args: Args) -> Finished {
        let before = self.begun.fetch_add(1, Ordering::SeqCst);
        if before == 0 {
            let backoff = Backoff::new();
            for _ in 0..2_000_000 {
                if self.begun.load(Ordering::SeqCst) >= 2 {
                    self.met.store(1, Ordering::SeqCst);
                    break;
                }
                backoff.snooze();
            }
        }
        self.plain.run(rt, kind, args)
    }
}

/// Gives each worker such a set, and notes for which ones.
#[derive(Drop)]
struct Meetings<'a> {
    begun: &'a AtomicU64,
    met: &'a AtomicU64,
    // A 1, and a digit for each worker.
    workers: u64,
}

impl<'a> ActionSource for Meetings<'a> {
    type Set = Meeting<'a>;

    fn for_worker(&mut self, worker: u32) -> Meeting<'a> {
        self.workers = self
            .workers
            .saturating_mul(10)
            .saturating_add(u64::from(worker));
        Meeting {
            plain: table(),
            begun: self.begun,
            met: self.met,
        }
    }
}

const TWO_TASKS: &[u8] = b"node workers=2
action a job=1 kind=add
start t job=1 args=1
start u job=1 args=2
wait t timeout=inf
wait u timeout=inf
";

const TWO_ENDS: &[u8] = b"main.t completed 1
main.u completed 2
";

#[test]
fn two_actions_meet(rt: HostRuntime) {
    let alloc = rt.alloc();
    let bytes = TWO_TASKS.to_vec(alloc).expect(&rt, "memory");
    let begun = AtomicU64::new(0);
    let met = AtomicU64::new(0);
    let mut acts = Meetings {
        begun: &begun,
        met: &met,
        workers: 1,
    };
    let mut beside = Threads::new();
    let said = run_with(
        &rt,
        alloc,
        &["run"],
        bytes,
        &unhindered(),
        &mut acts,
        &mut beside,
    );
    assert_eq!(rt; said.status, 0);
    assert_eq!(rt; said.out.bytes(), TWO_ENDS);
    assert_eq!(rt; met.load(Ordering::SeqCst), 1);
    // Worker 1 is started before worker 0.
    assert_eq!(rt; acts.workers, 110);
}
