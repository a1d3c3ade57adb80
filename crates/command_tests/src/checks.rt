//! The command with the word `check`.

use crate::faults::{REALISTIC, REPORT};
use crate::journals::EMPTY;
use crate::runs::{Hindrance, Said, check, run, unhindered};
use std::alloc::Global;
use std::process::Abort;
use std::sync::Wait;
use std::thread::Threads as StartsThreads;

/// The journal of the empty workload in text 1.
const EMPTY_ONE: &[u8] =
    b"mtapi-journal 1 workers=1 callers=1 tasks=1024 actions=64 groups=128 queues=16 objects=16 priorities=4 generations=4294967295
c0 initialize -> ok
c0 release -> ok
c0 close -> ok
w0 pick -> stop
c0 final -> ok
";

/// A node isn't closed before its worker has stopped.
const NO_STOP: &[u8] =
    b"mtapi-journal 1 workers=1 callers=1 tasks=1024 actions=64 groups=128 queues=16 objects=16 priorities=4 generations=4294967295
c0 initialize -> ok
c0 release -> ok
c0 close -> ok
c0 final -> ok
";

/// Each run releases its callers.
const NO_RELEASE: &[u8] =
    b"mtapi-journal 1 workers=1 callers=1 tasks=1024 actions=64 groups=128 queues=16 objects=16 priorities=4 generations=4294967295
c0 initialize -> ok
c0 close -> ok
w0 pick -> stop
c0 final -> ok
";

#[test]
fn verdicts(rt: HostRuntime) {
    let rows: [(&'static [u8], u8, &'static [u8]); 4] = [
        (EMPTY, 0, b"yes\n"),
        (EMPTY_ONE, 0, b"yes\n"),
        (NO_STOP, 9, b"no: illegal entry 4\n"),
        (NO_RELEASE, 9, b"no: not a run\n"),
    ];
    for (input, status, line) in rows {
        check(
            &rt,
            rt.alloc(),
            &["check"],
            input,
            &unhindered(),
            status,
            line,
            b"",
        );
    }
    let no_journal = b"mtapi: journal line 1\n";
    check(
        &rt,
        rt.alloc(),
        &["check"],
        b"",
        &unhindered(),
        3,
        b"",
        no_journal,
    );
}

/// What the command says of a run of the realistic workload that was kept: its journal is judged behind this front.
fn judged<R: Abort + StartsThreads + Wait + Sync>(
    rt: &R,
    alloc: Global,
    front: &[u8],
    how: &Hindrance,
) -> Said {
    let load = REALISTIC.to_vec(alloc).expect(rt, "memory");
    let kept = run(rt, alloc, &["run", "--journal"], load, &unhindered());
    let journal = kept.out.bytes().get(REPORT.len()..).expect(rt, "a journal");
    let mut input = front.to_vec(alloc).expect(rt, "memory");
    input.extend_from_slice(journal).expect(rt, "memory");
    run(rt, alloc, &["check"], input, how)
}

#[test]
fn a_hundred_runs_that_were_kept(rt: HostRuntime) {
    for _run in 0..100 {
        let said = judged(&rt, rt.alloc(), REALISTIC, &unhindered());
        assert_eq!(&rt; said.status, 0);
        assert_eq!(&rt; said.out.bytes(), b"yes\n".as_slice());
    }
}

#[test]
fn a_verdict_that_is_cut_off_and_one_of_another_workload(rt: HostRuntime) {
    // Where a write fails, a prefix of the line was written.
    let how = Hindrance {
        write: 2,
        write_fails: 2,
        ..unhindered()
    };
    let cut = judged(&rt, rt.alloc(), REALISTIC, &how);
    assert_eq!(&rt; cut.status, 5);
    assert_eq!(&rt; cut.out.bytes(), b"ye".as_slice());
    // It is no run of the empty workload.
    let other = judged(&rt, rt.alloc(), b"", &unhindered());
    assert_eq!(&rt; other.status, 9);
    assert_eq!(&rt; other.out.bytes(), b"no: not a run\n".as_slice());
}
