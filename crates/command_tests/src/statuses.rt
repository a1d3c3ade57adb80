//! The statuses of the command other than 0, and what it says with them.

use crate::reports::{GIVEN, GIVEN_REPORT};
use crate::runs::{Hindrance, check, unhindered};
use std::alloc::Global;
use std::process::Abort;
use std::sync::Wait;
use std::thread::Threads as StartsThreads;

const ADDED: &[u8] = b"action a job=1 kind=add
start t job=1 args=1,2,3
wait t timeout=inf
";

const USAGE: &[u8] = b"usage: mtapi run [--journal] | mtapi gen N [W] | mtapi check\n";

/// The text is refused with this message.
fn check_refused<R: Abort + StartsThreads + Wait + Sync>(
    rt: &R,
    alloc: Global,
    text: &[u8],
    message: &[u8],
) {
    check(rt, alloc, &["run"], text, &unhindered(), 3, b"", message);
}

#[test]
fn other_words(rt: HostRuntime) {
    let plain = unhindered();
    for words in [["run", "x"], ["gen", "0"], ["gen", "019"]] {
        check(&rt, rt.alloc(), &words, ADDED, &plain, 2, b"", USAGE);
    }
}

#[test]
fn texts_that_are_refused(rt: HostRuntime) {
    let alloc = rt.alloc();
    check_refused(&rt, alloc, b"foo x\n", b"mtapi: line 1: unknown word\n");
    let (front, _) = ADDED.split_at(ADDED.len().saturating_sub(13));
    check_refused(&rt, alloc, front, b"mtapi: line 3: option missing\n");
    let twice =
        b"action a job=1 kind=add\nstart t job=1 args=1,2,3\nstart t job=1 args=1,2,3\nwait t timeout=inf\n";
    check_refused(&rt, alloc, twice, b"mtapi: line 3: name taken\n");
    let line = vec![in alloc; b'a'; 513].expect(&rt, "memory");
    check_refused(&rt, alloc, &line, b"mtapi: line 1: line too long\n");
    let spaces = vec![in alloc; b' '; 1_048_577].expect(&rt, "memory");
    check_refused(&rt, alloc, &spaces, b"mtapi: workload too long\n");
}

#[test]
fn a_last_line_without_its_line_feed(rt: HostRuntime) {
    let byte_by_byte = Hindrance {
        read: 1,
        ..unhindered()
    };
    let (text, _) = ADDED.split_at(ADDED.len().saturating_sub(1));
    let report = b"main.t completed 6\n";
    check(
        &rt,
        rt.alloc(),
        &["run"],
        text,
        &byte_by_byte,
        0,
        report,
        b"",
    );
}

#[test]
fn a_read_a_write_and_a_thread_fail(rt: HostRuntime) {
    let reading = Hindrance {
        read_fails: 1,
        ..unhindered()
    };
    let fault = b"mtapi: read fault\n";
    check(&rt, rt.alloc(), &["run"], ADDED, &reading, 4, b"", fault);
    let writing = Hindrance {
        write: 10,
        write_fails: 2,
        ..unhindered()
    };
    let (begun, _) = GIVEN_REPORT.split_at(10);
    let fault = b"mtapi: write fault\n";
    check(&rt, rt.alloc(), &["run"], GIVEN, &writing, 5, begun, fault);
    let starting = Hindrance {
        thread_fails: 2,
        ..unhindered()
    };
    let refused = b"mtapi: thread refused\n";
    check(&rt, rt.alloc(), &["run"], GIVEN, &starting, 7, b"", refused);
}
