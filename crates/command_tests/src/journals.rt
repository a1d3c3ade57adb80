//! The command with the words `run --journal`.

use crate::runs::{Hindrance, check, run, unhindered};
use journal_text::{read_journal, write_journal};
use workload_file::MemSource;

/// The journal of the empty workload.
pub(crate) const EMPTY: &[u8] =
    b"mtapi-journal 2 workers=1 callers=1 tasks=1024 actions=64 groups=128 queues=16 objects=16 priorities=4 generations=4294967295
c0 initialize -> ok
c0 release -> ok
c0 close -> ok
w0 pick -> stop
c0 final -> ok
";

const WORDS: [&str; 2] = ["run", "--journal"];

#[test]
fn the_journal_of_the_empty_workload(rt: HostRuntime) {
    check(&rt, rt.alloc(), &WORDS, b"", &unhindered(), 0, EMPTY, b"");
    // Where a write fails, a prefix of it was written.
    let how = Hindrance {
        write: 10,
        write_fails: 13,
        ..unhindered()
    };
    let fault = b"mtapi: write fault\n";
    check(&rt, rt.alloc(), &WORDS, b"", &how, 5, &EMPTY[..120], fault);
}

/// Room for one action and one task, whose handles have the places 0.
const ONE_TASK: &[u8] = b"node max_tasks=1 max_actions=1
action a job=1 kind=add
start t job=1 args=1,2,3
wait t timeout=inf
";

/// The report, and the first lines of the journal.
const ONE_TASK_BEGINS: &[u8] = b"main.t completed 6
mtapi-journal 2 workers=1 callers=1 tasks=1 actions=1 groups=128 queues=16 objects=16 priorities=4 generations=4294967295
c0 initialize -> ok
c0 release -> ok
c0 action_create 1 add 18446744073709551615 -> handle a1.0
c0 task_start 1 1,2,3 0 18446744073709551615 0 - -> handle t1.0
";

#[test]
fn the_journal_stands_behind_the_report_and_is_read_again(rt: HostRuntime) {
    let alloc = rt.alloc();
    let bytes = ONE_TASK.to_vec(alloc).expect(&rt, "memory");
    let said = run(&rt, alloc, &WORDS, bytes, &unhindered());
    assert_eq!(&rt; said.status, 0);
    let written = said.out.bytes();
    assert!(&rt; written.starts_with(ONE_TASK_BEGINS));
    let journal = written.get(19..).expect(&rt, "a journal");
    let bytes = journal.to_vec(alloc).expect(&rt, "memory");
    let mut src = MemSource::new(bytes, 4096, Vec::new(alloc));
    let read = read_journal(alloc, &mut src).expect(&rt, "a journal");
    let again = write_journal(alloc, &read).expect(&rt, "memory");
    assert_eq!(&rt; again.as_slice(), journal);
}
