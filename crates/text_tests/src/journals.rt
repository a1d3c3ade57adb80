//! Journals in text: lines and texts that are read again, and that are refused.

use byte_io::MemSource;
use journal_text::*;
use std::alloc::{AllocError, Global};
use std::test::Fail;

/// The journal of the empty workload, in both texts.
pub(crate) const EMPTY: [&str; 2] = [
    "mtapi-journal 1 workers=1 callers=1 tasks=1024 actions=64 groups=128 queues=16 objects=16 priorities=4 generations=4294967295\nc0 initialize -> ok\nc0 release -> ok\nc0 close -> ok\nw0 pick -> stop\nc0 final -> ok\n",
    "mtapi-journal 2 workers=1 callers=1 tasks=1024 actions=64 groups=128 queues=16 objects=16 priorities=4 generations=4294967295\nc0 initialize -> ok\nc0 release -> ok\nc0 close -> ok\nw0 pick -> stop\nc0 final -> ok\n",
];

fn source(alloc: Global, text: &str) -> Result<MemSource, AllocError> {
    let mut bytes = Vec::new(alloc);
    bytes.extend_from_slice(text.as_bytes())?;
    Ok(MemSource::new(bytes, 7, Vec::new(alloc)))
}

/// Whether a text is read, and written back byte for byte.
fn is_again(alloc: Global, text: &str) -> Result<bool, AllocError> {
    match read_journal(alloc, &mut source(alloc, text)?) {
        Ok(journal) => Ok(write_journal(alloc, &journal)?.as_slice() == text.as_bytes()),
        Err(_) => Ok(false),
    }
}

/// How many entries a text has, 0 where it is refused.
fn entries_in(alloc: Global, text: &str) -> Result<usize, AllocError> {
    match read_journal(alloc, &mut source(alloc, text)?) {
        Ok(journal) => Ok(journal.entries.len()),
        Err(_) => Ok(0),
    }
}

/// The line at which a text is refused, 0 where it only ends without a line feed, and 999 where it is read.
fn refused(alloc: Global, text: &str) -> Result<u64, AllocError> {
    match read_journal(alloc, &mut source(alloc, text)?) {
        Err(JournalError::BadLine { line }) => Ok(line),
        Err(JournalError::PartialEnd) => Ok(0),
        _ => Ok(999),
    }
}

fn under_head(alloc: Global, version: &str, lines: &str) -> Result<String, AllocError> {
    format!(in alloc;
        "mtapi-journal {version} workers=2 callers=2 tasks=8 actions=8 groups=8 queues=8 objects=8 priorities=4 generations=9\n{lines}"
    )
}

#[test]
fn the_empty_workload(rt: HostRuntime) -> Result<(), Fail> {
    let alloc = rt.alloc();
    for text in EMPTY {
        assert!(rt; is_again(alloc, text)?);
        let twice = format!(in alloc; "{text}c0 final -> ok\n")?;
        assert!(rt; is_again(alloc, &twice)?);
        assert!(rt; entries_in(alloc, &twice)? == 6);
    }
    Ok(())
}

/// Lines of text 1 that are read and written back.
const GOOD_ONE: &str = "c0 action_create 1 add 18446744073709551615 -> handle 4294967296
c1 task_enqueue 18446744073709551615 - 0 0 7 -> status MTAPI_ERR_QUEUE_INVALID
w0 pick -> picked 4294967296 1 watch -9223372036854775808
w1 finish 3 fail - error MTAPI_ERR_ACTION_FAILED -> stop
c0 queue_create 0 1 2 3 1 0 -> asked 1 after 3
";

/// Lines of text 2 that are read and written back: a handle without a generation, or with a kind that is none of the 8, is a number.
const GOOD_TWO: &str = "c0 task_look g1.16777215 1 -> given h4294967295.3 completed 1
c0 task_look 150994944 1 -> handle 4445962240
c0 task_look 16777216 1 -> handle 18446744073709551615
";

/// A run of a workload with one task: the journal that the page reads by eye.
const ONE_TASK: &str =
    "mtapi-journal 2 workers=1 callers=1 tasks=1024 actions=64 groups=128 queues=16 objects=16 priorities=4 generations=4294967295
c0 initialize -> ok
c0 release -> ok
c0 action_create 1 add 18446744073709551615 -> handle a1.0
c0 task_start 1 1,2,3 0 18446744073709551615 0 - -> handle t1.0
w0 pick -> picked t1.0 a1.0 add 1,2,3
c0 task_look t1.0 0 -> pending
w0 finish t1.0 add 1,2,3 completed 6 -> ok
c0 task_look t1.0 0 -> ended completed 6 after 5
c0 close -> ok
w0 pick -> stop
c0 final -> ok
";

/// A line for each op, in text 2: the examples of the page on the journal text.
const EACH_OP: &str = "c0 initialize -> ok
c0 release -> ok
c1 enter -> ok
c0 close -> ok
c0 final -> ok
c0 job_get 1 -> ok
c0 action_create 1 add 18446744073709551615 -> handle a1.0
c0 action_delete a1.0 -> ok
c0 action_disable a1.0 -> ok
c0 action_enable a1.0 -> ok
c0 task_start 1 20,22 0 18446744073709551615 0 g1.0 -> handle t1.0
c0 task_enqueue q1.0 - 3 1 - -> handle t1.0
c0 task_look t1.0 0 -> ended completed 42
c0 task_cancel t1.0 -> ok
c0 group_create -> handle g1.0
c0 group_delete g1.0 -> ok
c0 all_look g1.0 1 -> pending
c0 any_look g1.0 0 -> given t1.0 cancelled
c0 queue_create 7 1 0 1024 1 0 -> handle q1.0
c1 queue_get 7 -> handle q1.0
c0 queue_enable q1.0 -> ok
c0 queue_disable q1.0 -> ok
c0 queue_delete q1.0 -> ok
w0 pick -> picked t1.0 a1.0 add 20,22
w0 finish t1.0 add 20,22 completed 42 -> ok
w1 asked t2.1 -> asked 1
w1 watch_end t2.1 -> ok
w0 tally_lock t3.2 -> asked 1
w0 tally_read t3.2 -> number -5
w0 tally_write t3.2 -4 -> ok
w0 tally_end t3.2 -> ok
c0 mutex_create 1 0 -> handle m1.0
c1 mutex_get 1 -> handle m1.0
c0 mutex_delete m1.0 -> ok
c0 mutex_look m1.0 1 -> number 1
c0 mutex_unlock m1.0 1 -> status MRAPI_ERR_MUTEX_KEY
c0 sem_create 1 2 -> handle s1.0
c1 sem_get 1 -> handle s1.0
c0 sem_delete s1.0 -> ok
c0 sem_look s1.0 0 -> pending
c0 sem_unlock s1.0 -> ok
c0 rwl_create 1 2 -> handle r1.0
c1 rwl_get 1 -> handle r1.0
c0 rwl_delete r1.0 -> ok
c0 rwl_look r1.0 1 0 -> ok
c0 rwl_unlock r1.0 1 -> ok
c0 shmem_create 1 4 -> handle h1.0
c1 shmem_get 1 -> handle h1.0
c0 shmem_delete h1.0 -> ok
c0 shmem_attach h1.0 -> ok
c0 shmem_detach h1.0 -> ok
c0 shmem_read h1.0 3 -> number -7
c0 shmem_write h1.0 3 -7 -> ok
";

#[test]
fn lines_are_read_again(rt: HostRuntime) -> Result<(), Fail> {
    let alloc = rt.alloc();
    assert!(rt; is_again(alloc, &under_head(alloc, "1", GOOD_ONE)?)?);
    assert!(rt; is_again(alloc, &under_head(alloc, "2", GOOD_TWO)?)?);
    assert!(rt; is_again(alloc, &under_head(alloc, "2", EACH_OP)?)?);
    assert!(rt; is_again(alloc, ONE_TASK)?);
    Ok(())
}

/// Lines that are outside both texts.
const BAD: [&str; 16] = [
    "\n",
    "c0 initialize -> \n",
    " c0 initialize -> ok\n",
    "c0  initialize -> ok\n",
    "c0 initialize -> ok\r\n",
    "c0 begin -> ok\n",
    "c0 job_get 1 2 -> ok\n",
    "w2 pick -> idle\n",
    "c00 initialize -> ok\n",
    "c0 initialize -> ok after 0\n",
    "c0 job_get 4294967296 -> ok\n",
    "c0 job_get 1 -> number -0\n",
    "c0 task_start 1 - 0 1 0 none -> ok\n",
    "c0 enter -> ended completed 1,,2\n",
    "c0 enter -> status mtapi_timeout\n",
    "w0 finish 1 add 1,2 completed 4 -> ok\n",
];

/// Lines that are outside text 1 alone.
const BAD_ONE: [&str; 3] = [
    "c0 task_look t1.1 1 -> ok\n",
    "c0 action_create 1 tally 1 -> ok\n",
    "w0 tally_lock 1 -> ok\n",
];

/// Lines that are outside text 2 alone: a handle with a generation and a kind of 1 to 8 has the letter of its kind, and no other has one.
const BAD_TWO: [&str; 4] = [
    "c0 task_look t0.1 1 -> ok\n",
    "c0 task_look x1.1 1 -> ok\n",
    "c0 task_look t1.16777216 1 -> ok\n",
    "c0 task_look 4328521728 1 -> ok\n",
];

#[test]
fn lines_are_refused(rt: HostRuntime) -> Result<(), Fail> {
    let alloc = rt.alloc();
    for (version, lines) in [
        ("1", BAD.as_slice()),
        ("1", BAD_ONE.as_slice()),
        ("2", BAD.as_slice()),
        ("2", BAD_TWO.as_slice()),
    ] {
        for line in lines {
            let text = under_head(alloc, version, *line)?;
            assert_eq!(rt; refused(alloc, &text)?, 2, "{line}");
        }
    }
    Ok(())
}

/// The settings of a head line, but for the last one.
const SETTINGS: &str =
    "workers=1 callers=1 tasks=1 actions=1 groups=1 queues=1 objects=1 priorities=1";

#[test]
fn texts_are_refused(rt: HostRuntime) -> Result<(), Fail> {
    let alloc = rt.alloc();
    for (version, last, rest, line) in [
        ("1", "1", "\n", 999),
        ("2", "4294967295", "\n", 999),
        ("2", "1", "", 0),
        ("2", "1", "\nw0 pick -> idle", 0),
        ("2", "1", "\nw0 pick -> idle\nfoo\nw0 pick", 3),
        ("3", "1", "\n", 1),
        ("2", "0", "\n", 1),
        ("2", "01", "\n", 1),
        ("2", "1 more=1", "\n", 1),
    ] {
        let text = format!(in alloc;
            "mtapi-journal {version} {SETTINGS} generations={last}{rest}"
        )?;
        assert_eq!(rt; refused(alloc, &text)?, line, "{text}");
    }
    Ok(())
}

#[test]
fn a_failed_read(rt: HostRuntime) -> Result<(), Fail> {
    let alloc = rt.alloc();
    let mut src = MemSource::new(EMPTY[0].as_bytes().to_vec(alloc)?, 7, vec![in alloc; 2]?);
    assert!(rt; matches!(read_journal(alloc, &mut src), Err(JournalError::Read)));
    Ok(())
}
