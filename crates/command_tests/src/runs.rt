//! One run of the command over a source and sinks in memory, and what it said.

use action_fn::{
    ActionSource, FnTable, StoredFn, act_add, act_div, act_echo, act_fail, act_gcd, act_max,
    act_mul, act_triangle,
};
use mtapi_top::{Beside, FewThreads, Threads, command};
use mtapi_values::Kind;
use std::alloc::Global;
use std::process::Abort;
use std::sync::Wait;
use std::thread::Threads as StartsThreads;
use workload_file::{MemSink, MemSource};

/// More bytes than an output or a message of these tests has.
pub(crate) const ROOM: usize = 65_536;

/// The function of each pure kind.
pub(crate) fn table() -> FnTable {
    FnTable::new(
        StoredFn::new(Kind::Add, act_add),
        StoredFn::new(Kind::Mul, act_mul),
        StoredFn::new(Kind::Max, act_max),
        StoredFn::new(Kind::Div, act_div),
        StoredFn::new(Kind::Gcd, act_gcd),
        StoredFn::new(Kind::Echo, act_echo),
        StoredFn::new(Kind::Triangle, act_triangle),
        StoredFn::new(Kind::Fail, act_fail),
    )
}

/// What hinders a run: how many bytes a call moves, and which call fails, counted from 1 (0: none).
#[derive(Clone, Copy, Drop)]
pub(crate) struct Hindrance {
    /// Bytes of a read.
    pub(crate) read: usize,
    pub(crate) read_fails: u64,
    /// Bytes of a write.
    pub(crate) write: usize,
    pub(crate) write_fails: u64,
    /// Bytes that the output takes.
    pub(crate) room: usize,
    /// The write of a message that fails.
    pub(crate) message_fails: u64,
    /// The thread that is refused.
    pub(crate) thread_fails: u64,
}

/// Nothing hinders it.
pub(crate) fn unhindered() -> Hindrance {
    Hindrance {
        read: 4096,
        read_fails: 0,
        write: 4096,
        write_fails: 0,
        room: ROOM,
        message_fails: 0,
        thread_fails: 0,
    }
}

/// What the command said.
#[derive(Drop)]
pub(crate) struct Said {
    pub(crate) status: u8,
    pub(crate) out: MemSink,
    pub(crate) err: MemSink,
}

/// A sink with so much room, which takes so many bytes a call and fails at this one.
fn sink<R: Abort>(rt: &R, alloc: Global, room: usize, most: usize, fails: u64) -> MemSink {
    let fails = vec![in alloc; fails].expect(rt, "memory");
    MemSink::new(alloc, room, most.max(1), fails).expect(rt, "memory")
}

/// Runs the command with these words over these bytes, with these actions and with threads of `beside`.
pub(crate) fn run_with<R: Abort + StartsThreads + Wait + Sync, A: ActionSource, B: Beside>(
    rt: &R,
    alloc: Global,
    words: &[&str],
    bytes: Vec<u8>,
    how: &Hindrance,
    acts: &mut A,
    beside: &mut B,
) -> Said {
    let fails = vec![in alloc; how.read_fails].expect(rt, "memory");
    let mut src = MemSource::new(bytes, how.read.max(1), fails);
    let mut out = sink(rt, alloc, how.room, how.write, how.write_fails);
    let mut err = sink(rt, alloc, ROOM, 4096, how.message_fails);
    let outcome = command(rt, alloc, words, &mut src, &mut out, &mut err, acts, beside);
    assert!(rt; outcome.spent.is_none());
    Said {
        status: outcome.status,
        out,
        err,
    }
}

/// Runs the command with these words over these bytes, with the function of each pure kind.
pub(crate) fn run<R: Abort + StartsThreads + Wait + Sync>(
    rt: &R,
    alloc: Global,
    words: &[&str],
    bytes: Vec<u8>,
    how: &Hindrance,
) -> Said {
    let mut acts = table();
    if how.thread_fails == 0 {
        return run_with(rt, alloc, words, bytes, how, &mut acts, &mut Threads::new());
    }
    let mut few = FewThreads::new(how.thread_fails);
    run_with(rt, alloc, words, bytes, how, &mut acts, &mut few)
}

/// The command says this of these words and bytes.
pub(crate) fn check<R: Abort + StartsThreads + Wait + Sync>(
    rt: &R,
    alloc: Global,
    words: &[&str],
    bytes: &[u8],
    how: &Hindrance,
    status: u8,
    out: &[u8],
    err: &[u8],
) {
    let bytes = bytes.to_vec(alloc).expect(rt, "memory");
    let said = run(rt, alloc, words, bytes, how);
    assert_eq!(rt; said.status, status);
    assert_eq!(rt; said.out.bytes(), out);
    assert_eq!(rt; said.err.bytes(), err);
}
