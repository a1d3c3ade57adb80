//! Whether a journal is a run of a workload.
ghost use Rattle.std.specs.Prelude.{◌≡◌, ◌↔◌, ◌+◌, ◌<◌, ◌≤◌, ◌++◌, ◌∷◌, [], ℕ, Bool, List, IsTrue, IfOk, length, if◌then◌else◌};
ghost use Rattle.workload_file.specs.declared.workload.Part.{Part};
ghost use Rattle.mtapi_machine.specs.declared.replies.Reply.{Reply};
ghost use Rattle.workload_runs.specs.Parts.{MainRan, CallerRan, CallersRan, PartsRan};
ghost use Rattle.workload_runs.specs.Lines.{lines_of, in_lines};
ghost use Rattle.workload_runs.specs.RunOf.{WorkerRan, ClosesAtEnd, RunOf};
ghost use Rattle.workload_runs.specs.Whole.{HasSeats};
ghost use Rattle.history.specs.Histories.{entry};
ghost use Rattle.mtapi_machine.specs.declared.ops.Op.TheVariants as ops;
ghost use Rattle.mtapi_machine.specs.declared.replies.Reply.TheVariants as replies;
ghost use Rattle.run_check.specs.Ends.{StaysClosed, Closes};

use crate::lines::lines_of;
use crate::parts::{caller_ran, main_ran, worker_ran};
use mtapi_machine::{Entry, Op, Reply};
use std::alloc::{AllocError, Global};
use workload_file::{Part, Workload};

fn is_close(main: u32, e: &Entry) -> bool
    ensures { IsTrue result ↔ (e.now ≡ entry main ops.Close replies.Ok) }
{
    e.who == main && matches!(e.op, Op::Close) && matches!(e.reply, Reply::Ok)
}

fn is_final(main: u32, e: &Entry) -> bool
    ensures { IsTrue result ↔ (e.now ≡ entry main ops.Final replies.Ok) }
{
    e.who == main && matches!(e.op, Op::Final) && matches!(e.reply, Reply::Ok)
}

// Whether main has closed, and no further caller has an entry behind that, one entry on.
fn closed_after(main: u32, closed: bool, e: &Entry) -> bool
    ensures { IsTrue result ↔ StaysClosed main (IsTrue closed) e.now }
{
    if is_close(main, e) {
        return true;
    }
    closed && e.who <= main
}

// Whether main has closed, and no further caller has an entry behind that.
fn has_closed(main: u32, entries: &[Entry]) -> bool
    ensures { IsTrue result ↔ Closes main entries.now }
{
    let mut closed = false;
    for e in entries {
        closed = closed_after(main, closed, e);
    }
    closed
}

// Whether main closes, no further caller has an entry behind that, and the last entry is main's
// last step.
fn closes_at_end(main: u32, entries: &[Entry]) -> bool
    ensures { IsTrue result ↔ ClosesAtEnd main entries.now }
{
    match entries {
        [before @ .., last] => is_final(main, last) && has_closed(main, before),
        _ => false,
    }
}

// Whether the further caller with this seat made its part.
fn caller_made(
    alloc: Global,
    entries: &[Entry],
    skipped: &[u64],
    who: u32,
    part: &Part,
) -> Result<bool, AllocError>
    requires beside { length skipped.now ≡ length entries.now }
    ensures { IfOk result (λ b. IsTrue b
        ↔ ((rs : List Reply) × CallerRan in_lines part.now.statements (lines_of who entries.now skipped.now) rs)) }
{
    let lines = lines_of(alloc, who, entries, skipped)?;
    caller_ran(alloc, part.statements.as_slice(), &lines)
}

// Whether main, with this seat, made its part.
fn main_made(
    alloc: Global,
    entries: &[Entry],
    skipped: &[u64],
    main: u32,
    part: &Part,
) -> Result<bool, AllocError>
    requires beside { length skipped.now ≡ length entries.now }
    ensures { IfOk result (λ b. IsTrue b
        ↔ ((rs : List Reply) × MainRan in_lines part.now.statements (lines_of main entries.now skipped.now) rs)) }
{
    let lines = lines_of(alloc, main, entries, skipped)?;
    main_ran(alloc, part.statements.as_slice(), &lines)
}

// Whether the further callers, from this seat on, made these parts in order.
fn callers_ran(
    alloc: Global,
    entries: &[Entry],
    skipped: &[u64],
    who: u32,
    parts: &[Part],
) -> Result<bool, AllocError>
    requires beside { length skipped.now ≡ length entries.now }
    requires few { who + length parts.now < 4294967296 }
    ensures { IfOk result (λ b. IsTrue b
        ↔ ((rss : List (List Reply))
        × CallersRan in_lines (λ w. lines_of w entries.now skipped.now) who parts.now rss)) }
{
    let [part, rest @ ..] = parts else {
        return Ok(true);
    };
    if !caller_made(alloc, entries, skipped, who, part)? {
        return Ok(false);
    }
    let rest_ran = callers_ran(alloc, entries, skipped, who + 1, rest)?;
    Ok(rest_ran)
}

// Whether all parts were made: main's is the first.
fn parts_ran(
    alloc: Global,
    entries: &[Entry],
    skipped: &[u64],
    main: u32,
    parts: &[Part],
) -> Result<bool, AllocError>
    requires beside { length skipped.now ≡ length entries.now }
    requires few { main + length parts.now < 4294967296 }
    ensures { IfOk result (λ b. IsTrue b
        ↔ ((rss : List (List Reply))
        × PartsRan in_lines (λ w. lines_of w entries.now skipped.now) main parts.now rss)) }
{
    let [part, rest @ ..] = parts else {
        return Ok(false);
    };
    if !main_made(alloc, entries, skipped, main, part)? {
        return Ok(false);
    }
    let rest_ran = callers_ran(alloc, entries, skipped, main + 1, rest)?;
    Ok(rest_ran)
}

// Whether each worker made what a worker makes.
fn workers_ran(
    alloc: Global,
    entries: &[Entry],
    skipped: &[u64],
    workers: u32,
) -> Result<bool, AllocError>
    requires beside { length skipped.now ≡ length entries.now }
    ensures { IfOk result (λ b. IsTrue b ↔ ((w : ℕ) → w < workers → WorkerRan (lines_of w entries.now skipped.now))) }
{
    for w in 0..workers {
        let lines = lines_of(alloc, w, entries, skipped)?;
        if !worker_ran(&lines) {
            return Ok(false);
        }
    }
    Ok(true)
}

/// Whether entries, each with a number beside it, are a run of a workload. It fails for want of
/// memory alone, and walks the entries once for each seat.
pub fn is_run(
    alloc: Global,
    load: &Workload,
    entries: &[Entry],
    skipped: &[u64],
) -> Result<bool, AllocError>
    requires beside { length skipped.now ≡ length entries.now }
    requires seats { HasSeats load.now }
    ensures { IfOk result (λ b. IsTrue b ↔ RunOf load.now entries.now skipped.now) }
{
    let workers = load.settings.workers();
    Ok(
        closes_at_end(workers, entries)
            && workers_ran(alloc, entries, skipped, workers)?
            && parts_ran(alloc, entries, skipped, workers, load.parts.as_slice())?,
    )
}
