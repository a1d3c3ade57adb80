//! Whether no seat goes on behind a history, as looks and refusals tell that the machine allows there.

ghost use Rattle.std.specs.Prelude.{◌≡◌, ℕ, IsTrue, IfSome, OnOk, IfOk, ◌++◌, ◌+◌, ◌<◌, ◌⊎◌, ◌∷◌, [], length, if◌then◌else◌};
ghost use Rattle.std.specs.List.{All, Contains};
ghost use Rattle.history.specs.Histories.{entry};
ghost use Rattle.mtapi_values.specs.declared.handles.TaskHandle.{TaskHandle};
ghost use Rattle.mtapi_machine.specs.declared.ops.Op.TheVariants as ops;
ghost use Rattle.mtapi_machine.specs.declared.replies.Reply.TheVariants as replies;
ghost use Rattle.mtapi_machine.specs.Row.{handle_of};
ghost use Rattle.workload_runs.specs.Wants.{op_of_look, waits};
ghost use Rattle.workload_runs.specs.Whole.{HasSeats};
ghost use Rattle.run_report.specs.Replies.{decides};
ghost use Rattle.begun_runs.specs.Halts.{IsProbeRefusal, LeavesState, WorkerHalts, ComesToLook, CallerLooksOn, CallerHalts, CallersHalt, SomeLacks, MainHalts, PartsHalt, Halts, reply_handles, refused_look, refused_final, calls_ahead};

use mtapi_machine::{Entry, Op, Reply};
use mtapi_values::{MtapiStatus, Timeout};
use std::alloc::{AllocError, Global};
use workload_file::{Part, Statement, Workload};
use workload_runs::{Call, Wanted, call_of, has_begin};

/// Entries that the machine allows behind a history, if it is a deadlock.
#[derive(Drop)]
pub struct Probes {
    /// The looks of the seats: none finds what it looks for.
    pub looks: Vec<Entry>,
    /// What is refused before these.
    pub refused: Vec<Entry>,
}

// Entries

/// Whether an op is this one, which isn't by a worker that ends a task.
fn is_op(op: &Op, other: &Op) -> bool
    ensures { IsTrue result → op.now ≡ other.now }
{
    match other {
        Op::Finish { .. } => false,
        _ => op == other,
    }
}

/// Whether this is a look of the seat that finds nothing.
fn is_look(e: &Entry, who: u32, op: &Op) -> bool
    ensures { IsTrue result → e.now ≡ entry who op.now replies.Pending }
{
    e.who == who && matches!(e.reply, Reply::Pending) && is_op(&e.op, op)
}

/// Whether such a look is among these.
fn has_look(looks: &[Entry], who: u32, op: &Op) -> bool
    ensures { IsTrue result → Contains looks.now (entry who op.now replies.Pending) }
{
    for look in looks {
        if is_look(look, who, op) {
            return true;
        }
    }
    false
}

/// Whether this is a look by the first worker that is refused, since a seat waits for the task.
fn is_refused_look(e: &Entry, op: &Op) -> bool
    ensures { IsTrue result → e.now ≡ refused_look op.now }
{
    e.who == 0 && matches!(e.reply, Reply::Mtapi(MtapiStatus::ErrWaitPending)) && is_op(&e.op, op)
}

/// Whether it is among these.
fn has_refused_look(refused: &[Entry], op: &Op) -> bool
    ensures { IsTrue result → Contains refused.now (refused_look op.now) }
{
    for entry in refused {
        if is_refused_look(entry, op) {
            return true;
        }
    }
    false
}

/// Whether this is main's last step, refused.
fn is_refused_final(e: &Entry, main: u32) -> bool
    ensures { IsTrue result → e.now ≡ refused_final main }
{
    e.who == main
        && matches!(e.op, Op::Final)
        && matches!(e.reply, Reply::Mtapi(MtapiStatus::ErrNodeInitialized))
}

/// Whether it is among these.
fn has_refused_final(refused: &[Entry], main: u32) -> bool
    ensures { IsTrue result → Contains refused.now (refused_final main) }
{
    for entry in refused {
        if is_refused_final(entry, main) {
            return true;
        }
    }
    false
}

/// Whether an entry is one of the two refusals.
fn is_refused(entry: &Entry, main: u32) -> bool
    ensures { IsTrue result → IsProbeRefusal main entry.now }
{
    if is_refused_final(entry, main) {
        return true;
    }
    match &entry.op {
        Op::TaskLook { .. } => is_refused_look(entry, &entry.op),
        _ => false,
    }
}

/// Whether each of these is.
fn are_refused(refused: &[Entry], main: u32) -> bool
    ensures { IsTrue result → All (IsProbeRefusal main) refused.now }
{
    for entry in refused {
        if !is_refused(entry, main) {
            return false;
        }
    }
    true
}

/// Whether an entry leaves the state, where these are refused.
fn leaves_state(refused: &[Entry], entry: &Entry) -> bool
    ensures { IsTrue result → LeavesState refused.now entry.now }
{
    match (&entry.op, &entry.reply) {
        (_, Reply::Idle) => true,
        (Op::TaskLook { .. }, Reply::Pending) => has_refused_look(refused, &entry.op),
        (_, Reply::Pending) => true,
        _ => false,
    }
}

/// Whether each of these leaves it.
fn leave_state(refused: &[Entry], looks: &[Entry]) -> bool
    ensures { IsTrue result → All (LeavesState refused.now) looks.now }
{
    for entry in looks {
        if !leaves_state(refused, entry) {
            return false;
        }
    }
    true
}

// Workers

/// Whether this is a pick of the worker that finds no task.
fn is_idle(e: &Entry, who: u32) -> bool
    ensures { IsTrue result → e.now ≡ entry who ops.Pick replies.Idle }
{
    e.who == who && matches!(e.op, Op::Pick) && matches!(e.reply, Reply::Idle)
}

/// Whether this says that the worker's tally waits for its mutex.
fn is_tally(e: &Entry, who: u32) -> bool
    ensures { IsTrue result → (t : TaskHandle) × (e.now ≡ entry who (ops.TallyLock t) replies.Pending) }
{
    e.who == who && matches!(e.op, Op::TallyLock { .. }) && matches!(e.reply, Reply::Pending)
}

/// Whether a worker halts.
fn worker_halts(looks: &[Entry], who: u32) -> bool
    ensures { IsTrue result → WorkerHalts looks.now who }
{
    for look in looks {
        if is_idle(look, who) || is_tally(look, who) {
            return true;
        }
    }
    false
}

/// Whether each worker does.
fn workers_halt(looks: &[Entry], workers: u32) -> bool
    ensures { IsTrue result → (w : ℕ) → w < workers → WorkerHalts looks.now w }
{
    for who in 0..workers {
        if !worker_halts(looks, who) {
            return false;
        }
    }
    true
}

// Callers

/// Adds the handle of a reply that decides a call of this seat.
fn push_handle(handles: &mut Vec<u64>, who: u32, entry: &Entry) -> Result<(), AllocError>
    ensures { OnOk result (handles.new.items ≡ handles.old.items ++ (if decides who entry.now then handle_of entry.now.reply ∷ [] else [])) }
{
    if entry.who != who {
        return Ok(());
    }
    match &entry.reply {
        Reply::Pending => {}
        Reply::Handle(handle) => handles.push(*handle)?,
        _ => handles.push(0)?,
    }
    Ok(())
}

/// The handles of the replies that decide the calls of this seat, 0 where one has none.
#[tactic(auto, using(crate::proofs::Tests::handles_none, crate::proofs::Tests::handles_next, crate::proofs::Tests::handles_all))]
pub(crate) fn handles_of(alloc: Global, who: u32, entries: &[Entry]) -> Result<Vec<u64>, AllocError>
    ensures { IfOk result (λ handles. handles.items ≡ reply_handles who entries.now) }
{
    let mut handles = Vec::new(alloc);
    for entry in entries {
        push_handle(&mut handles, who, entry)?;
    }
    Ok(handles)
}

/// What the statement wants, to which a caller has come, if it looks without a bound.
pub(crate) fn wanted_next(
    before: usize,
    statements: &[Statement],
    handles: &[u64],
) -> Option<Wanted>
    ensures { IfSome result (λ w. ComesToLook before statements.now handles.now (waits w) (op_of_look w)) }
{
    if handles.len() < before {
        return None;
    }
    let bound = &handles[before..];
    let statement = statements.get(bound.len())?;
    match call_of(&statement.deed, bound) {
        Call::Looking(wanted, Timeout::Infinite) => Some(wanted),
        _ => None,
    }
}

/// Whether a caller looks on.
fn looks_on(
    looks: &[Entry],
    who: u32,
    before: usize,
    statements: &[Statement],
    handles: &[u64],
) -> bool
    ensures { IsTrue result → CallerLooksOn looks.now who before statements.now handles.now }
{
    match wanted_next(before, statements, handles) {
        Some(wanted) => has_look(looks, who, &wanted.op(false)),
        None => false,
    }
}

/// Whether a further caller halts.
fn caller_halts(looks: &[Entry], who: u32, statements: &[Statement], handles: &[u64]) -> bool
    ensures { IsTrue result → CallerHalts looks.now who statements.now handles.now }
{
    if handles.is_empty() {
        return has_look(looks, who, &Op::Enter);
    }
    if handles.len() - 1 == statements.len() {
        return true;
    }
    looks_on(looks, who, 1, statements, handles)
}

/// Whether all further callers do, from this seat on.
fn callers_halt(
    alloc: Global,
    entries: &[Entry],
    looks: &[Entry],
    who: u32,
    parts: &[Part],
) -> Result<bool, AllocError>
    requires few { who + length parts.now < 4294967296 }
    ensures { IfOk result (λ b. IsTrue b → CallersHalt entries.now looks.now who parts.now) }
{
    let [part, rest @ ..] = parts else {
        return Ok(true);
    };
    let handles = handles_of(alloc, who, entries)?;
    if !caller_halts(looks, who, part.statements.as_slice(), &handles) {
        return Ok(false);
    }
    let others = callers_halt(alloc, entries, looks, who + 1, rest)?;
    Ok(others)
}

/// Whether a further caller, from this seat on, still has a statement to make.
fn some_lacks(
    alloc: Global,
    entries: &[Entry],
    who: u32,
    parts: &[Part],
) -> Result<bool, AllocError>
    requires few { who + length parts.now < 4294967296 }
    ensures { IfOk result (λ b. IsTrue b → SomeLacks entries.now who parts.now) }
{
    let [part, rest @ ..] = parts else {
        return Ok(false);
    };
    let handles = handles_of(alloc, who, entries)?;
    if handles.len() <= part.statements.as_slice().len() {
        return Ok(true);
    }
    let others = some_lacks(alloc, entries, who + 1, rest)?;
    Ok(others)
}

/// How many calls main makes before those of its statements.
pub(crate) fn calls_ahead(statements: &[Statement]) -> usize
    ensures { result ≡ calls_ahead statements.now }
{
    if has_begin(statements) { 1 } else { 2 }
}

/// Whether main halts.
fn main_halts(
    alloc: Global,
    entries: &[Entry],
    probes: &Probes,
    main: u32,
    statements: &[Statement],
    others: &[Part],
) -> Result<bool, AllocError>
    requires few { main + (1 + length others.now) < 4294967296 }
    ensures { IfOk result (λ b. IsTrue b → MainHalts entries.now probes.now.looks.items probes.now.refused.items main statements.now others.now (reply_handles main entries.now)) }
{
    let handles = handles_of(alloc, main, entries)?;
    let ahead = calls_ahead(statements);
    if handles.len() < ahead {
        return Ok(false);
    }
    let made = handles.len() - ahead;
    if made < statements.len() {
        return Ok(looks_on(&probes.looks, main, ahead, statements, &handles));
    }
    if made == statements.len() {
        return some_lacks(alloc, entries, main + 1, others);
    }
    Ok(made - 1 == statements.len() && has_refused_final(&probes.refused, main))
}

/// Whether no seat goes on behind these entries, as the probes tell if the machine allows them there: true only where that is so. It fails
/// for want of memory alone.
pub fn halts(
    alloc: Global,
    load: &Workload,
    entries: &[Entry],
    probes: &Probes,
) -> Result<bool, AllocError>
    requires seats { HasSeats load.now }
    ensures { IfOk result (λ b. IsTrue b → Halts load.now entries.now probes.now.looks.items probes.now.refused.items) }
{
    let main = load.settings.workers();
    let [first, others @ ..] = load.parts.as_slice() else {
        return Ok(false);
    };
    if !are_refused(&probes.refused, main)
        || !leave_state(&probes.refused, &probes.looks)
        || !workers_halt(&probes.looks, main)
    {
        return Ok(false);
    }
    if !main_halts(
        alloc,
        entries,
        probes,
        main,
        first.statements.as_slice(),
        others,
    )? {
        return Ok(false);
    }
    callers_halt(alloc, entries, &probes.looks, main + 1, others)
}
