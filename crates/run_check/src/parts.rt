//! Whether the lines of a seat are those of its part of a workload.
ghost use Rattle.std.specs.Prelude.{◌≡◌, ◌↔◌, ◌++◌, ◌∷◌, [], List, IsTrue, IfOk, IfSome, IfNone};
ghost use Rattle.mtapi_machine.specs.declared.ops.Op.TheVariants as ops;
ghost use Rattle.mtapi_machine.specs.declared.replies.Reply.{Reply};
ghost use Rattle.mtapi_machine.specs.declared.replies.Reply.TheVariants as replies;
ghost use Rattle.workload_runs.specs.Parts.{MainRan, CallerRan};
ghost use Rattle.workload_runs.specs.Lines.{Line, line_with, head_lines, tail_of_main, in_lines};
ghost use Rattle.workload_runs.specs.RunOf.{is_work, all_work, WorkerRan};
ghost use Rattle.run_check.specs.Starts.{EntersLine, Stops};

use crate::lines::Line;
use crate::made::carried;
use mtapi_machine::{Op, Reply};
use std::alloc::{AllocError, Global};
use workload_file::Statement;
use workload_runs::has_begin;

fn is_ok(reply: &Reply) -> bool
    ensures { IsTrue result ↔ (reply.now ≡ replies.Ok) }
{
    matches!(reply, Reply::Ok)
}

fn opens(own: &Line) -> bool
    ensures { IsTrue result ↔ (own.now ≡ line_with ops.Initialize replies.Ok 0) }
{
    matches!(own.op(), Op::Initialize) && is_ok(own.reply()) && own.beside() == 0
}

fn releases(own: &Line) -> bool
    ensures { IsTrue result ↔ (own.now ≡ line_with ops.Release replies.Ok 0) }
{
    matches!(own.op(), Op::Release) && is_ok(own.reply()) && own.beside() == 0
}

fn closes(own: &Line) -> bool
    ensures { IsTrue result ↔ (own.now ≡ line_with ops.Close replies.Ok 0) }
{
    matches!(own.op(), Op::Close) && is_ok(own.reply()) && own.beside() == 0
}

fn finalizes(own: &Line) -> bool
    ensures { IsTrue result ↔ (own.now ≡ line_with ops.Final replies.Ok 0) }
{
    matches!(own.op(), Op::Final) && is_ok(own.reply()) && own.beside() == 0
}

fn enters(line: &Line) -> bool
    ensures { IsTrue result ↔ EntersLine line.now }
{
    matches!(line.op(), Op::Enter) && is_ok(line.reply())
}

fn stops(line: &Line) -> bool
    ensures { IsTrue result ↔ Stops line.now }
{
    matches!(line.op(), Op::Pick) && matches!(line.reply(), Reply::Stop)
}

// The end of main's lines.
fn is_tail(lines: &[Line]) -> bool
    ensures { IsTrue result ↔ (lines.now ≡ tail_of_main) }
{
    match lines {
        [first, second] => closes(first) && finalizes(second),
        _ => false,
    }
}

// What stands behind the head of main's lines.
fn behind_head(begins: bool, lines: &[Line]) -> Option<&[Line]>
    ensures some { IfSome result (λ rest. lines.now ≡ head_lines begins ++ rest.now) }
    ensures none { IfNone result ((rest : List Line) → lines.now ≡ head_lines begins ++ rest → ⊥) }
{
    let [first, rest @ ..] = lines else {
        return None;
    };
    if !opens(first) {
        return None;
    }
    if begins {
        return Some(rest);
    }
    let [second, rest @ ..] = rest else {
        return None;
    };
    if releases(second) { Some(rest) } else { None }
}

/// Whether main made these lines by these statements.
pub fn main_ran(alloc: Global, statements: &[Statement], lines: &[Line]) -> Result<bool, AllocError>
    ensures { IfOk result (λ b. IsTrue b ↔ ((rs : List Reply) × MainRan in_lines statements.now lines.now rs)) }
{
    let Some(lines) = behind_head(has_begin(statements), lines) else {
        return Ok(false);
    };
    match carried(alloc, statements, lines)? {
        Some(rest) => Ok(is_tail(rest)),
        None => Ok(false),
    }
}

/// Whether a further caller made these lines by these statements.
pub fn caller_ran(
    alloc: Global,
    statements: &[Statement],
    lines: &[Line],
) -> Result<bool, AllocError>
    ensures { IfOk result (λ b. IsTrue b ↔ ((rs : List Reply) × CallerRan in_lines statements.now lines.now rs)) }
{
    let [first, rest @ ..] = lines else {
        return Ok(false);
    };
    if !enters(first) {
        return Ok(false);
    }
    match carried(alloc, statements, rest)? {
        Some(rest) => Ok(rest.is_empty()),
        None => Ok(false),
    }
}

fn is_work(op: &Op, reply: &Reply) -> bool
    ensures { result ≡ is_work op.now reply.now }
{
    match op {
        Op::Pick => matches!(reply, Reply::Picked { .. } | Reply::Idle),
        Op::Finish { .. } | Op::TallyWrite { .. } => matches!(reply, Reply::Ok),
        Op::Asked { .. } => matches!(reply, Reply::Asked(_)),
        Op::WatchEnd { .. } | Op::TallyEnd { .. } => matches!(reply, Reply::Ended(_)),
        Op::TallyLock { .. } => matches!(reply, Reply::Asked(_) | Reply::Pending),
        Op::TallyRead { .. } => matches!(reply, Reply::Number(_)),
        _ => false,
    }
}

fn all_work(lines: &[Line]) -> bool
    ensures { result ≡ all_work lines.now }
{
    for line in lines {
        if !is_work(line.op(), line.reply()) {
            return false;
        }
    }
    true
}

/// Whether a worker made these lines: work, and then a pick that answers Stop.
pub fn worker_ran(lines: &[Line]) -> bool
    ensures { IsTrue result ↔ WorkerRan lines.now }
{
    match lines {
        [work @ .., last] => all_work(work) && stops(last),
        _ => false,
    }
}
