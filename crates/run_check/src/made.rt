//! Whether lines are made by the calls of statements.
ghost use Rattle.std.specs.Prelude.{◌≡◌, Bool, ◌↔◌, ◌+◌, ◌≤◌, List, [], IsTrue, IfOk, IfSome, IfNone};
ghost use Rattle.mtapi_values.specs.Timeouts.{looks_of};
ghost use Rattle.mtapi_machine.specs.declared.replies.Reply.{Reply};
ghost use Rattle.mtapi_machine.specs.Row.{handle_of};
ghost use Rattle.mtapi_machine.specs.Kept.{is_pending};
ghost use Rattle.workload_runs.specs.Calls.{Once, Looking, call_of};
ghost use Rattle.workload_runs.specs.Wants.{op_of_look, waits, shape, IsTimed, Stated};
ghost use Rattle.workload_runs.specs.Lines.{Line, KeepsTimeout, is_timeout};
ghost use Rattle.run_check.specs.Same.{IsStated};
ghost use Rattle.run_check.specs.Takes.{Takes, DecidesAs, Decides, CarriedTo};

use crate::asked::same_op;
use crate::lines::Line;
use mtapi_machine::{Op, Reply};
use mtapi_values::{MrapiStatus, MtapiStatus, Timeout};
use std::alloc::{AllocError, Global};
use workload_file::Statement;
use workload_runs::{Call, Wanted, call_of};

fn is_pending(reply: &Reply) -> bool
    ensures { result ≡ is_pending reply.now }
{
    matches!(reply, Reply::Pending)
}

fn is_timeout(reply: &Reply) -> bool
    ensures { result ≡ is_timeout reply.now }
{
    matches!(
        reply,
        Reply::Mtapi(MtapiStatus::Timeout) | Reply::Mrapi(MrapiStatus::Timeout)
    )
}

fn handle_of(reply: &Reply) -> u64
    ensures { result ≡ handle_of reply.now }
{
    match reply {
        Reply::Handle(handle) => *handle,
        _ => 0,
    }
}

// A call with one entry.
fn once<'a>(op: &Op, lines: &'a [Line]) -> Option<(&'a Reply, &'a [Line])>
    requires stated { IsStated op.now }
    ensures some { IfSome result (λ m. Takes (Once op.now) lines.now m.1.now m.0.now) }
    ensures none { IfNone result ((rest : List Line) (r : Reply) → Takes (Once op.now) lines.now rest r → ⊥) }
{
    let [line, rest @ ..] = lines else {
        return None;
    };
    if line.beside() == 0 && !is_pending(line.reply()) && same_op(line.op(), op) {
        Some((line.reply(), rest))
    } else {
        None
    }
}

fn keeps_timeout(timeout: Timeout, last: bool, looks: u128) -> bool
    ensures { IsTrue result ↔ KeepsTimeout (looks_of timeout) last looks }
{
    match timeout.looks() {
        None => !last,
        Some(most) => looks <= u128::from(most) && last == (looks == u128::from(most)),
    }
}

// Which look of the wanted thing an op is: the last one or not.
fn last_of(op: &Op, wanted: Wanted) -> Option<bool>
    requires timed { IsTimed wanted }
    ensures some { IfSome result (λ last. op.now ≡ op_of_look wanted last) }
    ensures none { IfNone result ((last : Bool) → op.now ≡ op_of_look wanted last → ⊥) }
{
    if same_op(op, &wanted.op(true)) {
        return Some(true);
    }
    if same_op(op, &wanted.op(false)) {
        return Some(false);
    }
    None
}

// Whether a look that is the last one or not decides by its reply, where it is look number `looks`.
fn decides_as(timeout: Timeout, last: bool, looks: u128, reply: &Reply) -> bool
    ensures { IsTrue result ↔ DecidesAs timeout last looks reply.now }
{
    !is_pending(reply) && keeps_timeout(timeout, last, looks) && (last || !is_timeout(reply))
}

// Whether the look of a line decides, where so many came before it.
fn decides(wanted: Wanted, timeout: Timeout, before: u128, line: &Line) -> bool
    requires timed { IsTimed wanted }
    requires few { before ≤ 18446744073709551616 }
    ensures { IsTrue result ↔ Decides wanted timeout before line.now }
{
    match last_of(line.op(), wanted) {
        Some(last) => decides_as(
            timeout,
            last,
            before + (u128::from(line.beside()) + 1),
            line.reply(),
        ),
        None => false,
    }
}

// The lines of a call that looks.
fn looking(wanted: Wanted, timeout: Timeout, lines: &[Line]) -> Option<(&Reply, &[Line])>
    requires timed { IsTimed wanted }
    ensures some { IfSome result (λ m.
        Takes (Looking (waits wanted) (op_of_look wanted) timeout) lines.now m.1.now m.0.now) }
    ensures none { IfNone result ((rest : List Line) (r : Reply)
        → Takes (Looking (waits wanted) (op_of_look wanted) timeout) lines.now rest r → ⊥) }
{
    let [line, rest @ ..] = lines else {
        return None;
    };
    if !is_pending(line.reply()) {
        return if decides(wanted, timeout, 0, line) {
            Some((line.reply(), rest))
        } else {
            None
        };
    }
    if !wanted.waits() || !same_op(line.op(), &wanted.op(false)) {
        return None;
    }
    let [deciding, rest @ ..] = rest else {
        return None;
    };
    if decides(wanted, timeout, u128::from(line.beside()) + 1, deciding) {
        Some((deciding.reply(), rest))
    } else {
        None
    }
}

// The lines of one call from the front: its reply, and what is left behind them.
fn made<'a>(call: &Call, lines: &'a [Line]) -> Option<(&'a Reply, &'a [Line])>
    requires stated { Stated call.now }
    ensures some { IfSome result (λ m. Takes (shape call.now) lines.now m.1.now m.0.now) }
    ensures none { IfNone result ((rest : List Line) (r : Reply) → Takes (shape call.now) lines.now rest r → ⊥) }
{
    match call {
        Call::Once(op) => once(op, lines),
        Call::Looking(wanted, timeout) => looking(*wanted, *timeout, lines),
    }
}

// The lines of one statement from the front, and the handle that it binds.
fn stated<'a>(statement: &Statement, bound: &[u64], lines: &'a [Line]) -> Option<(u64, &'a [Line])>
    ensures some { IfSome result (λ m. (r : Reply) × Takes (call_of bound.now statement.now.deed) lines.now m.1.now r
        × (m.0 ≡ handle_of r)) }
    ensures none { IfNone result ((rest : List Line) (r : Reply)
        → Takes (call_of bound.now statement.now.deed) lines.now rest r → ⊥) }
{
    match made(&call_of(&statement.deed, bound), lines) {
        Some((reply, rest)) => Some((handle_of(reply), rest)),
        None => None,
    }
}

/// What is left of a seat's lines behind those of these statements, or none where the front of the
/// lines isn't made by the statements in order.
pub fn carried<'a>(
    alloc: Global,
    statements: &[Statement],
    lines: &'a [Line],
) -> Result<Option<&'a [Line]>, AllocError>
    ensures some { IfOk result (λ o. IfSome o (λ rest. CarriedTo [] statements.now lines.now rest.now)) }
    ensures none { IfOk result (λ o. IfNone o ((rest : List Line) → CarriedTo [] statements.now lines.now rest → ⊥)) }
{
    let mut bound = Vec::new(alloc);
    let mut rest = lines;
    for statement in statements {
        match stated(statement, &bound, rest) {
            Some((handle, left)) => {
                bound.push(handle)?;
                rest = left;
            }
            None => return Ok(None),
        }
    }
    Ok(Some(rest))
}
