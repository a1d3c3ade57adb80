//! The statements of a part of a workload, executed by a caller in their order.

ghost use Rattle.std.specs.Prelude.{◌≡◌, Bool, true, IfOk, OnErr};
ghost use Rattle.mtapi_machine.specs.Row.{handle_of};
ghost use Rattle.workload_runs.specs.Calls.{Once, Looking, call_of};
ghost use Rattle.workload_runners.specs.Turns.{SameNodeSeat, AddsOwn};
ghost use Rattle.workload_runners.specs.Rounds.{Stranded};
ghost use Rattle.workload_runs.specs.Wants.{op_of_look, waits};
ghost use Rattle.workload_runners.specs.Carries.{StatedAs, CarriedAs};

use crate::looks::look;
use mtapi_values::Timeout;
use node_core::{Journaled, Op, Reply};
use std::sync::Wait;
use turn_cell::{Spent, TurnCell, TurnSeat};
use turn_looks::turn;
use workload_file::{Deed, Statement};
use workload_runs::{Call, Wanted, call_of};

/// Why a caller stopped before its last statement.
#[derive(Debug, Drop)]
pub enum Stop {
    /// The turns are used up.
    Spent(Spent),
    /// Want of memory.
    Memory,
}

fn handle_of(reply: &Reply) -> u64
    ensures { result ≡ handle_of reply.now }
{
    match reply {
        Reply::Handle(handle) => *handle,
        _ => 0,
    }
}

/// Who that sleeps may have something to do after an op of a caller.
#[derive(Drop)]
pub enum Affected {
    /// Nobody.
    Nobody,
    /// A worker, since a task may begin.
    Workers,
    /// Those that wait for ends, since the op may end tasks, a group or the node; and a worker, since the next task of an ordered queue may
    /// begin.
    Everybody,
}

/// Who that sleeps may have something to do after this op.
pub fn affected_by(op: &Op) -> Affected {
    match op {
        Op::TaskStart { .. }
        | Op::TaskEnqueue { .. }
        | Op::ActionEnable { .. }
        | Op::QueueEnable { .. } => Affected::Workers,
        Op::TaskCancel { .. }
        | Op::ActionDisable { .. }
        | Op::ActionDelete { .. }
        | Op::QueueDisable { .. }
        | Op::QueueDelete { .. }
        | Op::GroupDelete { .. }
        | Op::Close => Affected::Everybody,
        Op::Initialize
        | Op::Release
        | Op::Enter
        | Op::Final
        | Op::JobGet { .. }
        | Op::ActionCreate { .. }
        | Op::TaskLook { .. }
        | Op::GroupCreate
        | Op::AllLook { .. }
        | Op::AnyLook { .. }
        | Op::QueueCreate { .. }
        | Op::QueueGet { .. }
        | Op::Pick
        | Op::Finish { .. }
        | Op::Asked { .. }
        | Op::WatchEnd { .. }
        | Op::TallyLock { .. }
        | Op::TallyRead { .. }
        | Op::TallyWrite { .. }
        | Op::TallyEnd { .. }
        | Op::MutexCreate { .. }
        | Op::MutexGet { .. }
        | Op::MutexDelete { .. }
        | Op::MutexLook { .. }
        | Op::MutexUnlock { .. }
        | Op::SemCreate { .. }
        | Op::SemGet { .. }
        | Op::SemDelete { .. }
        | Op::SemLook { .. }
        | Op::SemUnlock { .. }
        | Op::RwlCreate { .. }
        | Op::RwlGet { .. }
        | Op::RwlDelete { .. }
        | Op::RwlLook { .. }
        | Op::RwlUnlock { .. }
        | Op::ShmemCreate { .. }
        | Op::ShmemGet { .. }
        | Op::ShmemDelete { .. }
        | Op::ShmemAttach { .. }
        | Op::ShmemDetach { .. }
        | Op::ShmemRead { .. }
        | Op::ShmemWrite { .. } => Affected::Nobody,
    }
}

/// After a call those are woken that may have something to do.
pub fn wake(cell: &TurnCell<Journaled>, affected: Affected) {
    match affected {
        Affected::Nobody => {}
        Affected::Workers => cell.work().call(),
        Affected::Everybody => {
            cell.work().call();
            if cell.ends().is_heard() {
                cell.ends().ring_all();
            }
        }
    }
}

// A call with one entry.
fn once<R: Wait>(
    rt: &R,
    cell: &TurnCell<Journaled>,
    seat: &mut TurnSeat<Journaled>,
    op: Op,
) -> Result<u64, Spent>
    requires cell { seat.old.cell ≡ cell.now.id }
    ensures stated { IfOk result (λ h. AddsOwn (StatedAs (Once op) h) seat.old seat.new) }
    ensures spent { OnErr result (Stranded seat.old seat.new) }
{
    let affected = affected_by(&op);
    match turn(rt, cell, seat, op) {
        Ok(reply) => {
            wake(cell, affected);
            Ok(handle_of(&reply))
        }
        Err(spent) => Err(spent),
    }
}

// A call that looks.
fn looking<R: Wait>(
    rt: &R,
    cell: &TurnCell<Journaled>,
    seat: &mut TurnSeat<Journaled>,
    wanted: Wanted,
    timeout: Timeout,
) -> Result<u64, Spent>
    requires cell { seat.old.cell ≡ cell.now.id }
    ensures stated { IfOk result (λ h. AddsOwn (StatedAs (Looking (waits wanted) (op_of_look wanted) timeout) h) seat.old seat.new) }
    ensures spent { OnErr result (Stranded seat.old seat.new) }
{
    match look(rt, cell, seat, wanted, timeout) {
        Ok(reply) => Ok(handle_of(&reply)),
        Err(spent) => Err(spent),
    }
}

// One statement, where the earlier ones bound these handles.
fn state<R: Wait>(
    rt: &R,
    cell: &TurnCell<Journaled>,
    seat: &mut TurnSeat<Journaled>,
    deed: &Deed,
    bound: &[u64],
) -> Result<u64, Spent>
    requires cell { seat.old.cell ≡ cell.now.id }
    ensures stated { IfOk result (λ h. AddsOwn (StatedAs (call_of bound.now deed.now) h) seat.old seat.new) }
    ensures spent { OnErr result (Stranded seat.old seat.new) }
{
    match call_of(deed, bound) {
        Call::Once(op) => once(rt, cell, seat, op),
        Call::Looking(wanted, timeout) => looking(rt, cell, seat, wanted, timeout),
    }
}

/// The statements in order. Each binds the handle of its reply.
pub(crate) fn carry_out<R: Wait>(
    rt: &R,
    cell: &TurnCell<Journaled>,
    seat: &mut TurnSeat<Journaled>,
    statements: &[Statement],
    bound: &mut Vec<u64>,
) -> Result<(), Stop>
    requires cell { seat.old.cell ≡ cell.now.id }
    ensures carried { IfOk result (λ _. AddsOwn (CarriedAs bound.old.items statements.now) seat.old seat.new) }
    ensures same { SameNodeSeat seat.old seat.new }
{
    for statement in statements {
        match state(rt, cell, seat, &statement.deed, bound) {
            Ok(handle) => {
                match bound.push(handle) {
                    Ok(()) => {}
                    Err(_) => return Err(Stop::Memory),
                }
            }
            Err(spent) => return Err(Stop::Spent(spent)),
        }
    }
    Ok(())
}
