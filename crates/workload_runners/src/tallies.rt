//! How a worker executes a tally: it takes a mutex and a segment, reads a cell, writes the sum, and gives both back.

ghost use Rattle.std.specs.Prelude.{◌≡◌, true, ℤ, IfOk, OnErr};
ghost use Rattle.action_fn.specs.Answers.{fits, fitting};
ghost use Rattle.mtapi_values.specs.declared.kinds.Kind.TheVariants.{Tally};
ghost use Rattle.mtapi_objects.specs.Tasks.{tally_args, number_in};
ghost use Rattle.mtapi_machine.specs.declared.replies.Reply.TheVariants as said;
ghost use Rattle.workload_runners.specs.Rounds.{AtWork, Stranded};
ghost use Rattle.workload_runners.specs.Steps.{work_of, sum_with, LocksOnce, TakesBoth, MayRead, MayWrite, ReadsCell, WritesCell, MayEndTally, EndsTally, AddsToCell, Sums, Tallies, IsTallyAnswer, answer_in};

use mtapi_values::{Args, TaskHandle};
use node_core::{Journaled, Op, Reply};
use std::sync::Wait;
use turn_cell::{Spent, TurnCell, TurnSeat};
use turn_looks::{Pause, turn};

// The sum of what was read and of the number that a tally with these arguments adds, where it fits.
fn sum_of(args: &Args, kept: i64) -> Option<i64>
    ensures { result ≡ fitting (sum_with args.now kept) }
{
    kept.checked_add(number_in(args))
}

// The number that a tally with these arguments adds.
fn number_in(args: &Args) -> i64
    ensures { result ≡ number_in (tally_args args.now) }
{
    match args.as_slice() {
        [mutex, segment, cell, number] if *mutex >= 0 && *segment >= 0 && *cell >= 0 => *number,
        _ => 0,
    }
}

// What a question for both was answered: none where it is to be asked again.
fn answered(reply: &Reply) -> Option<bool>
    requires { IsTallyAnswer reply.now }
    ensures { result ≡ answer_in reply.now }
{
    match reply {
        Reply::Asked(got) => Some(*got),
        Reply::Pending => None,
        _ => unreachable!(),
    }
}

// A tally asks once for its mutex and its segment.
fn ask_both<R: Wait>(
    rt: &R,
    cell: &TurnCell<Journaled>,
    seat: &mut TurnSeat<Journaled>,
    task: TaskHandle,
    args: &Args,
) -> Result<Option<bool>, Spent>
    requires cell { seat.old.cell ≡ cell.now.id }
    requires work { AtWork seat.old task.0 (work_of Tally args.now) }
    ensures asked { IfOk result (λ got. LocksOnce seat.old task args.now got seat.new) }
    ensures spent { OnErr result (Stranded seat.old seat.new) }
{
    let _ = args;
    match turn(rt, cell, seat, Op::TallyLock { task }) {
        Ok(reply) => Ok(answered(&reply)),
        Err(spent) => Err(spent),
    }
}

// It asks until it has both or is to give up; between two questions it waits, longer each time.
fn take_both<R: Wait>(
    rt: &R,
    cell: &TurnCell<Journaled>,
    seat: &mut TurnSeat<Journaled>,
    task: TaskHandle,
    args: &Args,
) -> Result<bool, Spent>
    requires cell { seat.old.cell ≡ cell.now.id }
    requires work { AtWork seat.old task.0 (work_of Tally args.now) }
    ensures taken { IfOk result (λ got. TakesBoth seat.old task args.now got seat.new) }
    ensures spent { OnErr result (Stranded seat.old seat.new) }
{
    let mut pause = Pause::new();
    for _ in rt.forever() {
        match ask_both(rt, cell, seat, task, args) {
            Ok(Some(got)) => return Ok(got),
            Ok(None) => pause.wait(rt),
            Err(spent) => return Err(spent),
        }
    }
    unreachable!()
}

// The number in a reply.
fn number_read(reply: &Reply) -> i64
    requires { (z : ℤ) × (reply.now ≡ said.Number z) }
    ensures { reply.now ≡ said.Number result }
{
    match reply {
        Reply::Number(number) => *number,
        _ => unreachable!(),
    }
}

// It reads its cell.
fn read_cell<R: Wait>(
    rt: &R,
    cell: &TurnCell<Journaled>,
    seat: &mut TurnSeat<Journaled>,
    task: TaskHandle,
    args: &Args,
) -> Result<i64, Spent>
    requires cell { seat.old.cell ≡ cell.now.id }
    requires may { MayRead seat.old task args.now }
    ensures read { IfOk result (λ z. ReadsCell seat.old task args.now z seat.new) }
    ensures range { IfOk result (λ z. fits z ≡ true) }
    ensures spent { OnErr result (Stranded seat.old seat.new) }
{
    let _ = args;
    match turn(rt, cell, seat, Op::TallyRead { task }) {
        Ok(reply) => Ok(number_read(&reply)),
        Err(spent) => Err(spent),
    }
}

// It writes the sum.
fn write_cell<R: Wait>(
    rt: &R,
    cell: &TurnCell<Journaled>,
    seat: &mut TurnSeat<Journaled>,
    task: TaskHandle,
    args: &Args,
    kept: i64,
    sum: i64,
) -> Result<(), Spent>
    requires cell { seat.old.cell ≡ cell.now.id }
    requires may { MayWrite seat.old task args.now kept }
    requires sum { sum ≡ sum_with args.now kept }
    ensures written { IfOk result (λ _. WritesCell seat.old task args.now kept sum seat.new) }
    ensures spent { OnErr result (Stranded seat.old seat.new) }
{
    let _ = args;
    let _ = kept;
    match turn(rt, cell, seat, Op::TallyWrite { task, value: sum }) {
        Ok(_) => Ok(()),
        Err(spent) => Err(spent),
    }
}

// It reads its cell, and writes the sum where that fits.
fn add_to_cell<R: Wait>(
    rt: &R,
    cell: &TurnCell<Journaled>,
    seat: &mut TurnSeat<Journaled>,
    task: TaskHandle,
    args: &Args,
) -> Result<(), Spent>
    requires cell { seat.old.cell ≡ cell.now.id }
    requires may { MayRead seat.old task args.now }
    ensures added { IfOk result (λ _. AddsToCell seat.old task args.now seat.new) }
    ensures spent { OnErr result (Stranded seat.old seat.new) }
{
    match read_cell(rt, cell, seat, task, args) {
        Ok(kept) => match sum_of(args, kept) {
            Some(sum) => write_cell(rt, cell, seat, task, args, kept, sum),
            None => Ok(()),
        },
        Err(spent) => Err(spent),
    }
}

// It does what it may before its end.
fn add_up<R: Wait>(
    rt: &R,
    cell: &TurnCell<Journaled>,
    seat: &mut TurnSeat<Journaled>,
    task: TaskHandle,
    args: &Args,
) -> Result<(), Spent>
    requires cell { seat.old.cell ≡ cell.now.id }
    requires work { AtWork seat.old task.0 (work_of Tally args.now) }
    ensures added { IfOk result (λ _. Sums seat.old task args.now seat.new) }
    ensures spent { OnErr result (Stranded seat.old seat.new) }
{
    match take_both(rt, cell, seat, task, args) {
        Ok(got) => {
            if got {
                add_to_cell(rt, cell, seat, task, args)
            } else {
                Ok(())
            }
        }
        Err(spent) => Err(spent),
    }
}

// It gives back what it has, and ends.
fn end_tally<R: Wait>(
    rt: &R,
    cell: &TurnCell<Journaled>,
    seat: &mut TurnSeat<Journaled>,
    task: TaskHandle,
    args: &Args,
) -> Result<(), Spent>
    requires cell { seat.old.cell ≡ cell.now.id }
    requires may { MayEndTally seat.old task args.now }
    ensures ended { IfOk result (λ _. EndsTally seat.old task seat.new) }
    ensures spent { OnErr result (Stranded seat.old seat.new) }
{
    let _ = args;
    match turn(rt, cell, seat, Op::TallyEnd { task }) {
        Ok(_) => Ok(()),
        Err(spent) => Err(spent),
    }
}

/// A tally runs: it takes both, adds to its cell, and ends.
pub(crate) fn tally<R: Wait>(
    rt: &R,
    cell: &TurnCell<Journaled>,
    seat: &mut TurnSeat<Journaled>,
    task: TaskHandle,
    args: &Args,
) -> Result<(), Spent>
    requires cell { seat.old.cell ≡ cell.now.id }
    requires work { AtWork seat.old task.0 (work_of Tally args.now) }
    ensures tallied { IfOk result (λ _. Tallies seat.old task seat.new) }
    ensures spent { OnErr result (Stranded seat.old seat.new) }
{
    match add_up(rt, cell, seat, task, args) {
        Ok(()) => end_tally(rt, cell, seat, task, args),
        Err(spent) => Err(spent),
    }
}
