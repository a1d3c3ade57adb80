//! Workers: each takes tasks, runs their actions between its turns, and ends them.

ghost use Rattle.std.specs.Prelude.{◌≡◌, ◌<◌, Bool, Some, true, false, not, IfOk, OnErr};
ghost use Rattle.mtapi_values.specs.declared.kinds.Kind.TheVariants.{Watch, Tally};
ghost use Rattle.mtapi_values.specs.declared.ends.TaskEnd.{TaskEnd};
ghost use Rattle.mtapi_objects.specs.Tasks.{watch_looks};
ghost use Rattle.mtapi_machine.specs.declared.replies.Reply.TheVariants as said;
ghost use Rattle.workload_runners.specs.Turns.{AddsOwn};
ghost use Rattle.workload_runners.specs.Rounds.{AtRest, AtWork, Stranded, Rounded, WorkerAs};
ghost use Rattle.workload_runners.specs.Steps.{work_of, watch_work, PickEnds, Finishes, Asked, LookedOut, MayEnd, WorkerEnds, Watches, Acts, ServesTo};

use crate::tallies::tally;
use action_fn::{ActionSet, Finished};
use mtapi_values::{Args, Kind, TaskHandle};
use node_core::{Journaled, Op, Reply};
use std::marker::Model;
use std::sync::Wait;
use turn_cell::{NO_END, Spent, TurnCell, TurnSeat};
use turn_looks::{Pause, ServeEnd, turn};

// How often a watch with these arguments looks.
fn looks_of(args: &Args) -> Option<u32>
    ensures { result ≡ watch_looks args.now }
{
    match args.as_slice() {
        [most] if *most >= 0 && *most <= 64 => Some(*most as u32),
        _ => None,
    }
}

// The worker asks for a task.
fn pick<R: Wait>(
    rt: &R,
    cell: &TurnCell<Journaled>,
    seat: &mut TurnSeat<Journaled>,
) -> Result<Reply, Spent>
    requires cell { seat.old.cell ≡ cell.now.id }
    requires rest { AtRest seat.old }
    ensures picked { IfOk result (λ r. PickEnds seat.old r seat.new) }
    ensures spent { OnErr result (Stranded seat.old seat.new) }
{
    match turn(rt, cell, seat, Op::Pick) {
        Ok(reply) => Ok(reply),
        Err(spent) => Err(spent),
    }
}

// The worker brings the answer to its task.
fn finish<R: Wait>(
    rt: &R,
    cell: &TurnCell<Journaled>,
    seat: &mut TurnSeat<Journaled>,
    task: TaskHandle,
    done: Finished,
) -> Result<(), Spent>
    requires cell { seat.old.cell ≡ cell.now.id }
    requires work { AtWork seat.old task.0 (work_of done.kind done.args) }
    ensures finished { IfOk result (λ _. Finishes seat.old task done seat.new) }
    ensures spent { OnErr result (Stranded seat.old seat.new) }
{
    match turn(rt, cell, seat, Op::Finish { task, done }) {
        Ok(_) => Ok(()),
        Err(spent) => Err(spent),
    }
}

// What a question was answered.
fn reported(reply: &Reply) -> bool
    requires { (b : Bool) × (reply.now ≡ said.Asked b) }
    ensures { reply.now ≡ said.Asked result }
{
    match reply {
        Reply::Asked(reported) => *reported,
        _ => unreachable!(),
    }
}

// A watch asks once whether it is to stop.
fn ask<R: Wait>(
    rt: &R,
    cell: &TurnCell<Journaled>,
    seat: &mut TurnSeat<Journaled>,
    task: TaskHandle,
    args: &Args,
    looks: u32,
    most: u32,
) -> Result<bool, Spent>
    requires cell { seat.old.cell ≡ cell.now.id }
    requires looks { watch_looks args.now ≡ Some most }
    requires more { looks < most }
    requires work { AtWork seat.old task.0 (watch_work args.now looks false) }
    ensures asked { IfOk result (λ b. Asked seat.old task args.now looks b seat.new) }
    ensures spent { OnErr result (Stranded seat.old seat.new) }
{
    let _ = args;
    match turn(rt, cell, seat, Op::Asked { task }) {
        Ok(reply) => Ok(reported(&reply)),
        Err(spent) => Err(spent),
    }
}

// A watch asks until it is told to stop, or has looked as often as it may.
fn look_out<R: Wait>(
    rt: &R,
    cell: &TurnCell<Journaled>,
    seat: &mut TurnSeat<Journaled>,
    task: TaskHandle,
    args: &Args,
    most: u32,
) -> Result<(), Spent>
    requires cell { seat.old.cell ≡ cell.now.id }
    requires looks { watch_looks args.now ≡ Some most }
    requires work { AtWork seat.old task.0 (work_of Watch args.now) }
    ensures looked { IfOk result (λ _. LookedOut seat.old task args.now most seat.new) }
    ensures spent { OnErr result (Stranded seat.old seat.new) }
{
    for looks in 0..most {
        match ask(rt, cell, seat, task, args, looks, most) {
            Ok(reported) => {
                if reported {
                    return Ok(());
                }
            }
            Err(spent) => return Err(spent),
        }
    }
    Ok(())
}

// A watch ends.
fn end_watch<R: Wait>(
    rt: &R,
    cell: &TurnCell<Journaled>,
    seat: &mut TurnSeat<Journaled>,
    task: TaskHandle,
    args: &Args,
) -> Result<(), Spent>
    requires cell { seat.old.cell ≡ cell.now.id }
    requires may { MayEnd seat.old task args.now }
    ensures ended { IfOk result (λ _. WorkerEnds seat.old task seat.new) }
    ensures spent { OnErr result (Stranded seat.old seat.new) }
{
    let _ = args;
    match turn(rt, cell, seat, Op::WatchEnd { task }) {
        Ok(_) => Ok(()),
        Err(spent) => Err(spent),
    }
}

// A watch runs: it asks, and ends.
fn watch<R: Wait>(
    rt: &R,
    cell: &TurnCell<Journaled>,
    seat: &mut TurnSeat<Journaled>,
    task: TaskHandle,
    args: &Args,
) -> Result<(), Spent>
    requires cell { seat.old.cell ≡ cell.now.id }
    requires work { AtWork seat.old task.0 (work_of Watch args.now) }
    ensures watched { IfOk result (λ _. Watches seat.old task seat.new) }
    ensures spent { OnErr result (Stranded seat.old seat.new) }
{
    match looks_of(args) {
        Some(most) => {
            match look_out(rt, cell, seat, task, args, most) {
                Ok(()) => end_watch(rt, cell, seat, task, args),
                Err(spent) => Err(spent),
            }
        }
        None => end_watch(rt, cell, seat, task, args),
    }
}

// The worker runs the task that it took, and ends it.
fn act<R: Wait, A: ActionSet>(
    rt: &R,
    cell: &TurnCell<Journaled>,
    seat: &mut TurnSeat<Journaled>,
    acts: &mut A,
    task: TaskHandle,
    kind: Kind,
    args: Args,
) -> Result<(), Spent>
    requires cell { seat.old.cell ≡ cell.now.id }
    requires work { AtWork seat.old task.0 (work_of kind args) }
    ensures acted { IfOk result (λ _. Acts seat.old task seat.new) }
    ensures spent { OnErr result (Stranded seat.old seat.new) }
{
    match kind {
        Kind::Watch => watch(rt, cell, seat, task, &args),
        Kind::Tally => tally(rt, cell, seat, task, &args),
        _ => {
            let done = acts.run(rt, kind, args);
            finish(rt, cell, seat, task, done)
        }
    }
}

// A worker that found no task waits once. Before its first wait since it ended one, it tells those that wait for ends.
fn rest<R: Wait>(rt: &R, cell: &TurnCell<Journaled>, pause: &mut Pause) {
    if pause.is_new() {
        cell.ends().tell(NO_END);
    }
    pause.wait_for(rt, cell.work());
}

// One round: the worker picks, runs what it took, and ends it. False where it was told to stop.
fn round<R: Wait, A: ActionSet>(
    rt: &R,
    cell: &TurnCell<Journaled>,
    seat: &mut TurnSeat<Journaled>,
    acts: &mut A,
    pause: &mut Pause,
) -> Result<bool, Spent>
    requires cell { seat.old.cell ≡ cell.now.id }
    requires rest { AtRest seat.old }
    ensures rounded { IfOk result (λ b. Rounded seat.old b seat.new) }
    ensures spent { OnErr result (Stranded seat.old seat.new) }
{
    match pick(rt, cell, seat) {
        Ok(
            Reply::Picked {
                task,
                action: _,
                kind,
                args,
            },
        ) => {
            pause.leave(cell.work());
            cell.work().pass_on();
            match act(rt, cell, seat, acts, task, kind, args) {
                Ok(()) => {
                    cell.ends().tell(task.0);
                    Ok(true)
                }
                Err(spent) => Err(spent),
            }
        }
        Ok(Reply::Idle) => {
            rest(rt, cell, pause);
            Ok(true)
        }
        Ok(Reply::Stop) => Ok(false),
        Ok(_) => unreachable!(),
        Err(spent) => Err(spent),
    }
}

// Rounds, until the worker is told to stop.
fn rounds<R: Wait, A: ActionSet>(
    rt: &R,
    cell: &TurnCell<Journaled>,
    seat: &mut TurnSeat<Journaled>,
    acts: &mut A,
) -> Result<(), Spent>
    requires cell { seat.old.cell ≡ cell.now.id }
    requires rest { AtRest seat.old }
    ensures served { IfOk result (λ _. AddsOwn WorkerAs seat.old seat.new) }
    ensures spent { OnErr result (Stranded seat.old seat.new) }
{
    cell.work().join();
    let mut pause = Pause::new();
    for _ in rt.forever() {
        match round(rt, cell, seat, acts, &mut pause) {
            Ok(goes_on) => {
                if !goes_on {
                    return Ok(());
                }
            }
            Err(spent) => return Err(spent),
        }
    }
    unreachable!()
}

/// A worker of a node, which runs the actions of the tasks that it takes. Between its calls no task
/// runs on its seat, and contracts see it as that seat.
#[derive(Drop)]
pub struct Worker<'a> {
    cell: &'a TurnCell<Journaled>,
    seat: TurnSeat<Journaled>,
}

impl<'a> Model for Worker<'a> {
    ghost use Rattle.std.specs.Prelude.{◌≡◌};
    ghost use Rattle.workload_runners.specs.Turns.{Seat};
    ghost use Rattle.workload_runners.specs.Rounds.{AtRest};

    ghost Value = { Seat };

    ghost view = { λ w. w.seat };

    ghost invariant = { λ w. (w.seat.cell ≡ w.cell.now.id) × AtRest w.seat };
}

impl<'a> Worker<'a> {
    /// Makes a worker of a seat on which no task runs. The workers have the first seats.
    pub fn new(cell: &'a TurnCell<Journaled>, seat: TurnSeat<Journaled>) -> Worker<'a>
        requires cell { seat.cell ≡ cell.now.id }
        requires rest { AtRest seat }
        ensures { result ≡ seat }
    {
        Worker { cell, seat }
    }

    /// Takes tasks, runs their actions between its turns, and ends them, until a pick is answered
    /// Stop: that is once the node closes and no task is left.
    ///
    /// Stands for what the threads of an MTAPI node do; no function of MTAPI asks for it.
    ///
    /// # Errors
    ///
    /// - `ServeEnd::Spent`: the turns of the cell are used up. A task that it runs stays running
    ///   then.
    pub fn serve<R: Wait, A: ActionSet>(
        self,
        rt: &R,
        acts: &mut A,
    ) -> (TurnSeat<Journaled>, ServeEnd)
        ensures { ServesTo self.entry result.1 result.0 }
    {
        let Worker { cell, mut seat } = self;
        match rounds(rt, cell, &mut seat, acts) {
            Ok(()) => (seat, ServeEnd::Stopped),
            Err(spent) => (seat, ServeEnd::Spent(spent)),
        }
    }
}
