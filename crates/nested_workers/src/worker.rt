//! A worker's rounds, in each of which its task may start others.

ghost use Rattle.std.specs.Prelude.{◌≡◌, true, IfOk, OnErr, [], ◌∷◌};
ghost use Rattle.action_fn.specs.Answers.{is_pure};
ghost use Rattle.workload_runners.specs.Rounds.{AtRest, AtWork};
ghost use Rattle.workload_runners.specs.Steps.{work_of, PickEnds, Finishes};
ghost use Rattle.workload_runners.specs.Turns.{SameNodeSeat};
ghost use Rattle.nested_workers.specs.Rounds.{NestsTo, RanTask, NestedRounded};

use crate::held::{Began, Held};
use crate::starter::Starter;
use action_fn::Finished;
use mtapi_values::{Args, Kind, TaskHandle};
use node_core::{Journaled, Op, Reply};
use std::marker::Brand;
use std::sync::{Mutex, Wait};
use turn_cell::{NO_END, Spent, TurnCell, TurnSeat};
use turn_looks::{Pause, ServeEnd, turn};
use workload_runners::{Serve, Served};

/// Runs the tasks of one worker.
pub trait RunTasks {
    /// Answers a pure kind for these arguments, as a set of actions does. It may start tasks.
    fn run<R: Wait, B: Began>(
        &mut self,
        rt: &R,
        starter: &Starter<B>,
        kind: Kind,
        args: Args,
    ) -> Finished
        requires { is_pure kind ≡ true }
        ensures kind { result.kind ≡ kind }
        ensures args { result.args ≡ args };
}

// Whether the arguments alone settle what this kind answers.
fn is_pure(kind: Kind) -> bool
    ensures { result ≡ is_pure kind }
{
    !matches!(kind, Kind::Watch | Kind::Tally)
}

// The worker asks for a task.
fn pick<R: Wait>(
    rt: &R,
    cell: &TurnCell<Journaled>,
    seat: &mut TurnSeat<Journaled>,
) -> Result<Reply, Spent>
    requires cell { seat.old.cell ≡ cell.now.id }
    requires rest { AtRest seat.old }
    ensures picked { IfOk result (λ r. PickEnds seat.old r seat.new) }
    ensures same { SameNodeSeat seat.old seat.new }
{
    match turn(rt, cell, seat, Op::Pick) {
        Ok(reply) => Ok(reply),
        Err(spent) => Err(spent),
    }
}

// The worker brings the answer to its task.
fn finish<R: Wait>(
    rt: &R,
    cell: &TurnCell<Journaled>,
    seat: &mut TurnSeat<Journaled>,
    task: TaskHandle,
    done: Finished,
) -> Result<(), Spent>
    requires cell { seat.old.cell ≡ cell.now.id }
    requires work { AtWork seat.old task.0 (work_of done.kind done.args) }
    ensures finished { IfOk result (λ _. Finishes seat.old task done seat.new) }
    ensures same { SameNodeSeat seat.old seat.new }
{
    match turn(rt, cell, seat, Op::Finish { task, done }) {
        Ok(_) => Ok(()),
        Err(spent) => Err(spent),
    }
}

// The worker runs the task that it took, which may start others, and ends it. The seat as it is now is named by a type.
fn act_since<B: Began, R: Wait, A: RunTasks>(
    rt: &R,
    cell: &TurnCell<Journaled>,
    seat: TurnSeat<Journaled>,
    acts: &mut A,
    task: TaskHandle,
    kind: Kind,
    args: Args,
) -> (TurnSeat<Journaled>, Result<(), Spent>)
    requires cell { seat.cell ≡ cell.now.id }
    requires pure { is_pure kind ≡ true }
    requires work { AtWork seat task.0 (work_of kind args) }
    requires began { B.began ≡ seat ∷ [] }
    ensures ran { IfOk result.1 (λ _. RanTask seat task result.0) }
    ensures same { SameNodeSeat seat result.0 }
{
    let starter = Starter {
        held: Mutex::new(Held::<B>::new(cell, seat)),
    };
    let done = acts.run(rt, &starter, kind, args);
    let Starter { held } = starter;
    let mut seat = held.into_inner().into_seat();
    let ended = finish(rt, cell, &mut seat, task, done);
    (seat, ended)
}

// The same.
fn act<R: Wait, A: RunTasks>(
    rt: &R,
    cell: &TurnCell<Journaled>,
    seat: TurnSeat<Journaled>,
    acts: &mut A,
    task: TaskHandle,
    kind: Kind,
    args: Args,
) -> (TurnSeat<Journaled>, Result<(), Spent>)
    requires cell { seat.cell ≡ cell.now.id }
    requires pure { is_pure kind ≡ true }
    requires work { AtWork seat task.0 (work_of kind args) }
    ensures ran { IfOk result.1 (λ _. RanTask seat task result.0) }
    ensures same { SameNodeSeat seat result.0 }
{
    act_since::<Brand, R, A>(rt, cell, seat, acts, task, kind, args)
}

// A worker that found no task waits once. Before its first wait since it ended one, it tells those that wait for ends.
fn rest<R: Wait>(rt: &R, cell: &TurnCell<Journaled>, pause: &mut Pause) {
    if pause.is_new() {
        cell.ends().tell(NO_END);
    }
    pause.wait_for(rt, cell.work());
}

// One round: the worker picks, runs what it took, and ends it. How its service ended, where it did. A task of a kind that it can't run it leaves.
fn round<R: Wait, A: RunTasks>(
    rt: &R,
    cell: &TurnCell<Journaled>,
    seat: TurnSeat<Journaled>,
    acts: &mut A,
    pause: &mut Pause,
) -> (TurnSeat<Journaled>, Option<ServeEnd>)
    requires cell { seat.cell ≡ cell.now.id }
    requires rest { AtRest seat }
    ensures { NestedRounded seat result.1 result.0 }
{
    let mut seat = seat;
    match pick(rt, cell, &mut seat) {
        Ok(
            Reply::Picked {
                task,
                action: _,
                kind,
                args,
            },
        ) => {
            if !is_pure(kind) {
                return (seat, Some(ServeEnd::Stopped));
            }
            pause.leave(cell.work());
            cell.work().pass_on();
            let (seat, ended) = act(rt, cell, seat, acts, task, kind, args);
            match ended {
                Ok(()) => {
                    cell.ends().tell(task.0);
                    (seat, None)
                }
                Err(spent) => (seat, Some(ServeEnd::Spent(spent))),
            }
        }
        Ok(Reply::Idle) => {
            rest(rt, cell, pause);
            (seat, None)
        }
        Ok(Reply::Stop) => (seat, Some(ServeEnd::Stopped)),
        Ok(_) => unreachable!(),
        Err(spent) => (seat, Some(ServeEnd::Spent(spent))),
    }
}

// Rounds, until the service ends.
fn rounds<R: Wait, A: RunTasks>(
    rt: &R,
    cell: &TurnCell<Journaled>,
    seat: TurnSeat<Journaled>,
    acts: &mut A,
) -> (TurnSeat<Journaled>, ServeEnd)
    requires cell { seat.cell ≡ cell.now.id }
    requires rest { AtRest seat }
    ensures { NestsTo seat result.1 result.0 }
{
    cell.work().join();
    let mut pause = Pause::new();
    let mut seat = seat;
    for _ in rt.forever() {
        let (back, end) = round(rt, cell, seat, acts, &mut pause);
        match end {
            None => seat = back,
            Some(end) => return (back, end),
        }
    }
    unreachable!()
}

/// What serves on a worker's seat: it takes tasks, runs them between its turns, and ends them, until a pick is answered Stop: that is once the
/// node closes and no task is left. Each task that runs may start others by the worker's seat.
///
/// A watch and a tally aren't answered by their arguments alone. It can't run them: where it takes one, it leaves it running, and ends.
#[derive(Drop)]
pub struct Nesting<A: RunTasks + Drop> {
    /// What runs its tasks.
    pub tasks: A,
}

impl<A: RunTasks + Drop> Serve for Nesting<A> {
    ghost use Rattle.nested_workers.specs.Rounds.{NestsAs};

    ghost rounds = { NestsAs };

    fn serve<R: Wait>(
        self,
        rt: &R,
        cell: &TurnCell<Journaled>,
        seat: TurnSeat<Journaled>,
    ) -> Served<Nesting<A>> {
        let Nesting { mut tasks } = self;
        match rounds(rt, cell, seat, &mut tasks) {
            (seat, ServeEnd::Stopped) => Served {
                seat,
                set: Nesting { tasks },
                spent: None,
            },
            (seat, ServeEnd::Spent(spent)) => Served {
                seat,
                set: Nesting { tasks },
                spent: Some(spent),
            },
        }
    }
}
