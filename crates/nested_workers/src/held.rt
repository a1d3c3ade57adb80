//! The seat of a worker while a task runs on it. Its type keeps that nothing but starts has been asked for since.

ghost use Rattle.std.specs.Prelude.{◌≡◌, List, [], ◌∷◌, IfOk, OnErr, true};
ghost use Rattle.mtapi_machine.specs.declared.replies.Reply.{Reply};
ghost use Rattle.workload_runners.specs.Turns.{Seat, NodeTurned, NodeUnturned};
ghost use Rattle.workload_runners.specs.Replies.{handle_told, mtapi_standard, says_something, fits_op};
ghost use Rattle.sched_workers.specs.Answers.{AnsweredBy, Called};
ghost use Rattle.nested_workers.specs.Starts.{AddsStarts, Since, is_start};

use mtapi_values::MtapiStatus;
use node_core::{Journaled, Op, Reply};
use std::marker::{Brand, PhantomData};
use std::sync::Wait;
use turn_cell::{Spent, TurnCell, TurnSeat};
use turn_looks::turn;
use workload_runners::{affected_by, wake};

/// The seat as it was when its task began, as the proofs know it. A lock knows of its value only what the type says, so it is named by a type.
pub trait Began {
    ghost began: { List Seat };
}

impl Began for Brand {
    ghost began = { [] };
}

/// The seat, which asked for starts of tasks since then, and for nothing else.
#[derive(Drop)]
pub struct Held<'a, B: Began> {
    cell: &'a TurnCell<Journaled>,
    seat: TurnSeat<Journaled>,
    of: PhantomData<B>,
    ghost of_cell: { seat.cell ≡ cell.now.id },
    ghost since: { ∥ Since B.began seat ∥₁ },
}

// The handle that an op gives.
fn handle_of(reply: Result<Reply, Spent>) -> Result<u64, MtapiStatus>
    requires { IfOk reply (λ r. says_something mtapi_standard handle_told r ≡ true) }
    ensures { AnsweredBy mtapi_standard handle_told reply result }
{
    match reply {
        Ok(Reply::Handle(handle)) => Ok(handle),
        Ok(Reply::Mtapi(status)) => Err(status),
        Ok(_) => unreachable!(),
        Err(_) => Err(MtapiStatus::ErrSpent),
    }
}

// One turn. What was asked may be work for a worker that sleeps.
fn once<R: Wait>(
    rt: &R,
    cell: &TurnCell<Journaled>,
    seat: &mut TurnSeat<Journaled>,
    op: Op,
) -> Result<Reply, Spent>
    requires cell { seat.old.cell ≡ cell.now.id }
    requires start { is_start op ≡ true }
    ensures turned { IfOk result (λ r. NodeTurned seat.old op r seat.new) }
    ensures spent { OnErr result (NodeUnturned seat.old seat.new) }
    ensures fits { IfOk result (λ r. fits_op op r ≡ true) }
{
    let affected = affected_by(&op);
    let reply = turn(rt, cell, seat, op);
    wake(cell, affected);
    reply
}

// One turn that starts a task.
fn started<R: Wait>(
    rt: &R,
    cell: &TurnCell<Journaled>,
    seat: &mut TurnSeat<Journaled>,
    op: Op,
) -> Result<u64, MtapiStatus>
    requires cell { seat.old.cell ≡ cell.now.id }
    requires start { is_start op ≡ true }
    requires fits { (r : Reply) → fits_op op r ≡ says_something mtapi_standard handle_told r }
    ensures { AddsStarts seat.old seat.new }
{
    handle_of(once(rt, cell, seat, op))
}

impl<'a, B: Began> Held<'a, B> {
    // A seat on which a task begins.
    pub(crate) fn new(cell: &'a TurnCell<Journaled>, seat: TurnSeat<Journaled>) -> Held<'a, B>
        requires cell { seat.cell ≡ cell.now.id }
        requires began { B.began ≡ seat ∷ [] }
    {
        Held {
            cell,
            seat,
            of: PhantomData,
        }
    }

    // Gives the seat back.
    pub(crate) fn into_seat(self) -> TurnSeat<Journaled>
        ensures { Since B.began result }
    {
        let Held {
            cell: _,
            seat,
            of: _,
        } = self;
        seat
    }

    // One turn that starts a task.
    pub(crate) fn start<R: Wait>(&mut self, rt: &R, op: Op) -> Result<u64, MtapiStatus>
        requires start { is_start op ≡ true }
        requires fits { (r : Reply) → fits_op op r ≡ says_something mtapi_standard handle_told r }
    {
        started(rt, self.cell, &mut self.seat, op)
    }
}
