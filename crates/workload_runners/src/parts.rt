//! A part of a workload, carried out by the holder of a caller's seat.

ghost use Rattle.std.specs.Prelude.{◌≡◌, true, false, [], None, Some, IfOk};
ghost use Rattle.workload_runners.specs.Turns.{SameNodeSeat, AddsOwn};
ghost use Rattle.workload_runners.specs.Carries.{OpensAs, MainAs, CallerAs, is_ok};
ghost use Rattle.workload_runners.specs.Parts.{CameBack, IsClosed};

use crate::crew::callers::closed;
use crate::crew::holder::{Held, Holder};
use crate::looks::look;
use crate::statements::{Stop, carry_out};
use mtapi_values::Timeout;
use node_core::{Journaled, Op, Reply};
use std::alloc::Global;
use std::sync::Wait;
use turn_cell::{Spent, TurnCell, TurnSeat};
use turn_looks::turn;
use workload_file::{Part, Statement};
use workload_runs::{Wanted, has_begin};

/// A seat whose holder has made its calls, and why it stopped before their end.
#[derive(Drop)]
pub struct Back {
    pub seat: TurnSeat<Journaled>,
    pub stop: Option<Stop>,
}

// A seat whose holder had to stop.
fn stopped(seat: TurnSeat<Journaled>, stop: Stop) -> Back
    ensures { result ≡ record { seat = seat; stop = Some stop } }
{
    Back {
        seat,
        stop: Some(stop),
    }
}

// Main opens the node, and lets the others enter where no statement does.
fn initialize<R: Wait>(
    rt: &R,
    cell: &TurnCell<Journaled>,
    seat: &mut TurnSeat<Journaled>,
    begins: bool,
) -> Result<(), Spent>
    requires cell { seat.old.cell ≡ cell.now.id }
    ensures opened { IfOk result (λ _. AddsOwn (OpensAs begins) seat.old seat.new) }
    ensures same { SameNodeSeat seat.old seat.new }
{
    match turn(rt, cell, seat, Op::Initialize) {
        Ok(_) => {
            if begins {
                return Ok(());
            }
            match turn(rt, cell, seat, Op::Release) {
                Ok(_) => Ok(()),
                Err(spent) => Err(spent),
            }
        }
        Err(spent) => Err(spent),
    }
}

// Main opens the node, and carries its part out.
fn main_call<R: Wait>(
    rt: &R,
    alloc: Global,
    cell: &TurnCell<Journaled>,
    seat: TurnSeat<Journaled>,
    statements: &[Statement],
) -> Back
    requires cell { seat.cell ≡ cell.now.id }
    ensures { CameBack (MainAs statements.now) seat result }
{
    let mut seat = seat;
    // Room for every handle is had before the first call, so that no call is missing in the middle.
    let Ok(mut bound) = Vec::with_capacity(alloc, statements.len()) else {
        return stopped(seat, Stop::Memory);
    };
    let begins = has_begin(statements);
    match initialize(rt, cell, &mut seat, begins) {
        Ok(()) => match carry_out(rt, cell, &mut seat, statements, &mut bound) {
            Ok(()) => Back { seat, stop: None },
            Err(stop) => stopped(seat, stop),
        },
        Err(spent) => stopped(seat, Stop::Spent(spent)),
    }
}

// Where main had to stop it begins the end, so that nobody waits at the entrance any more.
fn after_main<R: Wait>(rt: &R, cell: &TurnCell<Journaled>, back: Back) -> Held<Option<Stop>>
    requires { back.seat.cell ≡ cell.now.id }
    ensures { IsClosed back result }
{
    let Back { seat, stop } = back;
    match stop {
        None => Held { seat, told: None },
        Some(stop) => Held {
            seat: closed(rt, cell, seat),
            told: Some(stop),
        },
    }
}

// A further caller enters, and carries its part out.
fn call_part<R: Wait>(
    rt: &R,
    alloc: Global,
    cell: &TurnCell<Journaled>,
    seat: TurnSeat<Journaled>,
    part: &Part,
) -> Back
    requires cell { seat.cell ≡ cell.now.id }
    ensures { CameBack (CallerAs part.now.statements) seat result }
{
    let mut seat = seat;
    // Room for every handle is had before it enters, so that no call is missing in the middle.
    let Ok(mut bound) = Vec::with_capacity(alloc, part.statements.as_slice().len()) else {
        return stopped(seat, Stop::Memory);
    };
    match look(rt, cell, &mut seat, Wanted::Entrance, Timeout::Infinite) {
        Ok(reply) => {
            if !is_ok(&reply) {
                return Back { seat, stop: None };
            }
            match carry_out(rt, cell, &mut seat, part.statements.as_slice(), &mut bound) {
                Ok(()) => Back { seat, stop: None },
                Err(stop) => stopped(seat, stop),
            }
        }
        Err(spent) => stopped(seat, Stop::Spent(spent)),
    }
}

fn is_ok(reply: &Reply) -> bool
    ensures { result ≡ is_ok reply.now }
{
    matches!(reply, Reply::Ok)
}

/// Main's part. What is told is why it had to stop.
#[derive(Drop)]
pub struct MainPart<'a> {
    pub alloc: Global,
    pub part: &'a Part,
}

impl<'a> Holder for MainPart<'a> {
    ghost use Rattle.std.specs.Prelude.{◌≡◌, None};
    ghost use Rattle.workload_runners.specs.Carries.{MainAs};

    type Told = Option<Stop>;

    ghost promise = { λ p t who stop es. stop ≡ None → MainAs p.part.now.statements who es };

    fn hold<R: Wait>(
        self,
        rt: &R,
        cell: &TurnCell<Journaled>,
        seat: TurnSeat<Journaled>,
    ) -> Held<Option<Stop>> {
        let MainPart { alloc, part } = self;
        let back = main_call(rt, alloc, cell, seat, part.statements.as_slice());
        after_main(rt, cell, back)
    }
}

/// The part of a further caller. What is told is why it had to stop.
#[derive(Drop)]
pub struct CallerPart<'a> {
    pub alloc: Global,
    pub part: &'a Part,
}

impl<'a> Holder for CallerPart<'a> {
    ghost use Rattle.std.specs.Prelude.{◌≡◌, None};
    ghost use Rattle.workload_runners.specs.Carries.{CallerAs};

    type Told = Option<Stop>;

    ghost promise = { λ p t who stop es. stop ≡ None → CallerAs p.part.now.statements who es };

    fn hold<R: Wait>(
        self,
        rt: &R,
        cell: &TurnCell<Journaled>,
        seat: TurnSeat<Journaled>,
    ) -> Held<Option<Stop>> {
        let CallerPart { alloc, part } = self;
        let Back { seat, stop } = call_part(rt, alloc, cell, seat, part);
        Held { seat, told: stop }
    }
}
