//! Callers: each call makes one turn for each look.

ghost use Rattle.std.specs.Prelude.{◌≡◌, ◌↔◌, Bool, Err, IfOk, OnErr, IsTrue};
ghost use Rattle.mtapi_values.specs.Timeouts.{looks_of};
ghost use Rattle.turn_looks.specs.Turns.{SameSeat, Turned, Unturned};
ghost use Rattle.mcapi_msg.specs.declared.ops.MsgOp.TheVariants as op;
ghost use Rattle.mcapi_msg.specs.declared.statuses.MsgStatus.TheVariants as status;
ghost use Rattle.mcapi_msg.specs.Legal.{MsgLegal};
ghost use Rattle.mcapi_msg.specs.Answers.{Done, NamesEndpoint, Hands, IsAnswer, MsgAnsweredBy, MsgCalled, Received, TimedOut, RanOut};

use crate::messages::{EndpointHandle, Msg};
use crate::ops::{MsgOp, MsgReply};
use crate::post::Post;
use crate::statuses::MsgStatus;
use mtapi_values::Timeout;
use std::marker::Model;
use std::sync::Wait;
use turn_cell::{Spent, TurnCell, TurnSeat};
use turn_looks::{LookFor, look, turn};

/// A message for this endpoint.
#[derive(Clone, Copy, Debug, Drop, PartialEq, Eq)]
struct Arrival {
    at: EndpointHandle,
}

impl LookFor<Post> for Arrival {
    ghost use Rattle.std.specs.Prelude.{Bool};
    ghost use Rattle.mcapi_msg.specs.declared.ops.MsgOp.TheVariants.{Recv};
    ghost use Rattle.mcapi_msg.specs.declared.ops.MsgReply.TheVariants.{Pending};

    ghost op_of = { λ w last. Recv w.at last };

    ghost waits = { Pending };

    fn op(&self, last: bool) -> MsgOp {
        MsgOp::Recv { at: self.at, last }
    }

    fn is_waiting(&self, reply: &MsgReply) -> bool {
        matches!(reply, MsgReply::Pending)
    }
}

// The answer of a call that gives no value.
fn done(reply: Result<MsgReply, Spent>) -> Result<(), MsgStatus>
    requires { IfOk reply (IsAnswer Done) }
    ensures { MsgAnsweredBy Done reply result }
{
    match reply {
        Ok(MsgReply::Ok) => Ok(()),
        Ok(MsgReply::Refused(status)) => Err(status),
        Ok(_) => unreachable!(),
        Err(_) => Err(MsgStatus::Spent),
    }
}

// The answer of a call that gives an endpoint.
fn named(reply: Result<MsgReply, Spent>) -> Result<EndpointHandle, MsgStatus>
    requires { IfOk reply (IsAnswer NamesEndpoint) }
    ensures { MsgAnsweredBy NamesEndpoint reply result }
{
    match reply {
        Ok(MsgReply::Handle(handle)) => Ok(handle),
        Ok(MsgReply::Refused(status)) => Err(status),
        Ok(_) => unreachable!(),
        Err(_) => Err(MsgStatus::Spent),
    }
}

// The answer of a call that gives a message.
fn handed(reply: Result<MsgReply, Spent>) -> Result<(u32, u32, Msg), MsgStatus>
    requires { IfOk reply (IsAnswer Hands) }
    ensures { MsgAnsweredBy Hands reply result }
{
    match reply {
        Ok(
            MsgReply::Got {
                sender,
                priority,
                msg,
            },
        ) => Ok((sender, priority, msg)),
        Ok(MsgReply::Refused(status)) => Err(status),
        Ok(_) => unreachable!(),
        Err(_) => Err(MsgStatus::Spent),
    }
}

// Wakes those that wait for a message.
fn wake(cell: &TurnCell<Post>) {
    if cell.ends().is_heard() {
        cell.ends().ring_all();
    }
}

/// A caller of the endpoints of a post. Contracts see its seat.
#[derive(Drop)]
pub struct Mailer<'a> {
    cell: &'a TurnCell<Post>,
    seat: TurnSeat<Post>,
}

impl<'a> Model for Mailer<'a> {
    ghost use Rattle.std.specs.Prelude.{◌≡◌};
    ghost use Rattle.mcapi_msg.specs.Answers.{PostSeat};

    ghost Value = { PostSeat };

    ghost view = { λ m. m.seat };

    ghost invariant = { λ m. m.seat.cell ≡ m.cell.now.id };
}

impl<'a> Mailer<'a> {
    /// A caller with this seat of the cell.
    pub fn new(cell: &'a TurnCell<Post>, seat: TurnSeat<Post>) -> Mailer<'a>
        requires { seat.cell ≡ cell.now.id }
        ensures { result ≡ seat }
    {
        Mailer { cell, seat }
    }

    /// The seat.
    pub fn into_seat(self) -> TurnSeat<Post>
        ensures { result ≡ self.entry }
    {
        let Mailer { cell: _, seat } = self;
        seat
    }

    // A call without looks: one turn.
    fn once<R: Wait>(&mut self, rt: &R, op: MsgOp) -> Result<MsgReply, Spent>
        ensures turned { IfOk result (λ r. Turned MsgLegal self.old op r self.new) }
        ensures spent { OnErr result (Unturned self.old self.new) }
    {
        turn(rt, self.cell, &mut self.seat, op)
    }

    /// Makes an endpoint with this port, which the caller's seat then owns.
    ///
    /// # Errors
    ///
    /// - `PortTaken`: a live endpoint has this port.
    /// - `EndpointLimit`: there is no room for a further endpoint.
    /// - `Spent`: the turns of the cell are used up. Nothing enters the history.
    pub fn open<R: Wait>(&mut self, rt: &R, port: u32) -> Result<EndpointHandle, MsgStatus>
        ensures called { MsgCalled NamesEndpoint (op.Open port) self.old self.new result }
        ensures same { SameSeat self.old self.new }
        ensures spent { result ≡ Err status.Spent → Unturned self.old self.new }
    {
        named(self.once(rt, MsgOp::Open { port }))
    }

    /// The live endpoint with this port.
    ///
    /// # Errors
    ///
    /// - `PortUnknown`: no live endpoint has this port.
    /// - `Spent`: the turns of the cell are used up. Nothing enters the history.
    pub fn find<R: Wait>(&mut self, rt: &R, port: u32) -> Result<EndpointHandle, MsgStatus>
        ensures called { MsgCalled NamesEndpoint (op.Find port) self.old self.new result }
        ensures same { SameSeat self.old self.new }
        ensures spent { result ≡ Err status.Spent → Unturned self.old self.new }
    {
        named(self.once(rt, MsgOp::Find { port }))
    }

    /// Puts a message at an endpoint, with a priority of 0 to 3, of which 0 goes first.
    ///
    /// # Errors
    ///
    /// - `EndpointInvalid`: the handle is no live endpoint's.
    /// - `PriorityRange`: the priority isn't 0 to 3.
    /// - `Full`: as many messages wait at the endpoint as may.
    /// - `Spent`: the turns of the cell are used up. Nothing enters the history.
    pub fn send<R: Wait>(
        &mut self,
        rt: &R,
        to: EndpointHandle,
        priority: u32,
        msg: Msg,
    ) -> Result<(), MsgStatus>
        ensures called { MsgCalled Done (op.Send to priority msg) self.old self.new result }
        ensures same { SameSeat self.old self.new }
        ensures spent { result ≡ Err status.Spent → Unturned self.old self.new }
    {
        let reply = self.once(rt, MsgOp::Send { to, priority, msg });
        wake(self.cell);
        done(reply)
    }

    /// Takes the message that goes first from an endpoint of this seat, and gives its sender, its priority and its bytes.
    ///
    /// # Errors
    ///
    /// - `EndpointInvalid`: the handle is no live endpoint's.
    /// - `NotOwner`: another seat opened the endpoint.
    /// - `Timeout`: all the looks that the timeout allows were made, and none found a message.
    /// - `Spent`: the turns of the cell are used up. Each look before found no message.
    pub fn recv<R: Wait>(
        &mut self,
        rt: &R,
        at: EndpointHandle,
        timeout: Timeout,
    ) -> Result<(u32, u32, Msg), MsgStatus>
        ensures same { SameSeat self.old self.new }
        ensures received { Received at (looks_of timeout) self.old self.new result }
        ensures timeout { result ≡ Err status.Timeout → TimedOut at (looks_of timeout) self.old self.new }
        ensures spent { result ≡ Err status.Spent → RanOut at (looks_of timeout) self.old self.new }
    {
        handed(look(rt, self.cell, &mut self.seat, &Arrival { at }, timeout))
    }

    /// Gives up an endpoint of this seat, with the messages that wait there.
    ///
    /// # Errors
    ///
    /// - `EndpointInvalid`: the handle is no live endpoint's.
    /// - `NotOwner`: another seat opened the endpoint.
    /// - `Spent`: the turns of the cell are used up. Nothing enters the history.
    pub fn shut<R: Wait>(&mut self, rt: &R, at: EndpointHandle) -> Result<(), MsgStatus>
        ensures called { MsgCalled Done (op.Shut at) self.old self.new result }
        ensures same { SameSeat self.old self.new }
        ensures spent { result ≡ Err status.Spent → Unturned self.old self.new }
    {
        done(self.once(rt, MsgOp::Shut { at }))
    }
}
