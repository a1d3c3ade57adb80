//! The one loop of looks.

ghost use Rattle.std.specs.Prelude.{◌≡◌, ◌<◌, ◌↔◌, Bool, Some, None, IfOk, OnErr, IsTrue};
ghost use Rattle.mtapi_values.specs.Timeouts.{looks_of};
ghost use Rattle.turn_looks.specs.Looks.{Looked, StillLooking};

use crate::ends::Awaiting;
use crate::pauses::Pause;
use crate::turns::turn;
use history::Object;
use mtapi_values::Timeout;
use std::sync::Wait;
use turn_cell::{NO_END, Spent, TurnCell, TurnSeat};

/// What a call looks for.
pub trait LookFor<O: Object> {
    // What a look asks, the last one or not.
    ghost op_of: { Self → Bool → O.Op };

    // The reply that means "not yet".
    ghost waits: { O.Reply };

    /// The op of one look, the last one or not.
    fn op(&self, last: bool) -> O::Op
        ensures { result ≡ op_of self.now last };

    /// Whether the reply means "not yet".
    fn is_waiting(&self, reply: &O::Reply) -> bool
        ensures { IsTrue result ↔ (reply.now ≡ waits) };

    /// The number of the end for which it looks, `EACH_END` where each may be it, or `NO_END` where none is. The loop of looks sleeps long
    /// where a ring of the bell for ends is sure.
    fn awaited(&self) -> u64 {
        NO_END
    }
}

// At most so many looks.
fn look_within<O: Object, W: LookFor<O>, R: Wait>(
    rt: &R,
    cell: &TurnCell<O>,
    seat: &mut TurnSeat<O>,
    wanted: &W,
    most: u64,
) -> Result<O::Reply, Spent>
    requires cell { seat.old.cell ≡ cell.now.id }
    requires some { 0 < most }
    ensures answered { IfOk result (λ r. Looked O.legal (W.op_of wanted.now) W.waits (Some most) seat.old seat.new r) }
    ensures spent { OnErr result (StillLooking O.legal (W.op_of wanted.now) W.waits (Some most) seat.old seat.new) }
{
    let mut pause = Pause::within_limit();
    for i in 0..most {
        let last = i + 1 == most;
        match turn(rt, cell, seat, wanted.op(last)) {
            Ok(reply) => {
                if last {
                    return Ok(reply);
                }
                if !wanted.is_waiting(&reply) {
                    return Ok(reply);
                }
            }
            Err(spent) => return Err(spent),
        }
        pause.wait(rt);
    }
    unreachable!()
}

// As many looks as it takes.
fn look_on<O: Object, W: LookFor<O>, R: Wait>(
    rt: &R,
    cell: &TurnCell<O>,
    seat: &mut TurnSeat<O>,
    wanted: &W,
) -> Result<O::Reply, Spent>
    requires { seat.old.cell ≡ cell.now.id }
    ensures answered { IfOk result (λ r. Looked O.legal (W.op_of wanted.now) W.waits None seat.old seat.new r) }
    ensures spent { OnErr result (StillLooking O.legal (W.op_of wanted.now) W.waits None seat.old seat.new) }
{
    let mut awaiting = Awaiting::new(cell.ends(), wanted.awaited());
    for _ in rt.forever() {
        match turn(rt, cell, seat, wanted.op(false)) {
            Ok(reply) => {
                if !wanted.is_waiting(&reply) {
                    awaiting.end();
                    return Ok(reply);
                }
            }
            Err(spent) => {
                awaiting.end();
                return Err(spent);
            }
        }
        awaiting.wait(rt);
    }
    unreachable!()
}

/// Looks until there is an answer, or until the looks are used up. Each look is one turn. Without a limit it sleeps between two looks
/// until the cell's bell for ends rings.
///
/// # Errors
///
/// - `Spent`: the turns of the cell are used up. Each look before, fewer than the timeout allows,
///   answered "not yet".
pub fn look<O: Object, W: LookFor<O>, R: Wait>(
    rt: &R,
    cell: &TurnCell<O>,
    seat: &mut TurnSeat<O>,
    wanted: &W,
    timeout: Timeout,
) -> Result<O::Reply, Spent>
    requires { seat.old.cell ≡ cell.now.id }
    ensures answered { IfOk result (λ r. Looked O.legal (W.op_of wanted.now) W.waits (looks_of timeout) seat.old seat.new r) }
    ensures spent { OnErr result (StillLooking O.legal (W.op_of wanted.now) W.waits (looks_of timeout) seat.old seat.new) }
{
    match timeout.looks() {
        Some(most) => look_within(rt, cell, seat, wanted, most),
        None => look_on(rt, cell, seat, wanted),
    }
}
