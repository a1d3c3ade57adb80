//! One turn of a seat.

ghost use Rattle.std.specs.Prelude.{◌≡◌, IfOk, OnErr};
ghost use Rattle.turn_looks.specs.Turns.{Turned, Unturned};

use history::Object;
use std::sync::Wait;
use turn_cell::{Spent, TurnCell, TurnSeat};

/// One turn: the op enters the history, after what others had entered there.
///
/// # Errors
///
/// - `Spent`: the turns of the cell are used up. Nothing enters the history.
pub fn turn<O: Object, R: Wait>(
    rt: &R,
    cell: &TurnCell<O>,
    seat: &mut TurnSeat<O>,
    op: O::Op,
) -> Result<O::Reply, Spent>
    requires { seat.old.cell ≡ cell.now.id }
    ensures turned { IfOk result (λ r. Turned O.legal seat.old op r seat.new) }
    ensures spent { OnErr result (Unturned seat.old seat.new) }
{
    seat.known();
    cell.call(rt, seat, op)
}
