//! The looks of every wait and lock.

ghost use Rattle.std.specs.Prelude.{◌≡◌, IfOk, OnErr};
ghost use Rattle.mtapi_values.specs.Timeouts.{looks_of};
ghost use Rattle.workload_runners.specs.Looks.{NodeLooked, NodeStillLooking};

use mtapi_values::Timeout;
use node_core::{Journaled, Op, Reply};
use std::sync::Wait;
use turn_cell::{EACH_END, NO_END, Spent, TurnCell, TurnSeat};
use turn_looks::LookFor;
use workload_runs::Wanted;

// What the loop of looks asks for a call.
#[derive(Clone, Copy, Drop)]
struct Awaited {
    wanted: Wanted,
}

impl LookFor<Journaled> for Awaited {
    ghost use Rattle.std.specs.Prelude.{Bool};
    ghost use Rattle.mtapi_machine.specs.declared.replies.Reply.TheVariants.{Pending};
    ghost use Rattle.workload_runs.specs.Wants.{op_of_look};

    ghost op_of = { λ a last. op_of_look a.wanted last };

    ghost waits = { Pending };

    fn op(&self, last: bool) -> Op {
        self.wanted.op(last)
    }

    fn is_waiting(&self, reply: &Reply) -> bool {
        matches!(reply, Reply::Pending)
    }

    fn awaited(&self) -> u64 {
        match self.wanted {
            Wanted::Task(task) => task.0,
            Wanted::AllMembers(_) | Wanted::FirstMember(_) => EACH_END,
            _ => NO_END,
        }
    }
}

/// Looks until there is an answer, or until the looks are used up.
pub fn look<R: Wait>(
    rt: &R,
    cell: &TurnCell<Journaled>,
    seat: &mut TurnSeat<Journaled>,
    wanted: Wanted,
    timeout: Timeout,
) -> Result<Reply, Spent>
    requires cell { seat.old.cell ≡ cell.now.id }
    ensures answered { IfOk result (λ r. NodeLooked wanted (looks_of timeout) seat.old seat.new r) }
    ensures spent { OnErr result (NodeStillLooking wanted (looks_of timeout) seat.old seat.new) }
{
    turn_looks::look(rt, cell, seat, &Awaited { wanted }, timeout)
}
