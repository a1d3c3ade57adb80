//! Waits with a deadline by a clock.

ghost use Rattle.std.specs.Prelude.{◌≡◌, ℕ, true, Some, IfOk, OnErr};
ghost use Rattle.mtapi_machine.specs.Kept.{is_pending};
ghost use Rattle.workload_runners.specs.Looks.{NodeLooked, NodeStillLooking};
ghost use Rattle.workload_runners.specs.Replies.{done, end_in_reply, given, mtapi_standard, is_answer_found};
ghost use Rattle.workload_runs.specs.declared.calls.Wanted.TheVariants.{Task, AllMembers, FirstMember};
ghost use Rattle.workload_runs.specs.Wants.{IsTimed};
ghost use Rattle.sched_workers.specs.Answers.{WaitedUntil};

use crate::callers::Caller;
use crate::callers::answers::{done, ended, given};
use crate::deadlines::Deadline;
use mtapi_values::{GroupHandle, MtapiStatus, TaskEnd, TaskHandle};
use node_core::{Journaled, Reply};
use std::rt::Clock;
use std::sync::Wait;
use turn_cell::{Spent, TurnCell, TurnSeat};
use turn_looks::{Pause, turn};
use workload_runs::Wanted;

// Whether the reply means "not yet".
fn is_pending(reply: &Reply) -> bool
    ensures { result ≡ is_pending reply.now }
{
    matches!(reply, Reply::Pending)
}

// Looks until there is an answer, or until the deadline has come, and then once more.
fn look_until<R: Wait, K: Clock>(
    rt: &R,
    cell: &TurnCell<Journaled>,
    seat: &mut TurnSeat<Journaled>,
    wanted: Wanted,
    deadline: &Deadline<K>,
) -> Result<Reply, Spent>
    requires { seat.old.cell ≡ cell.now.id }
    ensures answered { IfOk result (λ r. (looks : ℕ) × NodeLooked wanted (Some looks) seat.old seat.new r) }
    ensures spent { OnErr result ((looks : ℕ) × NodeStillLooking wanted (Some looks) seat.old seat.new) }
{
    let mut pause = Pause::new();
    for _ in rt.forever() {
        let last = deadline.has_come();
        match turn(rt, cell, seat, wanted.op(last)) {
            Ok(reply) => {
                if last {
                    return Ok(reply);
                }
                if !is_pending(&reply) {
                    return Ok(reply);
                }
            }
            Err(spent) => return Err(spent),
        }
        pause.wait(rt);
    }
    unreachable!()
}

impl<'a> Caller<'a> {
    // As many looks as there is time for.
    fn until<R: Wait, K: Clock>(
        &mut self,
        rt: &R,
        wanted: Wanted,
        deadline: &Deadline<K>,
    ) -> Result<Reply, Spent>
        requires timed { IsTimed wanted }
        ensures looked { IfOk result (λ r. (looks : ℕ) × NodeLooked wanted (Some looks) self.old self.new r) }
        ensures spent { OnErr result ((looks : ℕ) × NodeStillLooking wanted (Some looks) self.old self.new) }
        ensures found { IfOk result (λ r. is_answer_found wanted r ≡ true) }
    {
        look_until(rt, self.cell, &mut self.seat, wanted, deadline)
    }

    /// The same as `task_wait`, with a deadline in place of a number of looks: it looks until the task has ended or the deadline has come, a
    /// millisecond apart at most, and then once more.
    ///
    /// # Errors
    ///
    /// Those of `task_wait`. `Timeout` comes with the look behind the deadline alone.
    pub fn task_wait_until<R: Wait, K: Clock>(
        &mut self,
        rt: &R,
        task: TaskHandle,
        deadline: &Deadline<K>,
    ) -> Result<TaskEnd, MtapiStatus>
        ensures { WaitedUntil mtapi_standard end_in_reply (Task task) self.old self.new result }
    {
        ended(self.until(rt, Wanted::Task(task), deadline))
    }

    /// The same as `group_wait_all` with a deadline, as `task_wait_until` has it.
    ///
    /// # Errors
    ///
    /// Those of `group_wait_all`. `Timeout` comes with the look behind the deadline alone.
    pub fn group_wait_all_until<R: Wait, K: Clock>(
        &mut self,
        rt: &R,
        group: GroupHandle,
        deadline: &Deadline<K>,
    ) -> Result<(), MtapiStatus>
        ensures { WaitedUntil mtapi_standard done (AllMembers group) self.old self.new result }
    {
        done(self.until(rt, Wanted::AllMembers(group), deadline))
    }

    /// The same as `group_wait_any` with a deadline, as `task_wait_until` has it.
    ///
    /// # Errors
    ///
    /// Those of `group_wait_any`. `Timeout` comes with the look behind the deadline alone.
    pub fn group_wait_any_until<R: Wait, K: Clock>(
        &mut self,
        rt: &R,
        group: GroupHandle,
        deadline: &Deadline<K>,
    ) -> Result<(TaskHandle, TaskEnd), MtapiStatus>
        ensures { WaitedUntil mtapi_standard given (FirstMember group) self.old self.new result }
    {
        given(self.until(rt, Wanted::FirstMember(group), deadline))
    }
}
