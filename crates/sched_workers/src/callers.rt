//! The calls of a caller: each makes one turn, or one turn for each look.

mod actions;
mod answers;
mod groups;
mod mutexes;
mod phases;
mod queues;
mod rwlocks;
mod segments;
mod semaphores;
mod tasks;
mod until;

ghost use Rattle.std.specs.Prelude.{◌≡◌, Bool, true, ◌≤◌, None, IfOk, OnErr};
ghost use Rattle.mtapi_machine.specs.declared.ops.Op.TheVariants as op;
ghost use Rattle.workload_runs.specs.declared.calls.Wanted.TheVariants.{Entrance};
ghost use Rattle.mtapi_values.specs.Timeouts.{looks_of};
ghost use Rattle.mtapi_machine.specs.declared.replies.Reply.{Reply};
ghost use Rattle.workload_runners.specs.Turns.{NodeTurned, NodeUnturned};
ghost use Rattle.workload_runners.specs.Looks.{NodeLooked, NodeStillLooking};
ghost use Rattle.workload_runs.specs.Wants.{op_of_look, IsTimed};
ghost use Rattle.workload_runners.specs.Replies.{done, handle_told, the_job, mtapi_standard, mrapi_standard, says_something, fits_op, is_answer_found};
ghost use Rattle.sched_workers.specs.Answers.{Called, Waited};

use crate::callers::answers::{done, handle, resource_done, resource_handle, the_job};
use mtapi_values::{MrapiStatus, MtapiStatus, Timeout};
use node_core::{Journaled, Op, Reply};
use std::marker::Model;
use std::sync::Wait;
use turn_cell::{Spent, TurnCell, TurnSeat};
use turn_looks::turn;
use workload_runners::{affected_by, look, wake};
use workload_runs::Wanted;

/// A caller of a node: main, or a further one. Contracts see it as its seat.
///
/// A call is one turn of the cell, or one turn for each look. What a method refuses stands at it,
/// in the order in which it is tried. Besides, every method answers `ErrSpent`, and makes no
/// further turn, where the turns of the cell are used up. A status leaves the node as it was,
/// with two exceptions: after the `Timeout` of `task_wait` this caller no longer stands as the
/// waiter, and the status of a member that `group_wait_all` gives comes once all members are freed.
///
/// # Examples
///
/// Main opens the node, starts a task, and waits for it with as many looks as it takes. The crate
/// `mtapi_two_callers` is a whole program with a node and such callers.
///
/// ```text
/// let mut caller = Caller::new(cell, seat);
/// caller.initialize(rt)?;
/// caller.action_create(rt, 1, Kind::Add, ActionAttr::new())?;
/// let task = caller.task_start(rt, 1, &numbers, TaskAttr::new(), None)?;
/// let end = caller.task_wait(rt, task, Timeout::Infinite)?;
/// ```
#[derive(Drop)]
pub struct Caller<'a> {
    cell: &'a TurnCell<Journaled>,
    seat: TurnSeat<Journaled>,
}

impl<'a> Model for Caller<'a> {
    ghost use Rattle.std.specs.Prelude.{◌≡◌};
    ghost use Rattle.workload_runners.specs.Turns.{Seat};

    ghost Value = { Seat };

    ghost view = { λ c. c.seat };

    ghost invariant = { λ c. c.seat.cell ≡ c.cell.now.id };
}

impl<'a> Caller<'a> {
    /// Makes a caller of a seat. The seats are numbered: first the workers, then main, then the
    /// further callers.
    pub fn new(cell: &'a TurnCell<Journaled>, seat: TurnSeat<Journaled>) -> Caller<'a>
        requires cell { seat.cell ≡ cell.now.id }
        requires number { seat.terms.node.settings.workers ≤ seat.number }
        ensures { result ≡ seat }
    {
        Caller { cell, seat }
    }

    /// Gives the seat back, with which the cell is closed.
    pub fn into_seat(self) -> TurnSeat<Journaled>
        ensures { result ≡ self.entry }
    {
        let Caller { cell: _, seat } = self;
        seat
    }

    // One turn. What was asked may be work for a worker that sleeps.
    fn once<R: Wait>(&mut self, rt: &R, op: Op) -> Result<Reply, Spent>
        ensures turned { IfOk result (λ r. NodeTurned self.old op r self.new) }
        ensures spent { OnErr result (NodeUnturned self.old self.new) }
        ensures fits { IfOk result (λ r. fits_op op r ≡ true) }
    {
        let affected = affected_by(&op);
        let reply = turn(rt, self.cell, &mut self.seat, op);
        wake(self.cell, affected);
        reply
    }

    // As many looks as the timeout gives.
    fn within<R: Wait>(&mut self, rt: &R, wanted: Wanted, timeout: Timeout) -> Result<Reply, Spent>
        requires timed { IsTimed wanted }
        ensures looked { IfOk result (λ r. NodeLooked wanted (looks_of timeout) self.old self.new r) }
        ensures spent { OnErr result (NodeStillLooking wanted (looks_of timeout) self.old self.new) }
        ensures found { IfOk result (λ r. is_answer_found wanted r ≡ true) }
    {
        look(rt, self.cell, &mut self.seat, wanted, timeout)
    }

    // One turn for an op of MTAPI that is done.
    fn mtapi_done<R: Wait>(&mut self, rt: &R, op: Op) -> Result<(), MtapiStatus>
        requires fits { (r : Reply) → fits_op op r ≡ says_something mtapi_standard done r }
        ensures { Called mtapi_standard done op self.old self.new result }
    {
        done(self.once(rt, op))
    }

    // One turn for an op of MTAPI that gives a handle.
    fn mtapi_handle<R: Wait>(&mut self, rt: &R, op: Op) -> Result<u64, MtapiStatus>
        requires fits { (r : Reply) → fits_op op r ≡ says_something mtapi_standard handle_told r }
        ensures { Called mtapi_standard handle_told op self.old self.new result }
    {
        handle(self.once(rt, op))
    }

    // One turn that asks for a job.
    fn mtapi_job<R: Wait>(&mut self, rt: &R, job: u32) -> Result<u32, MtapiStatus>
        ensures { Called mtapi_standard (the_job job) (op.JobGet job) self.old self.new result }
    {
        the_job(self.once(rt, Op::JobGet { job }), job)
    }

    // One turn for an op of MRAPI that is done.
    fn mrapi_done<R: Wait>(&mut self, rt: &R, op: Op) -> Result<(), MrapiStatus>
        requires fits { (r : Reply) → fits_op op r ≡ says_something mrapi_standard done r }
        ensures { Called mrapi_standard done op self.old self.new result }
    {
        resource_done(self.once(rt, op))
    }

    // One turn for an op of MRAPI that gives a handle.
    fn mrapi_handle<R: Wait>(&mut self, rt: &R, op: Op) -> Result<u64, MrapiStatus>
        requires fits { (r : Reply) → fits_op op r ≡ says_something mrapi_standard handle_told r }
        ensures { Called mrapi_standard handle_told op self.old self.new result }
    {
        resource_handle(self.once(rt, op))
    }

    // Looks for something of MRAPI that is taken then.
    fn mrapi_wait<R: Wait>(
        &mut self,
        rt: &R,
        wanted: Wanted,
        timeout: Timeout,
    ) -> Result<(), MrapiStatus>
        requires timed { IsTimed wanted }
        requires found { (r : Reply) → is_answer_found wanted r ≡ says_something mrapi_standard done r }
        ensures { Waited mrapi_standard done wanted (looks_of timeout) self.old self.new result }
    {
        resource_done(self.within(rt, wanted, timeout))
    }

    // Looks until main has released.
    fn to_enter<R: Wait>(&mut self, rt: &R) -> Result<Reply, Spent>
        ensures looked { IfOk result (λ r. NodeLooked Entrance None self.old self.new r) }
        ensures spent { OnErr result (NodeStillLooking Entrance None self.old self.new) }
        ensures found { IfOk result (λ r. is_answer_found Entrance r ≡ true) }
    {
        look(
            rt,
            self.cell,
            &mut self.seat,
            Wanted::Entrance,
            Timeout::Infinite,
        )
    }
}
