//! The calls on the phase of the node.

ghost use Rattle.std.specs.Prelude.{None};
ghost use Rattle.workload_runs.specs.declared.calls.Wanted.TheVariants.{Entrance};
ghost use Rattle.mtapi_machine.specs.declared.ops.Op.TheVariants as op;
ghost use Rattle.workload_runners.specs.Replies.{done, mtapi_standard};
ghost use Rattle.sched_workers.specs.Answers.{Called, Waited};

use crate::callers::Caller;
use crate::callers::answers::done;
use mtapi_values::MtapiStatus;
use node_core::Op;
use std::sync::Wait;

impl<'a> Caller<'a> {
    /// Opens the node.
    ///
    /// Stands for `mtapi_initialize`, whose settings and number of callers `Node::init` takes.
    ///
    /// # Errors
    ///
    /// - `ErrNodeInitialized`: the node isn't new.
    pub fn initialize<R: Wait>(&mut self, rt: &R) -> Result<(), MtapiStatus>
        ensures { Called mtapi_standard done op.Initialize self.old self.new result }
    {
        self.mtapi_done(rt, Op::Initialize)
    }

    /// Lets the further callers enter.
    ///
    /// It stands for no function of MTAPI.
    ///
    /// # Errors
    ///
    /// - `ErrNodeNotinit`: the node isn't open.
    pub fn release<R: Wait>(&mut self, rt: &R) -> Result<(), MtapiStatus>
        ensures { Called mtapi_standard done op.Release self.old self.new result }
    {
        self.mtapi_done(rt, Op::Release)
    }

    /// Looks until main has released, as often as it takes.
    ///
    /// It stands for no function of MTAPI.
    ///
    /// # Errors
    ///
    /// - `ErrNodeNotinit`: the node is closing or closed.
    pub fn enter<R: Wait>(&mut self, rt: &R) -> Result<(), MtapiStatus>
        ensures { Waited mtapi_standard done Entrance None self.old self.new result }
    {
        done(self.to_enter(rt))
    }

    /// Begins the end of the node, which takes no new objects then. The tasks that haven't begun of
    /// disabled queues are cancelled.
    ///
    /// Stands for the first half of `mtapi_finalize`.
    ///
    /// # Errors
    ///
    /// - `ErrNodeNotinit`: the node is closing or closed.
    pub fn finalize_begin<R: Wait>(&mut self, rt: &R) -> Result<(), MtapiStatus>
        ensures { Called mtapi_standard done op.Close self.old self.new result }
    {
        self.mtapi_done(rt, Op::Close)
    }

    /// Ends the node, once every worker has stopped.
    ///
    /// Stands for the second half of `mtapi_finalize`.
    ///
    /// # Errors
    ///
    /// - `ErrNodeNotinit`: the node isn't open or closing.
    /// - `ErrNodeInitialized`: the node isn't closing, or a worker hasn't stopped.
    pub fn finalize_end<R: Wait>(&mut self, rt: &R) -> Result<(), MtapiStatus>
        ensures { Called mtapi_standard done op.Final self.old self.new result }
    {
        self.mtapi_done(rt, Op::Final)
    }
}
