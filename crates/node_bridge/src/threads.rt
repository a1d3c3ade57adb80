//! What may cross threads.
use crate::bridge::Bridge;
use crate::served::Served;
use crate::workers::RemoteWorker;
use action_fn::ActionSet;
use turn_cell::TurnCell;

fn may_be_sent<T: Send>() {}

fn may_be_shared<T: Sync>() {}

// Threads may share a served node in a cell, and each may be sent a bridge to it or a worker of it.
fn cross_threads<'a, S: ActionSet + Drop + Send>() {
    may_be_sent::<Served>();
    may_be_shared::<TurnCell<Served>>();
    may_be_sent::<Bridge<'a, S>>();
    may_be_sent::<RemoteWorker<'a>>();
}
