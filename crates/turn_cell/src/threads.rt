//! What may cross threads.
use crate::cell::TurnCell;
use crate::closing::Closed;
use crate::seats::TurnSeat;
use crate::tickets::Spent;
use history::Object;

fn may_be_sent<T: Send>() {}

fn may_be_shared<T: Sync>() {}

// Threads may share a cell, and each may be sent a seat of it.
fn cross_threads<O: Object + Send>()
where
    O::Op: Send,
    O::Reply: Send,
    O::Terms: Send + Sync,
{
    may_be_shared::<TurnCell<O>>();
    may_be_sent::<TurnCell<O>>();
    may_be_sent::<TurnSeat<O>>();
    may_be_sent::<Closed<O>>();
    may_be_sent::<Spent>();
}
