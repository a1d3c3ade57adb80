//! The actions of both sides, and the bridges that the workers of the first node get.

use action_fn::{ActionSet, ActionSource, Finished, answer_of};
use mtapi_values::{Args, Kind};
use node_bridge::Bridge;
use std::sync::Wait;
use std::sync::atomic::{AtomicU64, Ordering};

/// The action of each pure kind, and a count of how often one was asked.
#[derive(Drop)]
pub(crate) struct Counted<'a> {
    pub(crate) asked: &'a AtomicU64,
}

impl<'a> ActionSet for Counted<'a> {
    fn run<R: Wait>(&mut self, _rt: &R, kind: Kind, args: Args) -> Finished {
        let _before = self.asked.fetch_add(1, Ordering::SeqCst);
        let end = answer_of(kind, &args);
        Finished::new(kind, args, end)
    }
}

/// What a worker of the first node gets.
#[derive(Drop)]
pub(crate) enum Handed<'a> {
    Over(Bridge<'a, Counted<'a>>),
    Here(Counted<'a>),
}

impl<'a> ActionSet for Handed<'a> {
    fn run<R: Wait>(&mut self, rt: &R, kind: Kind, args: Args) -> Finished {
        match self {
            Handed::Over(bridge) => bridge.run(rt, kind, args),
            Handed::Here(near) => near.run(rt, kind, args),
        }
    }
}

/// Gives each worker a bridge, as long as there are any.
#[derive(Drop)]
pub(crate) struct Bridges<'a> {
    pub(crate) bridges: Vec<Bridge<'a, Counted<'a>>>,
    pub(crate) near: &'a AtomicU64,
}

impl<'a> ActionSource for Bridges<'a> {
    type Set = Handed<'a>;

    fn for_worker(&mut self, _worker: u32) -> Handed<'a> {
        match self.bridges.pop() {
            Some(bridge) => Handed::Over(bridge),
            None => Handed::Here(Counted { asked: self.near }),
        }
    }
}
