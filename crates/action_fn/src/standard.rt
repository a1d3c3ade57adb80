//! The actions of this crate as a set.

use crate::actions::answer_of;
use crate::finished::Finished;
use crate::sets::{ActionSet, ActionSource};
use mtapi_values::{Args, Kind};
use std::sync::Wait;

/// The actions of this crate, for each worker: the set of a program that stores no functions of its own.
#[derive(Clone, Copy, Drop)]
pub struct StandardActions;

impl ActionSet for StandardActions {
    fn run<R: Wait>(&mut self, _rt: &R, kind: Kind, args: Args) -> Finished {
        let end = answer_of(kind, &args);
        Finished::new(kind, args, end)
    }
}

impl ActionSource for StandardActions {
    type Set = StandardActions;

    fn for_worker(&mut self, _worker: u32) -> StandardActions {
        StandardActions
    }
}
