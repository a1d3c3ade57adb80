//! Sets of actions, and where workers get theirs from.

ghost use Rattle.std.specs.Prelude.{◌≡◌, true};
ghost use Rattle.action_fn.specs.Answers.{is_pure};

use crate::finished::Finished;
use mtapi_values::{Args, Kind};
use std::sync::Wait;

/// Runs the actions of one worker.
pub trait ActionSet {
    /// Answers a pure kind for these arguments. What `Finished` keeps says which answer that is. It may wait, as a set does that
    /// asks another node.
    fn run<R: Wait>(&mut self, rt: &R, kind: Kind, args: Args) -> Finished
        requires { is_pure kind ≡ true }
        ensures kind { result.kind ≡ kind }
        ensures args { result.args ≡ args };
}

/// Gives each worker a set of actions of its own.
pub trait ActionSource {
    /// The set that a worker gets.
    type Set: ActionSet + Send + Drop;

    /// The set for this worker.
    fn for_worker(&mut self, worker: u32) -> Self::Set;
}
