//! Work that splits: a piece gives its result, or further pieces and what joins their results.

ghost use Rattle.std.specs.Prelude.{List};
ghost use Rattle.typed_pieces.specs.Split.{IsKeptBy};

use crate::context::TaskContext;
use std::sync::Wait;

/// What comes of a piece that may split.
#[derive(Drop)]
pub enum Outcome<P: Drop, D: Drop, J: Drop> {
    /// Its result.
    Done(D),
    /// It has split.
    Parts {
        /// The pieces that it has split into.
        parts: Vec<P>,
        /// What joins their results.
        join: J,
    },
}

/// A piece of work that may split into further pieces, whose results are joined to its own.
pub trait Split: Drop {
    /// Its result. That of a piece that may fail is a `Result`.
    type Done: Drop;

    /// What joins the results of its parts.
    type Join: Drop;

    // What a piece promises of its result.
    ghost promise: { Self → Self.Done → Type 0 };

    // What a join promises of these results, in the order of the parts, and of what they give.
    ghost joined: { Self.Join → List Self.Done → Self.Done → Type 0 };

    /// Does the work, or splits it, on the thread of a worker. It may wait.
    fn go<R: Wait>(self, rt: &R, task: &TaskContext) -> Outcome<Self, Self::Done, Self::Join>
        ensures { IsKeptBy promise joined self result };

    /// Joins the results of the parts, which stand in the order of these. The client does it, when all parts have ended.
    fn join(join: Self::Join, results: Vec<Self::Done>) -> Self::Done
        ensures { joined join results.items result };
}
