//! A piece of work.

ghost use Rattle.std.specs.Prelude.{⊤};

use crate::context::TaskContext;
use std::sync::Wait;

/// A piece of work, which gives a result.
pub trait Piece: Drop {
    /// Its result. That of a piece that may fail is a `Result`.
    type Done: Drop;

    // What `go` needs of the piece, such as that a closure in it may be called. Most need nothing, and say nothing here.
    ghost ready: { Self → Type 0 } = { λ _. ⊤ };

    // What a piece promises of its result.
    ghost promise: { Self → Self.Done → Type 0 };

    /// Does the work, on the thread of a worker. It may wait. The node can't end before it has returned, so a long piece asks `task` now and
    /// then whether it should stop.
    fn go<R: Wait>(self, rt: &R, task: &TaskContext) -> Self::Done
        requires { ready self }
        ensures { promise self result };
}
