//! What the workers do: each runs the pieces whose tasks it takes.

use crate::context::TaskContext;
use crate::piece::Piece;
use crate::shared::Shared;
use crate::table::Handed;
use action_fn::{ActionSet, ActionSource, Finished, answer_of};
use mtapi_values::{Args, Kind};
use std::sync::Wait;

/// A piece that may go.
#[derive(Drop)]
pub struct Ready<J: Piece> {
    piece: J,
    ghost ready: { ∥ J.ready piece ∥₁ },
}

impl<J: Piece> Ready<J> {
    /// Does the work of the piece.
    pub fn run<R: Wait>(self, rt: &R, task: &TaskContext) -> J::Done
        ensures { J.promise self.piece result }
    {
        let Ready { piece } = self;
        piece.go(rt, task)
    }
}

/// Runs the piece whose place the argument of an `echo` names, if it hasn't run, and answers what each kind answers.
#[derive(Drop)]
pub struct PieceRunner<'a, L: Handed<J>, J: Piece> {
    shared: &'a Shared<L, J>,
}

impl<'a, L: Handed<J>, J: Piece> PieceRunner<'a, L, J> {
    // The piece runs outside the lock, so that others run beside it.
    fn work<R: Wait>(&self, rt: &R, place: usize) {
        let Shared { table, cancels } = self.shared;
        let taken = table.lock(rt).take(place);
        if let Some(piece) = taken {
            let done = Ready { piece }.run(rt, &TaskContext::of(cancels, place));
            table.lock(rt).results.put(place, done);
        }
    }
}

impl<'a, L: Handed<J>, J: Piece> ActionSet for PieceRunner<'a, L, J> {
    fn run<R: Wait>(&mut self, rt: &R, kind: Kind, args: Args) -> Finished {
        if let (Kind::Echo, [place]) = (kind, args.as_slice()) {
            if let Ok(place) = usize::try_from(*place) {
                self.work(rt, place);
            }
        }
        let end = answer_of(kind, &args);
        Finished::new(kind, args, end)
    }
}

/// Gives each worker a runner of the same pieces.
#[derive(Drop)]
pub struct PieceRunners<'a, L: Handed<J>, J: Piece> {
    /// Where the pieces are.
    pub shared: &'a Shared<L, J>,
}

impl<'a, L: Handed<J> + Send, J: Piece + Send> ActionSource for PieceRunners<'a, L, J>
where
    J::Done: Send,
{
    type Set = PieceRunner<'a, L, J>;

    fn for_worker(&mut self, _worker: u32) -> PieceRunner<'a, L, J> {
        PieceRunner {
            shared: self.shared,
        }
    }
}
