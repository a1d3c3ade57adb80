//! The client of a node whose workers run pieces.

ghost use Rattle.std.specs.Prelude.{List};
ghost use Rattle.workload_runners.specs.Turns.{Seat, SameNodeSeat};
ghost use Rattle.node_with_workers.specs.Clients.{SeatGoesOn};

use crate::piece::Piece;
use crate::pieces::Pieces;
use crate::shared::Shared;
use crate::table::Handed;
use node_with_workers::Client;
use sched_workers::Caller;
use std::sync::Wait;

/// What a program does on a node whose workers run pieces, between its opening and its end.
pub trait PieceClient<J: Piece>: Drop {
    /// What comes of it.
    type Told: Drop;

    // What it promises: of itself, of the pieces that were handed in, of main's seat before its calls and after them, and of what it was
    // told.
    ghost promise: { Self → List J → Seat → Seat → Self.Told → Type 0 };

    /// Calls the node, which is open. It may leave tasks that haven't ended, and needn't end the node.
    fn call<R: Wait, L: Handed<J>>(
        self,
        rt: &R,
        caller: &mut Caller,
        pieces: &Pieces<L, J>,
    ) -> Self::Told
        ensures same { SameNodeSeat caller.old caller.new }
        ensures goes_on { SeatGoesOn caller.old caller.new }
        ensures kept { promise self L.pieces caller.old caller.new result };
}

/// A client of pieces, as a client of a node.
#[derive(Drop)]
pub struct WithPieces<'a, L: Handed<J>, J: Piece, C: PieceClient<J>> {
    /// The client of pieces.
    pub client: C,
    /// Where the pieces are.
    pub shared: &'a Shared<L, J>,
}

impl<'a, L: Handed<J>, J: Piece, C: PieceClient<J>> Client for WithPieces<'a, L, J, C> {
    type Told = C::Told;

    ghost promise = { λ b old new told. C.promise b.client L.pieces old new told };

    fn call<R: Wait>(self, rt: &R, caller: &mut Caller) -> C::Told {
        let WithPieces { client, shared } = self;
        client.call(rt, caller, &Pieces { shared })
    }
}
