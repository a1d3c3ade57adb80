//! A piece beside its place among the parts of another, and what comes of it. The types keep what each promises, since they go from thread to
//! thread.

ghost use Rattle.std.specs.Prelude.{◌≡◌, Some, slice_get};
ghost use Rattle.typed_pieces.specs.Places.{IsKeptAt};
ghost use Rattle.nested_pieces.specs.Joins.{JoinsAt};
ghost use Rattle.nested_pieces.specs.Works.{Came};

use crate::names::Names;
use std::marker::PhantomData;
use std::snapshot::Snapshot;
use std::sync::{OnceToken, Wait};
use typed_pieces::{Outcome, Split, TaskContext};

/// A place among the parts of a piece that has split, or that of the root.
#[derive(Drop)]
pub struct Place<'n, L: Names, P: Drop> {
    /// The number of the frame.
    pub number: usize,
    /// Which of its parts.
    pub index: usize,
    /// What the parts are.
    pub parts: OnceToken<'n, Snapshot<Vec<P>>>,
    /// The locks.
    pub of: PhantomData<L>,
    pub ghost named: { slice_get L.ids number ≡ Some parts.of },
}

/// A piece that was taken.
#[derive(Drop)]
pub struct Part<'n, L: Names, P: Split> {
    /// Where it stands.
    pub place: Place<'n, L, P>,
    /// The piece.
    pub piece: P,
    pub ghost is: { slice_get place.parts.value.value.items place.index ≡ Some piece },
}

/// A result, and of how many pieces it is.
#[derive(Drop)]
pub struct Counted<D: Drop> {
    /// The result.
    pub result: D,
    /// The piece, its parts, theirs and so on.
    pub pieces: u32,
}

/// A result, and the place of the piece of which it is.
#[derive(Drop)]
pub struct Ended<'n, L: Names, P: Split> {
    /// Where the piece stands.
    pub place: Place<'n, L, P>,
    /// The result.
    pub done: Counted<P::Done>,
    pub ghost kept: { ∥ IsKeptAt (Came P.promise P.joined) place.parts.value.value.items place.index done ∥₁ },
}

/// A piece that has split: its place, its parts, and what joins their results to one that it promises.
#[derive(Drop)]
pub struct Opening<'n, L: Names, P: Split> {
    /// Where the piece stands.
    pub place: Place<'n, L, P>,
    /// Its parts.
    pub parts: Vec<P>,
    /// What joins their results.
    pub join: P::Join,
    pub ghost joins: { ∥ JoinsAt P.promise P.joined place.parts.value.value.items place.index parts.items join ∥₁ },
}

/// What has come of a piece.
#[derive(Drop)]
pub enum Ran<'n, L: Names, P: Split> {
    /// Its result.
    Ended(Ended<'n, L, P>),
    /// It has split.
    Opens(Opening<'n, L, P>),
}

impl<'n, L: Names, P: Split> Part<'n, L, P> {
    /// Does the work of the piece.
    #[tactic(auto, using(crate::proofs::Works::came_of, crate::proofs::Kept::joins_of))]
    pub fn run<R: Wait>(self, rt: &R, task: &TaskContext) -> Ran<'n, L, P> {
        let Part { place, piece } = self;
        match piece.go(rt, task) {
            Outcome::Done(result) => Ran::Ended(Ended {
                place,
                done: Counted { result, pieces: 1 },
            }),
            Outcome::Parts { parts, join } => Ran::Opens(Opening { place, parts, join }),
        }
    }
}

impl<'n, L: Names, P: Split> Ended<'n, L, P> {
    /// The place and the result.
    pub fn into_parts(self) -> (Place<'n, L, P>, Counted<P::Done>)
        ensures kept { IsKeptAt (Came P.promise P.joined) result.0.parts.value.value.items result.0.index result.1 }
        ensures place { result.0 ≡ self.entry.place }
    {
        let Ended { place, done } = self;
        (place, done)
    }
}
