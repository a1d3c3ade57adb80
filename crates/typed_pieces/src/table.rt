//! The pieces that wait, and the results, each at the place of its piece.

ghost use Rattle.std.specs.Prelude.{◌≡◌, List, [], Some, None, IfOk, IfSome, length, map, slice_get};
ghost use Rattle.std.specs.List.{All};
ghost use Rattle.typed_pieces.specs.Places.{AreFrom, AreKept, IsKeptAt};

use crate::piece::Piece;
use std::alloc::{AllocError, Global};
use std::marker::{Brand, PhantomData};

/// The pieces that were handed in, as the proofs know them. A lock knows of its value only what the type says, so they are named by a type.
pub trait Handed<J> {
    ghost pieces: { List J };
}

impl<J> Handed<J> for Brand {
    ghost pieces = { [] };
}

/// The results, each at the place of its piece.
#[derive(Drop)]
pub struct Results<L: Handed<J>, J: Piece> {
    done: Vec<Option<J::Done>>,
    of: PhantomData<L>,
    ghost kept: { ∥ AreKept J.promise L.pieces done.items ∥₁ },
    ghost places: { length done.items ≡ length L.pieces },
}

impl<L: Handed<J>, J: Piece> Results<L, J> {
    // None, with a place for each piece.
    fn none(alloc: Global, pieces: &[J]) -> Result<Results<L, J>, AllocError>
        requires { L.pieces ≡ pieces.now }
    {
        let done = no_results(alloc, pieces)?;
        Ok(Results {
            done,
            of: PhantomData,
        })
    }

    /// Puts a result that the piece of this place promises.
    pub fn put(&mut self, place: usize, done: J::Done)
        requires { IsKeptAt J.promise L.pieces place done }
    {
        if place < self.done.len() {
            self.done[place] = Some(done);
        }
    }

    /// Takes the result of this place, if it is there.
    pub fn take(&mut self, place: usize) -> Option<J::Done>
        ensures { IfSome result (λ d. ∥ IsKeptAt J.promise L.pieces place d ∥₁) }
    {
        if place < self.done.len() {
            self.done[place].take()
        } else {
            None
        }
    }

    /// The results alone.
    pub fn into_vec(self) -> Vec<Option<J::Done>>
        ensures kept { AreKept J.promise L.pieces result.items }
        ensures places { length result.items ≡ length L.pieces }
    {
        let Results { done, of: _ } = self;
        done
    }
}

/// At each place the piece that was handed in there, until it is taken, and its result, once it is there.
#[derive(Drop)]
pub struct Table<L: Handed<J>, J: Piece> {
    waiting: Vec<Option<J>>,
    /// The results.
    pub results: Results<L, J>,
    ghost from: { AreFrom L.pieces waiting.items },
    ghost ready: { ∥ All J.ready L.pieces ∥₁ },
}

// A place without a result for each piece.
fn no_results<J, D: Drop>(alloc: Global, pieces: &[J]) -> Result<Vec<Option<D>>, AllocError>
    ensures { IfOk result (λ v. v.items ≡ map (λ _. None) pieces.now) }
{
    pieces.iter().map(|_| None).collect(alloc)
}

// Each piece at its place.
fn all_wait<J: Drop>(alloc: Global, pieces: Vec<J>) -> Result<Vec<Option<J>>, AllocError>
    ensures { IfOk result (λ v. v.items ≡ map Some pieces.items) }
{
    pieces.into_iter().map(|piece| Some(piece)).collect(alloc)
}

impl<L: Handed<J>, J: Piece> Table<L, J> {
    /// A table in which each piece waits.
    pub fn new(alloc: Global, pieces: Vec<J>) -> Result<Table<L, J>, AllocError>
        requires named { L.pieces ≡ pieces.items }
        requires ready { All J.ready pieces.items }
    {
        let results = Results::none(alloc, &pieces)?;
        let waiting = all_wait(alloc, pieces)?;
        Ok(Table { waiting, results })
    }

    /// Takes the piece of this place, if it hasn't been taken.
    pub fn take(&mut self, place: usize) -> Option<J>
        ensures from { IfSome result (λ j. slice_get L.pieces place ≡ Some j) }
        ensures ready { IfSome result (λ j. ∥ J.ready j ∥₁) }
    {
        if place < self.waiting.len() {
            self.waiting[place].take()
        } else {
            None
        }
    }
}
