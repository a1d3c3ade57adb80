//! The parts of a piece that has split: those that wait, and the results of those that have ended.

ghost use Rattle.std.specs.Prelude.{◌≡◌, suc, Some, None, IfOk, IfSome, length, map, slice_get, sum_by};
ghost use Rattle.std.specs.Option.{ForSome};
ghost use Rattle.typed_pieces.specs.Places.{AreFrom, AreKept, IsKeptAt};
ghost use Rattle.nested_pieces.specs.Joins.{JoinsAt};
ghost use Rattle.nested_pieces.specs.Works.{Came};

use crate::names::Names;
use crate::parts::{Counted, Ended, Opening, Part, Place};
use std::alloc::{AllocError, Global};
use std::marker::PhantomData;
use std::snapshot::Snapshot;
use std::sync::OnceToken;
use typed_pieces::Split;
use typed_pieces::run::all_there;

/// Where the result goes that the parts give, and what joins theirs to it.
#[derive(Drop)]
pub struct Upward<'n, L: Names, P: Split> {
    /// Where the piece stands that has split.
    pub place: Place<'n, L, P>,
    /// What joins the results of its parts.
    pub join: P::Join,
}

/// The parts of a piece that has split; or the root alone, which is no part.
#[derive(Drop)]
pub struct Frame<'n, L: Names, P: Split> {
    number: usize,
    parts: OnceToken<'n, Snapshot<Vec<P>>>,
    waiting: Vec<Option<P>>,
    done: Vec<Option<Counted<P::Done>>>,
    left: usize,
    up: Option<Upward<'n, L, P>>,
    ghost named: { slice_get L.ids number ≡ Some parts.of },
    ghost from: { AreFrom parts.value.value.items waiting.items },
    ghost kept: { ∥ AreKept (Came P.promise P.joined) parts.value.value.items done.items ∥₁ },
    ghost places: { length done.items ≡ length parts.value.value.items },
    ghost joins: { ForSome up (λ u. ∥ JoinsAt P.promise P.joined u.place.parts.value.value.items u.place.index parts.value.value.items u.join ∥₁) },
}

// A place without a result for each piece.
fn no_results<P, D: Drop>(alloc: Global, parts: &[P]) -> Result<Vec<Option<D>>, AllocError>
    ensures { IfOk result (λ v. v.items ≡ map (λ _. None) parts.now) }
{
    parts.iter().map(|_| None).collect(alloc)
}

// Each piece at its place.
fn all_wait<P: Drop>(alloc: Global, parts: Vec<P>) -> Result<Vec<Option<P>>, AllocError>
    ensures { IfOk result (λ v. v.items ≡ map Some parts.items) }
{
    parts.into_iter().map(|piece| Some(piece)).collect(alloc)
}

// The results alone, and of how many pieces they are, the one that has split into these too. None without memory for the list, or where the number is
// too large.
fn uncounted<D: Drop>(alloc: Global, all: Vec<Counted<D>>) -> Option<(Vec<D>, u32)>
    ensures results { IfSome result (λ r. r.0.items ≡ map (λ c. c.result) all.items) }
    ensures pieces { IfSome result (λ r. r.1 ≡ suc (sum_by (λ c. c.pieces) all.items)) }
{
    let Ok(mut results) = Vec::with_capacity(alloc, all.len()) else {
        return None;
    };
    let mut pieces = 1u32;
    for one in all {
        let Counted {
            result,
            pieces: more,
        } = one;
        let Ok(()) = results.push(result) else {
            return None;
        };
        pieces = pieces.checked_add(more)?;
    }
    Some((results, pieces))
}

impl<'n, L: Names, P: Split> Frame<'n, L, P> {
    /// The root alone.
    pub fn root(
        alloc: Global,
        token: OnceToken<'n, Snapshot<Vec<P>>>,
        parts: Vec<P>,
    ) -> Result<Frame<'n, L, P>, AllocError>
        requires named { slice_get L.ids 0 ≡ Some token.of }
        requires parts { token.value.value.items ≡ parts.items }
    {
        let left = parts.len();
        let done = no_results(alloc, &parts)?;
        let waiting = all_wait(alloc, parts)?;
        Ok(Frame {
            number: 0,
            parts: token,
            waiting,
            done,
            left,
            up: None,
        })
    }

    /// The parts of a piece that has split, all of which wait.
    pub fn opened(
        alloc: Global,
        number: usize,
        token: OnceToken<'n, Snapshot<Vec<P>>>,
        opening: Opening<'n, L, P>,
    ) -> Result<Frame<'n, L, P>, AllocError>
        requires named { slice_get L.ids number ≡ Some token.of }
        requires parts { token.value.value.items ≡ opening.parts.items }
    {
        let Opening { place, parts, join } = opening;
        let left = parts.len();
        let done = no_results(alloc, &parts)?;
        let waiting = all_wait(alloc, parts)?;
        Ok(Frame {
            number,
            parts: token,
            waiting,
            done,
            left,
            up: Some(Upward { place, join }),
        })
    }

    // Takes the piece of this index, if it waits.
    fn take_piece(&mut self, index: usize) -> Option<P>
        ensures piece { IfSome result (λ p. slice_get self.new.parts.value.value.items index ≡ Some p) }
    {
        if index < self.waiting.len() {
            self.waiting[index].take()
        } else {
            None
        }
    }

    /// Takes the part of this index, if it waits.
    pub fn take(&mut self, index: usize) -> Option<Part<'n, L, P>> {
        match self.take_piece(index) {
            Some(piece) => {
                let place = Place {
                    number: self.number,
                    index,
                    parts: self.parts.again(),
                    of: PhantomData,
                };
                Some(Part { place, piece })
            }
            None => None,
        }
    }

    // Puts a result that the piece of this index promises.
    fn put_done(&mut self, index: usize, done: Counted<P::Done>)
        requires { ∥ IsKeptAt (Came P.promise P.joined) self.old.parts.value.value.items index done ∥₁ }
    {
        if index < self.done.len() {
            self.done[index] = Some(done);
        }
    }

    /// Puts the result of a part. Whether all parts have ended.
    pub fn put(&mut self, ended: Ended<'n, L, P>) -> bool {
        let Ended { place, done } = ended;
        if place.number != self.number {
            return false;
        }
        self.parts.agrees(&place.parts);
        self.put_done(place.index, done);
        self.left = self.left.saturating_sub(1);
        self.left == 0
    }

    /// The result of the piece that has split, if each of its parts has one and there is memory for the list of them.
    pub fn joined(self, alloc: Global) -> Option<Ended<'n, L, P>> {
        let Frame { done, up, .. } = self;
        let Some(Upward { place, join }) = up else {
            return None;
        };
        let Ok(all) = all_there(alloc, done) else {
            return None;
        };
        let (results, pieces) = uncounted(alloc, all)?;
        let done = Counted {
            result: P::join(join, results),
            pieces,
        };
        Some(Ended { place, done })
    }

    // Takes the result of this index, if it is there.
    fn take_done(&mut self, index: usize) -> Option<Counted<P::Done>>
        ensures { IfSome result (λ d. ∥ IsKeptAt (Came P.promise P.joined) self.old.parts.value.value.items index d ∥₁) }
    {
        if index < self.done.len() {
            self.done[index].take()
        } else {
            None
        }
    }

    /// The result at this place, if it is of this frame and has one.
    pub fn result_at(&mut self, place: Place<'n, L, P>) -> Option<Ended<'n, L, P>>
        ensures { IfSome result (λ e. e.place ≡ place.entry) }
    {
        if place.number != self.number {
            return None;
        }
        self.parts.agrees(&place.parts);
        match self.take_done(place.index) {
            Some(done) => Some(Ended { place, done }),
            None => None,
        }
    }
}
