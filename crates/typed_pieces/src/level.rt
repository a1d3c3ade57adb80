//! The pieces of one level: those that have split wait for their parts, which are the pieces of the next.

ghost use Rattle.std.specs.Prelude.{◌≡◌, List, [], ◌∷◌, ◌++◌, IfOk, take, drop};
ghost use Rattle.typed_pieces.specs.Split.{AllKept, IsKeptBy};
ghost use Rattle.typed_pieces.specs.Levels.{AreOpen, GivesResult, Waits, parts_of, pending_of};

use crate::split::{Outcome, Split};
use std::alloc::{AllocError, Global};
use std::collections::VecDeque;

/// A piece that has run.
#[derive(Drop)]
pub enum Pending<D: Drop, J: Drop> {
    /// Its result.
    Done(D),
    /// It waits for its parts.
    Joins {
        /// How many there are.
        count: usize,
        /// What joins their results.
        join: J,
    },
}

/// A level whose pieces have run.
#[derive(Drop)]
pub struct Level<P: Drop, D: Drop, J: Drop> {
    /// What came of each piece.
    pub pending: Vec<Pending<D, J>>,
    /// The parts of all of them, which are to be run next.
    pub parts: Vec<P>,
}

impl<P: Drop, D: Drop, J: Drop> Level<P, D, J> {
    // One more piece has run.
    fn add(&mut self, outcome: Outcome<P, D, J>) -> Result<(), AllocError>
        ensures pending { IfOk result (λ _. self.new.pending.items ≡ self.old.pending.items ++ pending_of outcome ∷ []) }
        ensures parts { IfOk result (λ _. self.new.parts.items ≡ self.old.parts.items ++ parts_of outcome) }
    {
        match outcome {
            Outcome::Done(done) => self.pending.push(Pending::Done(done))?,
            Outcome::Parts { mut parts, join } => {
                let count = parts.len();
                self.parts.append(&mut parts)?;
                self.pending.push(Pending::Joins { count, join })?;
            }
        }
        Ok(())
    }
}

/// What came of the pieces of a level, with their parts set aside.
pub fn level_of<P: Split>(
    alloc: Global,
    outcomes: Vec<Outcome<P, P::Done, P::Join>>,
) -> Result<Level<P, P::Done, P::Join>, AllocError>
    ensures { IfOk result (λ level. (pieces : List P) → AllKept (IsKeptBy P.promise P.joined) pieces outcomes.items → Waits P.promise P.joined pieces level.pending.items level.parts.items) }
{
    let mut level = Level {
        pending: Vec::with_capacity(alloc, outcomes.len())?,
        parts: Vec::new(alloc),
    };
    for outcome in outcomes {
        level.add(outcome)?;
    }
    Ok(level)
}

// Moves the first result, if there is one.
fn move_first<D: Drop>(from: &mut VecDeque<D>, to: &mut Vec<D>) -> Result<(), AllocError>
    ensures from { IfOk result (λ _. from.new.items ≡ drop 1 from.old.items) }
    ensures to { IfOk result (λ _. to.new.items ≡ to.old.items ++ take 1 from.old.items) }
{
    if let Some(first) = from.pop_front() {
        to.push(first)?;
    }
    Ok(())
}

// The first results, so many, or all of them if there are fewer.
fn first_of<D: Drop>(
    alloc: Global,
    results: &mut VecDeque<D>,
    count: usize,
) -> Result<Vec<D>, AllocError>
    ensures first { IfOk result (λ v. v.items ≡ take count results.old.items) }
    ensures rest { IfOk result (λ _. results.new.items ≡ drop count results.old.items) }
{
    let mut first = Vec::with_capacity(alloc, count.min(results.len()))?;
    for _ in 0..count {
        move_first(results, &mut first)?;
    }
    Ok(first)
}

// The result of a piece, where these are the results of the parts of its level that are left.
fn result_of<P: Split>(
    alloc: Global,
    pending: Pending<P::Done, P::Join>,
    results: &mut VecDeque<P::Done>,
) -> Result<P::Done, AllocError>
    ensures { IfOk result (λ d. GivesResult P.joined pending results.old.items d results.new.items) }
{
    match pending {
        Pending::Done(done) => Ok(done),
        Pending::Joins { count, join } => Ok(P::join(join, first_of(alloc, results, count)?)),
    }
}

/// The results of the pieces of a level, where these are those of their parts.
pub fn results_of<P: Split>(
    alloc: Global,
    level: Vec<Pending<P::Done, P::Join>>,
    results: Vec<P::Done>,
) -> Result<Vec<P::Done>, AllocError>
    ensures { IfOk result (λ v. (pieces parts : List P) → Waits P.promise P.joined pieces level.items parts → AllKept P.promise parts results.items → AllKept P.promise pieces v.items) }
{
    let mut left = VecDeque::from(results);
    let mut out = Vec::with_capacity(alloc, level.len())?;
    for pending in level {
        out.push(result_of::<P>(alloc, pending, &mut left)?)?;
    }
    Ok(out)
}

/// The results of the first pieces, where each of these levels waits for the next, and the last one for nothing.
pub fn results_up<P: Split>(
    alloc: Global,
    levels: Vec<Vec<Pending<P::Done, P::Join>>>,
) -> Result<Vec<P::Done>, AllocError>
    ensures { IfOk result (λ v. (pieces : List P) → AreOpen P.promise P.joined pieces levels.items [] → AllKept P.promise pieces v.items) }
{
    let mut levels = levels;
    let mut results = Vec::new(alloc);
    while let Some(level) = levels.pop() {
        results = results_of::<P>(alloc, level, results)?;
    }
    Ok(results)
}
