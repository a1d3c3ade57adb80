//! Work that splits, run level by level: first the root, then its parts, then the parts of these; and the results are joined on the way back.

ghost use Rattle.std.specs.Prelude.{◌≡◌, ◌<◌, ◌≤◌, ◌+◌, ◌^◌, [], ◌∷◌, IfOk, IfErr, map, vec_len};
ghost use Rattle.node_with_workers.specs.Clients.{IfRefused};
ghost use Rattle.typed_pieces.specs.Runs.{FailsBy, HasRunAll, IfNoResult, RefusesPieces};
ghost use Rattle.typed_pieces.specs.Levels.{AreOpen, Waits};
ghost use Rattle.typed_pieces.specs.SplitRuns.{AreLevelsCounted, AreLevelsOf, HaveRun, IsOver, SplitFails, pieces_of_levels};

use crate::context::TaskContext;
use crate::level::{Level, Pending, level_of, results_up};
use crate::node::Worked;
use crate::piece::Piece;
use crate::run::run_pieces;
use crate::split::{Outcome, Split};
use crate::split_failure::SplitFailure;
use crate::unfinished::Unfinished;
use mtapi_values::NodeAttr;
use node_core::RunJournal;
use std::alloc::{AllocError, Global};
use std::sync::Wait;
use std::thread::Threads;

/// A level of work that splits: the pieces of one depth, which one node has run.
#[derive(Drop)]
pub struct LevelRun {
    /// How many pieces it has.
    pub pieces: u32,
    /// The journal of all calls of its node.
    pub journal: RunJournal,
}

/// What comes of work that splits.
#[derive(Drop)]
pub struct SplitRun<D: Drop> {
    /// The result of the root.
    pub result: D,
    /// The levels, with that of the root first.
    pub levels: Vec<LevelRun>,
}

/// A piece that may split, as a piece of a node.
#[derive(Drop)]
pub struct Splitting<P> {
    /// The piece.
    pub piece: P,
}

impl<P: Split> Piece for Splitting<P> {
    ghost use Rattle.typed_pieces.specs.Split.{IsKeptBy};

    type Done = Outcome<P, P::Done, P::Join>;

    ghost promise = { λ s outcome. IsKeptBy P.promise P.joined s.piece outcome };

    fn go<R: Wait>(self, rt: &R, task: &TaskContext) -> Outcome<P, P::Done, P::Join> {
        let Splitting { piece } = self;
        piece.go(rt, task)
    }
}

// As pieces of a node.
fn as_pieces<P: Drop>(alloc: Global, parts: Vec<P>) -> Result<Vec<Splitting<P>>, AllocError>
    ensures items { IfOk result (λ v. map (λ s. s.piece) v.items ≡ parts.items) }
    ensures places { IfOk result (λ v. vec_len v ≡ vec_len parts) }
{
    let mut pieces = Vec::with_capacity(alloc, parts.len())?;
    for piece in parts {
        pieces.push(Splitting { piece })?;
    }
    Ok(pieces)
}

// How many pieces a level has, if there may be so many beside those that have run before.
fn count_within(pieces: usize, before: u32, most: u32) -> Result<u32, SplitFailure>
    requires { before ≤ most }
    ensures count { IfOk result (λ count. count ≡ pieces) }
    ensures within { IfOk result (λ count. before + count ≤ most) }
    ensures limit { IfErr result (λ e. SplitFails e (λ _. ⊥) (λ ran parts. (ran ≡ before) × (parts ≡ pieces) × (most < before + pieces))) }
{
    if pieces > (most - before) as usize {
        return Err(SplitFailure::Limit {
            before,
            parts: pieces,
        });
    }
    Ok(pieces as u32)
}

// Runs the pieces of a level on a node.
fn run_level<P: Split + Send, R: Threads + Wait + Sync>(
    rt: &R,
    alloc: Global,
    settings: NodeAttr,
    pieces: Vec<P>,
) -> Result<(Level<P, P::Done, P::Join>, RunJournal), Unfinished>
where
    P::Done: Send,
    P::Join: Send,
    ensures waits { IfOk result (λ r. Waits P.promise P.joined pieces.items r.0.pending.items r.0.parts.items) }
    ensures run { vec_len pieces < 2 ^ 32 → IfOk result (λ r. HasRunAll settings (vec_len pieces) r.1) }
    ensures causes { IfErr result (λ u. FailsBy u (λ e. IfRefused e (RefusesPieces settings))) }
    ensures missing { IfErr result (λ u. IfNoResult u (λ place. place < vec_len pieces)) }
{
    let pieces = as_pieces(alloc, pieces)?;
    let Worked {
        journal,
        results,
        ..
    } = run_pieces(rt, alloc, settings, pieces)?;
    let level = level_of::<P>(alloc, results)?;
    Ok((level, journal))
}

// Runs the root, its parts, the parts of these and so on, until a level has no parts.
fn run_down<P: Split + Send, R: Threads + Wait + Sync>(
    rt: &R,
    alloc: Global,
    settings: NodeAttr,
    root: P,
    most: u32,
) -> Result<(Vec<Vec<Pending<P::Done, P::Join>>>, Vec<LevelRun>), SplitFailure>
where
    P::Done: Send,
    P::Join: Send,
    ensures waits { IfOk result (λ r. AreOpen P.promise P.joined (root ∷ []) r.0.items []) }
    ensures counts { IfOk result (λ r. AreLevelsCounted r.1.items r.0.items) }
    ensures run { IfOk result (λ r. HaveRun settings r.1.items) }
    ensures within { IfOk result (λ r. pieces_of_levels r.1.items ≤ most) }
    ensures causes { IfErr result (λ e. SplitFails e (λ u. FailsBy u (λ f. IfRefused f (RefusesPieces settings))) (IsOver P.promise P.joined settings root most)) }
    ensures missing { IfErr result (λ e. SplitFails e (λ u. IfNoResult u (λ place. place < most)) (λ _ _. Unit {0})) }
{
    let mut opened = Vec::new(alloc);
    let mut levels = Vec::new(alloc);
    let mut pieces = Vec::new(alloc);
    let mut before = 0;
    pieces.push(root)?;
    'down: while !pieces.is_empty() {
        let count = count_within(pieces.len(), before, most)?;
        let (level, journal) = run_level(rt, alloc, settings, pieces)?;
        let Level { pending, parts } = level;
        opened.push(pending)?;
        levels.push(LevelRun {
            pieces: count,
            journal,
        })?;
        before += count;
        pieces = parts;
    }
    Ok((opened, levels))
}

/// The same as `run_split`, with at most so many pieces in all.
///
/// # Errors
///
/// Those of `run_split`. `Refused` is with `ErrTaskLimit` if there are more pieces in a level than the node has tasks.
pub fn run_split_within<P: Split + Send, R: Threads + Wait + Sync>(
    rt: &R,
    alloc: Global,
    settings: NodeAttr,
    root: P,
    most: u32,
) -> Result<SplitRun<P::Done>, SplitFailure>
where
    P::Done: Send,
    P::Join: Send,
    ensures run { IfOk result (λ r. HaveRun settings r.levels.items) }
    ensures within { IfOk result (λ r. pieces_of_levels r.levels.items ≤ most) }
    ensures levels { IfOk result (λ r. AreLevelsOf P.promise P.joined root r.levels.items) }
    ensures kept { IfOk result (λ r. P.promise root r.result) }
    ensures causes { IfErr result (λ e. SplitFails e (λ u. FailsBy u (λ f. IfRefused f (RefusesPieces settings))) (IsOver P.promise P.joined settings root most)) }
    ensures missing { IfErr result (λ e. SplitFails e (λ u. IfNoResult u (λ place. place < most)) (λ _ _. Unit {0})) }
{
    let (opened, levels) = run_down(rt, alloc, settings, root, most)?;
    let mut results = results_up::<P>(alloc, opened)?;
    let Some(result) = results.pop() else {
        unreachable!()
    };
    Ok(SplitRun { result, levels })
}

/// Runs work that splits, and gives the result of this piece, the root, which keeps what the piece promises.
///
/// It is run level by level, each on a node of its own with these settings: first the root, then its parts, then the parts of these, and so on
/// until no piece has split. A level begins when all pieces of the level before have ended. Then the caller joins the results, the last level
/// first. There may be as many pieces in all as the node has tasks (`NodeAttr::TASKS`).
///
/// # Errors
///
/// - `Run`: the pieces of a level gave no results, as with `run_pieces`. The place of `NoResult` is one in its level.
/// - `Limit`: there would have been more pieces.
pub fn run_split<P: Split + Send, R: Threads + Wait + Sync>(
    rt: &R,
    alloc: Global,
    settings: NodeAttr,
    root: P,
) -> Result<SplitRun<P::Done>, SplitFailure>
where
    P::Done: Send,
    P::Join: Send,
    ensures run { IfOk result (λ r. HaveRun settings r.levels.items) }
    ensures within { IfOk result (λ r. pieces_of_levels r.levels.items ≤ settings.tasks) }
    ensures levels { IfOk result (λ r. AreLevelsOf P.promise P.joined root r.levels.items) }
    ensures kept { IfOk result (λ r. P.promise root r.result) }
    ensures causes { IfErr result (λ e. SplitFails e (λ u. FailsBy u (λ f. IfRefused f (RefusesPieces settings))) (IsOver P.promise P.joined settings root settings.tasks)) }
    ensures missing { IfErr result (λ e. SplitFails e (λ u. IfNoResult u (λ place. place < settings.tasks)) (λ _ _. Unit {0})) }
{
    run_split_within(rt, alloc, settings, root, settings.tasks())
}
