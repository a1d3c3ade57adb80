//! A function that the workers of a node call with each of some items.

ghost use Rattle.std.specs.Prelude.{◌≡◌, ◌<◌, ◌^◌, IfOk, IfErr, map, vec_len};
ghost use Rattle.std.specs.List.{All, AllZip};
ghost use Rattle.node_with_workers.specs.Clients.{IfRefused};
ghost use Rattle.typed_pieces.specs.Runs.{FailsBy, HasRun, HasRunAll, IfNoResult, MeansTooMany, RefusesPieces};

use crate::context::TaskContext;
use crate::node::Worked;
use crate::piece::Piece;
use crate::run::run_pieces;
use crate::unfinished::Unfinished;
use mtapi_values::NodeAttr;
use std::alloc::{AllocError, Global};
use std::sync::Wait;
use std::thread::Threads;

// An item, and the function that is called with it.
#[derive(Drop)]
struct Mapped<'a, T, F> {
    item: T,
    f: &'a F,
}

impl<'a, T: Drop, D: Drop, F: Fn(T) -> D> Piece for Mapped<'a, T, F> {
    type Done = D;

    ghost ready = { λ m. F.pre m.f.now m.item };

    ghost promise = { λ m d. F.post m.f.now m.item d };

    fn go<R: Wait>(self, _rt: &R, _task: &TaskContext) -> D {
        let Mapped { item, f } = self;
        f(item)
    }
}

// Each item with this function.
fn all_mapped<'a, T: Drop, F>(
    alloc: Global,
    items: Vec<T>,
    f: &'a F,
) -> Result<Vec<Mapped<'a, T, F>>, AllocError>
    ensures { IfOk result (λ v. v.items ≡ map (λ x. record { item = x; f = f.entry }) items.items) }
{
    items
        .into_iter()
        .map(|item| Mapped { item, f })
        .collect(alloc)
}

/// Has the workers of a node with these settings call `f` with each item, each call as a task, as `run_pieces` does. Each result stands at the
/// place of its item, and is one that `f` may give for it.
///
/// # Errors
///
/// Those of `run_pieces`.
pub fn map_pieces<T: Send + Drop, D: Send + Drop, F: Fn(T) -> D + Sync, R: Threads + Wait + Sync>(
    rt: &R,
    alloc: Global,
    settings: NodeAttr,
    items: Vec<T>,
    f: &F,
) -> Result<Worked<(), D>, Unfinished>
    requires ready { All (F.pre f.now) items.items }
    ensures run { IfOk result (λ w. HasRun settings w.journal) }
    ensures awaited { vec_len items < 2 ^ 32 → IfOk result (λ w. HasRunAll settings (vec_len items) w.journal) }
    ensures causes { IfErr result (λ u. FailsBy u (λ e. IfRefused e (RefusesPieces settings))) }
    ensures limit { IfErr result (λ u. FailsBy u (λ e. IfRefused e (MeansTooMany settings (vec_len items)))) }
    ensures missing { IfErr result (λ u. IfNoResult u (λ place. place < vec_len items)) }
    ensures kept { IfOk result (λ w. AllZip (F.post f.now) items.items w.results.items) }
    ensures places { IfOk result (λ w. vec_len w.results ≡ vec_len items) }
{
    let mapped = all_mapped(alloc, items, f)?;
    run_pieces(rt, alloc, settings, mapped)
}
