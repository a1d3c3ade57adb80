//! Who sees a cancel: the piece whose task was cancelled, and no other one; and nobody, if the node refused it. And which tasks run a piece.

use mtapi_values::{ActionAttr, Kind, NodeAttr, TaskAttr, Timeout};
use sched_workers::Caller;
use std::alloc::Global;
use std::sync::Wait;
use std::thread::Threads;
use typed_pieces::{
    Handed, Piece, PieceClient, Pieces, Refusal, TaskContext, Unfinished, args_of, with_pieces,
};

/// The job of the action whose tasks run pieces, and that of one whose tasks don't.
const ECHO: u32 = 1;

const ADD: u32 = 2;

/// Counts to this number, and gives how far it came before it saw that it was cancelled.
#[derive(Drop)]
struct Count(u64);

impl Piece for Count {
    type Done = u64;

    ghost promise = { λ _ _. Unit {0} };

    fn go<R: Wait>(self, _rt: &R, task: &TaskContext) -> u64 {
        for reached in 0..self.0 {
            if task.should_cancel() {
                return reached;
            }
        }
        self.0
    }
}

/// Cancels the first piece, is refused to cancel the second, and has both go on, a third one behind them, and no fourth.
#[derive(Drop)]
struct CancelsOne;

impl PieceClient<Count> for CancelsOne {
    /// What refused the second cancel.
    type Told = Result<Option<Refusal>, Refusal>;

    ghost promise = { λ _ _ _ _ _. Unit {0} };

    #[tactic(auto, using(node_with_workers::proofs::Calls::further_calls))]
    fn call<R: Wait, L: Handed<Count>>(
        self,
        rt: &R,
        caller: &mut Caller,
        pieces: &Pieces<L, Count>,
    ) -> Result<Option<Refusal>, Refusal> {
        pieces.action(rt, caller, ECHO)?;
        caller.action_create(rt, ADD, Kind::Add, ActionAttr::new())?;
        let first = pieces.start(rt, caller, 0, ECHO, TaskAttr::new(), None)?;
        pieces.cancel(rt, caller, 0, first)?;
        caller.task_wait(rt, first, Timeout::Infinite)?;
        // That task is gone, so this is refused.
        let refused = pieces.cancel(rt, caller, 1, first).err();
        let second = pieces.start(rt, caller, 1, ECHO, TaskAttr::new(), None)?;
        caller.task_wait(rt, second, Timeout::Infinite)?;
        let third = pieces.start(rt, caller, 2, ECHO, TaskAttr::new(), None)?;
        caller.task_wait(rt, third, Timeout::Infinite)?;
        // Neither a task of another kind nor one with two arguments runs the fourth.
        let other = caller.task_start(rt, ADD, &args_of(3), TaskAttr::new(), None)?;
        caller.task_wait(rt, other, Timeout::Infinite)?;
        let mut two = args_of(3);
        let _ = two.push(3);
        let other = caller.task_start(rt, ECHO, &two, TaskAttr::new(), None)?;
        caller.task_wait(rt, other, Timeout::Infinite)?;
        Ok(refused.map(|refused| Refusal::from(refused)))
    }
}

/// What refused the second cancel, and what the second, the third and the fourth piece counted.
pub fn counted<R: Threads + Wait + Sync>(
    rt: &R,
    alloc: Global,
) -> Result<(Option<Refusal>, Vec<Option<u64>>), Unfinished> {
    // Only by its cancel the first one ends soon.
    let pieces = vec![in alloc; Count(1 << 62), Count(1_000), Count(2_000), Count(3_000)]?;
    let mut worked = with_pieces(rt, alloc, NodeAttr::new(), pieces, CancelsOne)?;
    // How far the first came depends on the schedule.
    if !worked.results.is_empty() {
        worked.results.remove(0);
    }
    Ok((worked.told?, worked.results))
}
