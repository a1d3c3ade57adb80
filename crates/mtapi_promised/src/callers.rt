//! Two callers start the pieces of one table, each a half of them.

use mtapi_values::{NodeAttr, TaskAttr, Timeout};
use sched_workers::Caller;
use std::alloc::Global;
use std::sync::Wait;
use std::thread::Threads;
use typed_pieces::{
    Handed, Piece, PieceClient, Pieces, Refusal, TaskContext, Unfinished, with_pieces_callers,
};

/// A number to square.
#[derive(Drop)]
struct Square(u32);

impl Piece for Square {
    type Done = u64;

    ghost promise = { λ _ _. Unit {0} };

    fn go<R: Wait>(self, _rt: &R, _task: &TaskContext) -> u64 {
        u64::from(self.0) * u64::from(self.0)
    }
}

/// Starts the pieces at these places by an action of its own, and waits until all have ended.
#[derive(Drop)]
struct Half {
    job: u32,
    from: u32,
    to: u32,
}

impl PieceClient<Square> for Half {
    type Told = Result<(), Refusal>;

    ghost promise = { λ _ _ _ _ _. Unit {0} };

    #[tactic(auto, using(node_with_workers::proofs::Calls::further_calls))]
    fn call<R: Wait, L: Handed<Square>>(
        self,
        rt: &R,
        caller: &mut Caller,
        pieces: &Pieces<L, Square>,
    ) -> Result<(), Refusal> {
        pieces.action(rt, caller, self.job)?;
        let group = caller.group_create(rt)?;
        for place in self.from..self.to {
            let attr = TaskAttr::new();
            pieces.start(rt, caller, place, self.job, attr, Some(group))?;
        }
        caller.group_wait_all(rt, group, Timeout::Infinite)?;
        Ok(())
    }
}

/// The squares of the numbers below so many, of which main starts the first half, and a further caller the second.
pub fn squares_below<R: Threads + Wait + Sync>(
    rt: &R,
    alloc: Global,
    count: u32,
) -> Result<Vec<Option<u64>>, Unfinished> {
    let pieces = (0..count).map(|number| Square(number)).collect(alloc)?;
    let main = Half {
        job: 1,
        from: 0,
        to: count / 2,
    };
    let other = Half {
        job: 2,
        from: count / 2,
        to: count,
    };
    let others = vec![in alloc; other]?;
    let worked = with_pieces_callers(rt, alloc, NodeAttr::new(), pieces, main, others)?;
    worked.told?;
    for told in worked.others {
        told?;
    }
    Ok(worked.results)
}
