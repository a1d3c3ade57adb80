//! What a piece is told while it runs.

ghost use Rattle.std.specs.Prelude.{◌≡◌, IfSome, slice_get};
ghost use Rattle.std.specs.Option.{option_copied};
ghost use Rattle.typed_pieces.specs.Cancels.{HasCancelled, IsSet};

use mtapi_values::TaskHandle;
use sched_workers::Caller;
use std::alloc::{AllocError, Global};
use std::sync::{OnceLock, OnceToken, Wait};

/// For each piece a lock that is set once its task was cancelled.
#[derive(Drop)]
pub struct Cancels {
    cancelled: Vec<OnceLock<()>>,
}

impl Cancels {
    /// Of so many pieces, none of which was cancelled.
    pub fn none(alloc: Global, places: usize) -> Result<Cancels, AllocError> {
        let mut cancelled = Vec::with_capacity(alloc, places)?;
        for _ in 0..places {
            cancelled.push(OnceLock::new())?;
        }
        Ok(Cancels { cancelled })
    }

    /// The task of the piece at this place was cancelled, by the last call of this caller. It stays so. Gives what shows that the lock of this
    /// place is set.
    pub fn add<R: Wait>(
        &self,
        rt: &R,
        place: usize,
        _caller: &Caller,
        task: TaskHandle,
    ) -> Option<OnceToken<'_, ()>>
        requires { HasCancelled task _caller.now }
        ensures { IsSet (slice_get self.now.cancelled.items place) result }
    {
        match self.cancelled.get(place) {
            Some(lock) => match lock.try_insert(rt, ()) {
                Ok(token) => Some(token),
                Err((token, _)) => Some(token),
            },
            None => None,
        }
    }
}

/// The task of a piece, as the piece sees it while it runs.
#[derive(Clone, Copy, Drop)]
pub struct TaskContext<'a> {
    // The lock of its place, and no other one.
    cancelled: Option<&'a OnceLock<()>>,
}

impl<'a> TaskContext<'a> {
    /// That of the piece at this place.
    pub(crate) fn of(cancels: &'a Cancels, place: usize) -> TaskContext<'a>
        ensures { option_copied result.cancelled ≡ slice_get cancels.now.cancelled.items place }
    {
        TaskContext {
            cancelled: cancels.cancelled.get(place),
        }
    }

    /// That of a piece whose task no client cancels.
    pub fn uncancelled() -> TaskContext<'a> {
        TaskContext { cancelled: None }
    }

    // What shows that its lock is set, if it is.
    fn cancel(&self) -> Option<OnceToken<'a, ()>>
        ensures { IfSome result (λ token. IfSome self.now.cancelled (λ lock. token.of ≡ lock.now.id)) }
    {
        match self.cancelled {
            Some(lock) => lock.witness(),
            None => None,
        }
    }

    /// Whether the piece should stop: the client has cancelled its task by `Pieces::cancel`. Once true it stays so.
    ///
    /// It takes no call of the node and no lock that another thread may hold, so a piece may ask often. What a piece promises holds of its result
    /// in either case.
    pub fn should_cancel(&self) -> bool {
        self.cancel().is_some()
    }
}
