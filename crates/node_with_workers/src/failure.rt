//! Why a node gave nothing back.

use crate::refusals::NoThread;
use mtapi_values::MtapiStatus;
use node_core::Journaled;
use std::alloc::AllocError;
use thiserror::Error;
use turn_cell::{Spent, TurnSeat};

/// Why a node gave nothing back.
#[derive(Debug, Drop, Error)]
pub enum Failure {
    /// Want of memory.
    #[error("out of memory")]
    Memory,
    /// A thread was refused.
    #[error("a thread was refused")]
    NoThread(NoThread),
    /// The node refused to open or to end.
    #[error("refused with {0}")]
    Refused(MtapiStatus),
    /// The turns of its cell are used up.
    #[error("the turns are used up")]
    Spent(Spent),
}

impl From<AllocError> for Failure {
    ghost use Rattle.std.specs.Prelude.{◌≡◌};
    ghost use Rattle.node_with_workers.specs.declared.failure.Failure.TheVariants.{Memory};

    ghost from_gives = { λ _ failure. failure ≡ Memory };

    fn from(_error: AllocError) -> Failure {
        Failure::Memory
    }
}

impl From<MtapiStatus> for Failure {
    fn from(status: MtapiStatus) -> Failure {
        Failure::Refused(status)
    }
}

/// Why a node gave nothing back whose threads were started by what was handed in.
#[derive(Drop)]
pub enum NodeFailure {
    /// A thread was refused. Main's seat tells the calls that main made.
    NoThread(TurnSeat<Journaled>),
    /// The node failed.
    Failed(Failure),
}
