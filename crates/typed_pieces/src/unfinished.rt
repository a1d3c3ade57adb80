//! Why a run of pieces gave no results.

use crate::refusal::Refusal;
use mtapi_values::MtapiStatus;
use node_with_workers::Failure;
use std::alloc::{AllocError, AllocFailed};
use thiserror::Error;

/// Why a run of pieces gave no results.
#[derive(Debug, Drop, Error)]
pub enum Unfinished {
    /// The node failed.
    #[error("{0}")]
    Node(Failure),
    /// A call of a client was refused.
    #[error("{0}")]
    Refused(Refusal),
    /// The piece of this place has no result. It is the first one.
    #[error("no result of piece {0}")]
    NoResult(u32),
}

impl From<Failure> for Unfinished {
    ghost use Rattle.std.specs.Prelude.{◌≡◌};
    ghost use Rattle.typed_pieces.specs.declared.unfinished.Unfinished.TheVariants.{Node};

    ghost from_gives = { λ failure unfinished. unfinished ≡ Node failure };

    fn from(failure: Failure) -> Unfinished {
        Unfinished::Node(failure)
    }
}

impl From<AllocError> for Unfinished {
    ghost use Rattle.std.specs.Prelude.{◌≡◌};
    ghost use Rattle.node_with_workers.specs.declared.failure.Failure.TheVariants.{Memory};
    ghost use Rattle.typed_pieces.specs.declared.unfinished.Unfinished.TheVariants.{Node};

    ghost from_gives = { λ _ unfinished. unfinished ≡ Node Memory };

    fn from(_error: AllocError) -> Unfinished {
        Unfinished::Node(Failure::Memory)
    }
}

impl<T: Drop> From<AllocFailed<T>> for Unfinished {
    ghost use Rattle.std.specs.Prelude.{◌≡◌};
    ghost use Rattle.node_with_workers.specs.declared.failure.Failure.TheVariants.{Memory};
    ghost use Rattle.typed_pieces.specs.declared.unfinished.Unfinished.TheVariants.{Node};

    ghost from_gives = { λ _ unfinished. unfinished ≡ Node Memory };

    fn from(_error: AllocFailed<T>) -> Unfinished {
        Unfinished::Node(Failure::Memory)
    }
}

impl From<MtapiStatus> for Unfinished {
    ghost use Rattle.std.specs.Prelude.{◌≡◌};
    ghost use Rattle.node_with_workers.specs.declared.failure.Failure.TheVariants.{Refused};
    ghost use Rattle.typed_pieces.specs.declared.unfinished.Unfinished.TheVariants.{Node};

    ghost from_gives = { λ status unfinished. unfinished ≡ Node (Refused status) };

    fn from(status: MtapiStatus) -> Unfinished {
        Unfinished::Node(Failure::Refused(status))
    }
}

impl From<Refusal> for Unfinished {
    ghost use Rattle.std.specs.Prelude.{◌≡◌};
    ghost use Rattle.typed_pieces.specs.declared.unfinished.Unfinished.TheVariants.{Refused};

    ghost from_gives = { λ refusal unfinished. unfinished ≡ Refused refusal };

    fn from(refusal: Refusal) -> Unfinished {
        Unfinished::Refused(refusal)
    }
}
