//! Why work that splits gave no result.

use crate::unfinished::Unfinished;
use mtapi_values::MtapiStatus;
use node_with_workers::Failure;
use std::alloc::{AllocError, AllocFailed};
use thiserror::Error;

/// Why work that splits gave no result.
#[derive(Debug, Drop, Error)]
pub enum SplitFailure {
    /// The pieces of a level gave no results.
    #[error("{0}")]
    Run(Unfinished),
    /// There would have been more pieces than there may be.
    #[error("{parts} pieces are too many after {before}")]
    Limit {
        /// How many had run.
        before: u32,
        /// How many parts these had.
        parts: usize,
    },
}

impl From<Unfinished> for SplitFailure {
    ghost use Rattle.std.specs.Prelude.{◌≡◌};
    ghost use Rattle.typed_pieces.specs.declared.split_failure.SplitFailure.TheVariants.{Run};

    ghost from_gives = { λ unfinished failure. failure ≡ Run unfinished };

    fn from(unfinished: Unfinished) -> SplitFailure {
        SplitFailure::Run(unfinished)
    }
}

impl From<AllocError> for SplitFailure {
    ghost use Rattle.std.specs.Prelude.{◌≡◌};
    ghost use Rattle.node_with_workers.specs.declared.failure.Failure.TheVariants.{Memory};
    ghost use Rattle.typed_pieces.specs.declared.unfinished.Unfinished.TheVariants.{Node};
    ghost use Rattle.typed_pieces.specs.declared.split_failure.SplitFailure.TheVariants.{Run};

    ghost from_gives = { λ _ failure. failure ≡ Run (Node Memory) };

    fn from(_error: AllocError) -> SplitFailure {
        SplitFailure::Run(Unfinished::Node(Failure::Memory))
    }
}

impl<T: Drop> From<AllocFailed<T>> for SplitFailure {
    ghost use Rattle.std.specs.Prelude.{◌≡◌};
    ghost use Rattle.node_with_workers.specs.declared.failure.Failure.TheVariants.{Memory};
    ghost use Rattle.typed_pieces.specs.declared.unfinished.Unfinished.TheVariants.{Node};
    ghost use Rattle.typed_pieces.specs.declared.split_failure.SplitFailure.TheVariants.{Run};

    ghost from_gives = { λ _ failure. failure ≡ Run (Node Memory) };

    fn from(_error: AllocFailed<T>) -> SplitFailure {
        SplitFailure::Run(Unfinished::Node(Failure::Memory))
    }
}

impl From<MtapiStatus> for SplitFailure {
    ghost use Rattle.std.specs.Prelude.{◌≡◌};
    ghost use Rattle.node_with_workers.specs.declared.failure.Failure.TheVariants.{Refused};
    ghost use Rattle.typed_pieces.specs.declared.unfinished.Unfinished.TheVariants.{Node};
    ghost use Rattle.typed_pieces.specs.declared.split_failure.SplitFailure.TheVariants.{Run};

    ghost from_gives = { λ status failure. failure ≡ Run (Node (Refused status)) };

    fn from(status: MtapiStatus) -> SplitFailure {
        SplitFailure::Run(Unfinished::Node(Failure::Refused(status)))
    }
}
