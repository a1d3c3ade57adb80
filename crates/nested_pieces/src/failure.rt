//! Why work that splits gave no result.

use mtapi_values::MtapiStatus;
use node_with_workers::Failure;
use std::alloc::{AllocError, AllocFailed};
use thiserror::Error;
use typed_pieces::Unfinished;

/// Why work that splits gave no result.
#[derive(Debug, Drop, Error)]
pub enum NestFailure {
    /// The node failed, or the root has no result.
    #[error("{0}")]
    Run(Unfinished),
    /// There would have been more pieces than there may be.
    #[error("there are too many pieces")]
    Limit,
}

impl From<Failure> for NestFailure {
    ghost use Rattle.std.specs.Prelude.{◌≡◌};
    ghost use Rattle.typed_pieces.specs.declared.unfinished.Unfinished.TheVariants.{Node};
    ghost use Rattle.nested_pieces.specs.declared.failure.NestFailure.TheVariants.{Run};

    ghost from_gives = { λ failure nested. nested ≡ Run (Node failure) };

    fn from(failure: Failure) -> NestFailure {
        NestFailure::Run(Unfinished::Node(failure))
    }
}

impl From<AllocError> for NestFailure {
    ghost use Rattle.std.specs.Prelude.{◌≡◌};
    ghost use Rattle.node_with_workers.specs.declared.failure.Failure.TheVariants.{Memory};
    ghost use Rattle.typed_pieces.specs.declared.unfinished.Unfinished.TheVariants.{Node};
    ghost use Rattle.nested_pieces.specs.declared.failure.NestFailure.TheVariants.{Run};

    ghost from_gives = { λ _ nested. nested ≡ Run (Node Memory) };

    fn from(_error: AllocError) -> NestFailure {
        NestFailure::Run(Unfinished::Node(Failure::Memory))
    }
}

impl<T: Drop> From<AllocFailed<T>> for NestFailure {
    ghost use Rattle.std.specs.Prelude.{◌≡◌};
    ghost use Rattle.node_with_workers.specs.declared.failure.Failure.TheVariants.{Memory};
    ghost use Rattle.typed_pieces.specs.declared.unfinished.Unfinished.TheVariants.{Node};
    ghost use Rattle.nested_pieces.specs.declared.failure.NestFailure.TheVariants.{Run};

    ghost from_gives = { λ _ nested. nested ≡ Run (Node Memory) };

    fn from(_error: AllocFailed<T>) -> NestFailure {
        NestFailure::Run(Unfinished::Node(Failure::Memory))
    }
}

impl From<MtapiStatus> for NestFailure {
    ghost use Rattle.std.specs.Prelude.{◌≡◌};
    ghost use Rattle.node_with_workers.specs.declared.failure.Failure.TheVariants.{Refused};
    ghost use Rattle.typed_pieces.specs.declared.unfinished.Unfinished.TheVariants.{Node};
    ghost use Rattle.nested_pieces.specs.declared.failure.NestFailure.TheVariants.{Run};

    ghost from_gives = { λ status nested. nested ≡ Run (Node (Refused status)) };

    fn from(status: MtapiStatus) -> NestFailure {
        NestFailure::Run(Unfinished::Node(Failure::Refused(status)))
    }
}
