//! How the program ends.
ghost use Rattle.mtapi_kept.specs.Ends.{Tells};

use byte_io::{Sink, say};
use journal_reading::{RunView, ShowEnd};
use std::alloc::{AllocError, Global};

/// What was made of the input: what is written, what is told beside it, and the status.
#[derive(Drop)]
pub struct Answer {
    pub text: Vec<u8>,
    pub told: Vec<u8>,
    pub status: u8,
}

/// Why there is no answer.
#[derive(Clone, Copy, Drop)]
pub enum NoAnswer {
    /// The words are none of the program's.
    Usage,
    /// The command ended with this status, and said why.
    Told(u8),
    /// For this cause.
    Shown(ShowEnd),
}

impl From<AllocError> for NoAnswer {
    ghost use Rattle.std.specs.Prelude.{◌≡◌};
    ghost use Rattle.journal_reading.specs.declared.ends.ShowEnd.TheVariants.{Memory};
    ghost use Rattle.mtapi_kept.specs.declared.ends.NoAnswer.TheVariants.{Shown};

    ghost from_gives = { λ _ e. e ≡ Shown Memory };

    fn from(_: AllocError) -> NoAnswer {
        NoAnswer::Shown(ShowEnd::Memory)
    }
}

/// Says on `err` why there is no answer, and gives the status. A fault of `err` changes nothing else.
#[tactic(auto, unfolding(crate::specs::Ends::kept_usage))]
pub fn tell<E: Sink>(alloc: Global, why: NoAnswer, err: &mut E) -> u8
    ensures told { Tells why (E.faults err.old) (E.faults err.new) (E.held err.old) (E.held err.new) result }
{
    match why {
        NoAnswer::Usage => {
            say(
                err,
                b"usage: verify | check [BYTES] | keep [LOOKS] | bounded LOOKS | waits LOOKS\n",
            );
            2
        }
        NoAnswer::Told(status) => status,
        NoAnswer::Shown(end) => journal_reading::tell(alloc, RunView::Trace, end, err),
    }
}
