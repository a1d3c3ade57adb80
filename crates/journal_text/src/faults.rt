//! Why a line gave no entry.
use std::alloc::{AllocError, AllocFailed};

/// Why a line gave no entry.
#[derive(Debug, Drop)]
pub enum LineError {
    /// Memory ran out.
    Memory,
    /// The line is outside the grammar.
    Outside,
}

impl From<AllocError> for LineError {
    ghost use Rattle.std.specs.Prelude.{◌≡◌};
    ghost use Rattle.journal_text.specs.declared.faults.LineError.TheVariants.{Memory};

    ghost from_gives = { λ _ e. e ≡ Memory };

    fn from(_: AllocError) -> Self {
        LineError::Memory
    }
}

impl<T: Drop> From<AllocFailed<T>> for LineError {
    ghost use Rattle.std.specs.Prelude.{◌≡◌};
    ghost use Rattle.journal_text.specs.declared.faults.LineError.TheVariants.{Memory};

    ghost from_gives = { λ _ e. e ≡ Memory };

    fn from(_: AllocFailed<T>) -> Self {
        LineError::Memory
    }
}

/// Why a source gave no journal. The variants stand in the order in which they are looked for.
#[derive(Debug, Drop)]
pub enum JournalError {
    /// Memory ran out.
    Memory,
    /// A read failed: the source's count of faults rose.
    Read,
    /// The source gave more than 67,108,864 bytes.
    TooLong,
    /// The first line, counted from 1, that ends with a line feed and is outside the grammar; line 1 where there is no byte.
    BadLine { line: u64 },
    /// No such line is there, and the last byte isn't a line feed.
    PartialEnd,
}

/// Why a text is no journal.
#[derive(Debug, Drop)]
pub enum TextError {
    Memory,
    BadLine { line: u64 },
    PartialEnd,
}

impl From<AllocError> for TextError {
    ghost use Rattle.std.specs.Prelude.{◌≡◌};
    ghost use Rattle.journal_text.specs.declared.faults.TextError.TheVariants.{Memory};

    ghost from_gives = { λ _ e. e ≡ Memory };

    fn from(_: AllocError) -> Self {
        TextError::Memory
    }
}
