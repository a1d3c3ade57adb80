//! Why a text is no workload.
ghost use Rattle.std.specs.Prelude.{◌≡◌};
ghost use Rattle.workload_file.specs.Causes.{cause_text};

use std::alloc::{AllocError, AllocFailed};

/// Why a line is faulty. The variants stand in the order in which a line is looked at: the first that it meets is its cause.
#[derive(Clone, Copy, Debug, Drop, PartialEq, Eq)]
pub enum Cause {
    /// The line has more than 512 bytes.
    LineTooLong,
    /// A byte of the line is none of 0x20 to 0x7E.
    BadByte,
    /// The first word names no statement.
    UnknownWord,
    /// It is the 20,001st statement.
    TooManyStatements,
    /// It is the ninth `caller` line.
    TooManyCallers,
    /// A `node` that isn't the first statement, or a `begin` outside main's part or a second time.
    Misplaced,
    /// The name is absent or malformed.
    BadName,
    /// A word without `=`, or a key that the statement doesn't have.
    UnknownOption,
    /// Two options with one key.
    OptionTwice,
    /// The value of an option isn't one of its key.
    BadValue,
    /// An option is missing that the statement must have.
    OptionMissing,
    /// The caller bound the name earlier, or another part has it.
    NameTaken,
    /// The caller didn't bind the name earlier to that kind of object.
    NameUnknown,
}

impl Cause {
    /// What a user is told.
    #[rattlefmt::skip]
    #[tactic(auto, unfolding(crate::specs::Causes::cause_text))]
    pub fn text(self) -> &'static str
        ensures { result.now ≡ cause_text self }
    {
        match self {
            Cause::LineTooLong => "line too long", Cause::BadByte => "bad byte", Cause::UnknownWord => "unknown word",
            Cause::TooManyStatements => "too many statements", Cause::TooManyCallers => "too many callers",
            Cause::Misplaced => "misplaced", Cause::BadName => "bad name", Cause::UnknownOption => "unknown option",
            Cause::OptionTwice => "option twice", Cause::BadValue => "bad value", Cause::OptionMissing => "option missing",
            Cause::NameTaken => "name taken", Cause::NameUnknown => "name unknown",
        }
    }
}

/// Why a source gave no workload.
#[derive(Debug, Drop)]
pub enum LoadError {
    /// Memory ran out.
    Memory,
    /// A read failed: the source's count of faults rose.
    Read,
    /// The source gave more than 1,048,576 bytes.
    TooLong,
    /// The first faulty line, counted from 1, and its first cause.
    Refused { line: u64, cause: Cause },
}

/// A faulty line, counted from 1, and its first cause.
#[derive(Clone, Copy, Drop)]
pub struct Fault {
    pub line: u64,
    pub cause: Cause,
}

/// Why lines gave no workload.
#[derive(Drop)]
pub enum LineError {
    Memory,
    Refused(Fault),
}

impl From<AllocError> for LineError {
    ghost use Rattle.std.specs.Prelude.{◌≡◌};
    ghost use Rattle.workload_file.specs.declared.faults.LineError.TheVariants.{Memory};

    ghost from_gives = { λ _ e. e ≡ Memory };

    fn from(_: AllocError) -> Self {
        LineError::Memory
    }
}

impl<T: Drop> From<AllocFailed<T>> for LineError {
    ghost use Rattle.std.specs.Prelude.{◌≡◌};
    ghost use Rattle.workload_file.specs.declared.faults.LineError.TheVariants.{Memory};

    ghost from_gives = { λ _ e. e ≡ Memory };

    fn from(_: AllocFailed<T>) -> Self {
        LineError::Memory
    }
}
