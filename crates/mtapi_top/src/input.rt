//! The input of `check`: a workload, and a journal behind it.
ghost use Rattle.std.specs.Prelude.{◌≤◌, length, IfOk};
ghost use Rattle.workload_file.specs.Formed.{WellFormed};
ghost use Rattle.mtapi_top.specs.Check.{FirstPartGives, LastPartGives};

use crate::ends::End;
use journal_text::{InputPart, JournalError, read_journal};
use node_core::Journal;
use std::alloc::Global;
use workload_file::{LoadError, Workload, read_workload};

/// The workload that the part before the journal is, or how the command ends where it is none.
pub(crate) fn workload_in(alloc: Global, front: &[u8]) -> Result<Workload, End>
    ensures gives { FirstPartGives front.now result }
    ensures formed { IfOk result WellFormed }
{
    let mut part = InputPart { left: front };
    match read_workload(alloc, &mut part) {
        Ok(load) => Ok(load),
        Err(LoadError::Memory) => Err(End::Memory),
        // Such a source doesn't fail.
        Err(LoadError::Read) => unreachable!(),
        Err(LoadError::TooLong) => Err(End::TooLong),
        Err(LoadError::Refused { line, cause }) => Err(End::Refused(line, cause)),
    }
}

/// The journal that the rest of the input is, or how the command ends where it is none.
pub(crate) fn journal_in(alloc: Global, rest: &[u8]) -> Result<Journal, End>
    requires { length rest.now ≤ 67108864 }
    ensures { LastPartGives rest.now result }
{
    let mut part = InputPart { left: rest };
    match read_journal(alloc, &mut part) {
        Ok(journal) => Ok(journal),
        Err(JournalError::Memory) => Err(End::Memory),
        // Such a source doesn't fail, and a journal may be as long as the input.
        Err(JournalError::Read) => unreachable!(),
        Err(JournalError::TooLong) => unreachable!(),
        Err(JournalError::BadLine { line }) => Err(End::JournalLine(line)),
        Err(JournalError::PartialEnd) => Err(End::JournalCut),
    }
}
