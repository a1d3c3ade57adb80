//! The run in an input: a journal, and the workload that stands before it.
ghost use Rattle.std.specs.Prelude.{◌≡◌, ◌≤◌, length, IfOk, IfErr};
ghost use Rattle.journal_reading.specs.Ends.{FrontGives, RestGives, InputFails, IsRunOf};

use crate::ends::{RunView, ShowEnd};
use crate::own_names::OwnNames;
use journal_text::{InputPart, JournalError, parts_of, read_journal};
use node_journals::Journal;
use std::alloc::Global;
use workload_file::{LoadError, Workload, read_workload};

/// What an input keeps of a run.
#[derive(Drop)]
pub struct KeptRun {
    /// Its workload, for its names, where that is known.
    pub workload: Option<Workload>,
    /// Names for its objects that stand in comments before its journal.
    pub names: OwnNames,
    pub journal: Journal,
}

/// The workload that the part before the journal is, or how the program ends where it has to be one.
fn workload_in(alloc: Global, view: RunView, front: &[u8]) -> Result<Option<Workload>, ShowEnd>
    ensures { FrontGives view front.now result }
{
    let mut part = InputPart { left: front };
    match (read_workload(alloc, &mut part), view) {
        (Ok(load), _) => Ok(Some(load)),
        (Err(LoadError::Memory), _) => Err(ShowEnd::Memory),
        // Such a source doesn't fail.
        (Err(LoadError::Read), _) => unreachable!(),
        (Err(LoadError::TooLong), RunView::Picture) => Ok(None),
        (Err(LoadError::Refused { .. }), RunView::Picture) => Ok(None),
        (Err(LoadError::TooLong), RunView::Trace) => Err(ShowEnd::WorkloadTooLong),
        (Err(LoadError::Refused { line, cause }), RunView::Trace) => Err(ShowEnd::Refused(
            line, cause,
        )),
    }
}

/// The journal that the rest of an input is, or how the program ends where it is none.
fn journal_in(alloc: Global, rest: &[u8]) -> Result<Journal, ShowEnd>
    requires { length rest.now ≤ 67108864 }
    ensures { RestGives rest.now result }
{
    let mut part = InputPart { left: rest };
    match read_journal(alloc, &mut part) {
        Ok(journal) => Ok(journal),
        Err(JournalError::Memory) => Err(ShowEnd::Memory),
        // Such a source doesn't fail, and a journal may be as long as the input.
        Err(JournalError::Read) => unreachable!(),
        Err(JournalError::TooLong) => unreachable!(),
        Err(JournalError::BadLine { line }) => Err(ShowEnd::BadLine(line)),
        Err(JournalError::PartialEnd) => Err(ShowEnd::CutShort),
    }
}

/// The run that an input keeps, or how the program ends where it keeps none.
pub fn run_in(alloc: Global, view: RunView, bytes: &[u8]) -> Result<KeptRun, ShowEnd>
    requires { length bytes.now ≤ 67108864 }
    ensures some { IfOk result (λ run. IsRunOf view bytes.now run) }
    ensures none { IfErr result (InputFails view bytes.now) }
{
    let (front, rest) = parts_of(bytes);
    let workload = match workload_in(alloc, view, front) {
        Ok(workload) => workload,
        Err(end) => return Err(end),
    };
    let Ok(names) = OwnNames::before_journal(alloc, front) else {
        return Err(ShowEnd::Memory);
    };
    match journal_in(alloc, rest) {
        Ok(journal) => Ok(KeptRun {
            workload,
            names,
            journal,
        }),
        Err(end) => Err(end),
    }
}
