//! The verdict.

ghost use Rattle.std.specs.Prelude.{◌≡◌, ◌<◌, ◌↔◌, IfOk, IsTrue, length};
ghost use Rattle.workload_file.specs.Formed.{WellFormed};
ghost use Rattle.workload_runs.specs.RunOf.{RunOf};
ghost use Rattle.workload_runs.specs.Whole.{HasSeats};
ghost use Rattle.journal_check.specs.Judged.{IsLegalOr};
ghost use Rattle.journal_check.specs.Verdicts.{IsJournalRun, IsVerdict, terms_of_journal};

use crate::judged::first_illegal;
use crate::verdicts::Verdict;
use mtapi_values::NodeAttr;
use node_core::Journal;
use run_check::is_run;
use std::alloc::{AllocError, Global};
use workload_file::Workload;

// Whether two nodes have the same settings.
fn same_settings(a: &NodeAttr, b: &NodeAttr) -> bool
    ensures { IsTrue result ↔ (a.now ≡ b.now) }
{
    a.workers() == b.workers()
        && a.tasks() == b.tasks()
        && a.actions() == b.actions()
        && a.groups() == b.groups()
        && a.queues() == b.queues()
        && a.objects() == b.objects()
        && a.priorities() == b.priorities()
        && a.generations() == b.generations()
}

// The first entry of a journal that isn't legal, as `first_illegal` says it.
fn first_illegal_in(alloc: Global, journal: &Journal) -> Result<Option<u64>, AllocError>
    ensures { IfOk result (IsLegalOr (terms_of_journal journal.now) journal.now.entries.entries) }
{
    first_illegal(
        alloc,
        journal.layout,
        journal.settings,
        journal.callers,
        journal.entries.shorts(),
    )
}

// Whether the entries of a journal are a run, as `is_run` says it.
fn is_run_in(alloc: Global, load: &Workload, journal: &Journal) -> Result<bool, AllocError>
    requires seats { HasSeats load.now }
    ensures { IfOk result (λ b. IsTrue b ↔ RunOf load.now journal.now.entries.entries journal.now.entries.skipped) }
{
    let entries = journal.entries.in_full(alloc)?;
    is_run(alloc, load, entries.as_slice(), journal.entries.skipped())
}

// Whether the journal has the workload's settings and callers, and is a run of it.
fn runs(alloc: Global, load: &Workload, journal: &Journal) -> Result<bool, AllocError>
    requires formed { WellFormed load.now }
    ensures { IfOk result (λ b. IsTrue b ↔ IsJournalRun load.now journal.now) }
{
    if !same_settings(&load.settings, &journal.settings) {
        return Ok(false);
    }
    if journal.callers as usize != load.parts.as_slice().len() {
        return Ok(false);
    }
    let _ = load.settings.workers();
    is_run_in(alloc, load, journal)
}

/// Judges a journal by itself, and then beside a workload. It fails for want of memory alone; a
/// journal of 2^32 - 1 entries or more needs more than there is.
pub fn check_run(alloc: Global, load: &Workload, journal: &Journal) -> Result<Verdict, AllocError>
    requires formed { WellFormed load.now }
    ensures { IfOk result (IsVerdict load.now journal.now) }
{
    let illegal = first_illegal_in(alloc, journal)?;
    if let Some(entry) = illegal {
        return Ok(Verdict::Illegal { entry });
    }
    if runs(alloc, load, journal)? {
        Ok(Verdict::Yes)
    } else {
        Ok(Verdict::NotRun)
    }
}
