//! The report of a run.
ghost use Rattle.std.specs.Prelude.{◌≡◌, length, IfOk};
ghost use Rattle.mtapi_machine.specs.Legal.{Legal};
ghost use Rattle.mtapi_machine.specs.State.{terms_with};
ghost use Rattle.run_report.specs.Report.{run_terms, report};

use crate::page::text_by_entries;
use mtapi_values::Layout;
use node_journals::{Journal, ShortList};
use std::alloc::{AllocError, Global};
use workload_file::Workload;

/// Writes the report of a run of this workload, by the entries of its journal: what became of each
/// task, and then what the calls answered. It fails for want of memory alone.
#[tactic(auto, using(crate::proofs::Parts::report_is))]
pub fn report_of_entries(
    alloc: Global,
    layout: Layout,
    load: &Workload,
    entries: &ShortList,
) -> Result<Vec<u8>, AllocError>
    requires legal { Legal (run_terms layout load.now) entries.now.entries }
    ensures { IfOk result (λ text. text.items ≡ report layout load.now entries.now.entries) }
{
    let _ = layout;
    text_by_entries(alloc, load, entries)
}

/// Writes the report of a run of this workload that left this journal: what became of each task,
/// and then what the calls answered. It fails for want of memory alone.
#[tactic(auto, using(crate::proofs::Parts::legal_same))]
pub fn report_of(alloc: Global, load: &Workload, journal: &Journal) -> Result<Vec<u8>, AllocError>
    requires settings { journal.now.settings ≡ load.now.settings }
    requires callers { journal.now.callers ≡ length load.now.parts }
    requires legal { Legal (terms_with journal.now.layout journal.now.settings journal.now.callers) journal.now.entries.entries }
    ensures { IfOk result (λ text. text.items ≡ report journal.now.layout load.now journal.now.entries.entries) }
{
    report_of_entries(alloc, journal.layout, load, &journal.entries)
}
