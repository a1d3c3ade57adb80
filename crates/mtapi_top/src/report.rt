//! The report of a run, which of a settled workload the statements alone tell.
ghost use Rattle.std.specs.Prelude.{◌≡◌, IfOk, true};
ghost use Rattle.journal_check.specs.Verdicts.{IsLegal, IsJournalRun};
ghost use Rattle.run_report.specs.Report.{report};
ghost use Rattle.settled_runs.specs.Plain.{plain_report};
ghost use Rattle.settled_runs.specs.Settled.{is_settled};
ghost use Rattle.workload_file.specs.Formed.{WellFormed};

use node_core::Journal;
use std::alloc::{AllocError, Global};
use workload_file::Workload;

/// Writes the report of a run of this workload that left this journal: what became of each task,
/// and then what the calls answered. Of a settled workload it is the plain report, whatever the
/// number of workers and the order of the calls. It fails for want of memory alone.
#[tactic(auto, using(crate::proofs::SettledOutput::settled_report))]
pub fn report_of(alloc: Global, load: &Workload, journal: &Journal) -> Result<Vec<u8>, AllocError>
    requires formed { WellFormed load.now }
    requires legal { IsLegal journal.now }
    requires run { IsJournalRun load.now journal.now }
    ensures report { IfOk result (λ text. text.items ≡ report journal.now.layout load.now journal.now.entries.entries) }
    ensures settled { is_settled load.now ≡ true → IfOk result (λ text. text.items ≡ plain_report load.now) }
{
    // A number stands beside each entry.
    let _ = journal.entries.skipped();
    run_report::report_of(alloc, load, journal)
}
