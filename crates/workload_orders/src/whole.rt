//! Whether no report is missing.

ghost use Rattle.std.specs.Prelude.{◌≡◌, true, IfOk};
ghost use Rattle.workload_file.specs.Formed.{WellFormed};
ghost use Rattle.begun_runs.specs.Complete.{HasAllReports};
ghost use Rattle.workload_orders.specs.Shown.{AllShow, report_texts};

use crate::listed::Report;
use settled_workloads::is_settled;
use std::alloc::{AllocError, Global};
use workload_file::Workload;

/// Whether these are known to be all reports of a workload: it is settled, so that its statements alone decide the report, and one was
/// found. It fails for want of memory alone.
pub(crate) fn are_all(
    alloc: Global,
    load: &Workload,
    reports: &Vec<Report>,
) -> Result<bool, AllocError>
    requires formed { WellFormed load.now }
    requires shown { AllShow load.now reports.now.items }
    ensures { IfOk result (λ all. all ≡ true → HasAllReports load.now (report_texts reports.now.items)) }
{
    if reports.is_empty() {
        return Ok(false);
    }
    is_settled(alloc, load)
}
