//! Facts on the definition of the report. Each function does nothing: its contract is the fact.

ghost use Rattle.run_report.specs.Worked.{WorkedReports};
ghost use Rattle.run_report.specs.WorkedLines.{WorkedReportLines};

/// Worked reports, and the lines of which they are made.
#[tactic(auto, using(crate::proofs::Computed::worked_reports, crate::proofs::Computed::worked_lines))]
pub fn worked_reports()
    ensures reports { WorkedReports }
    ensures lines { WorkedReportLines }
{}
