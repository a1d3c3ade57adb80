//! A law of the report. The function does nothing: its contract is the law.

ghost use Rattle.run_report.specs.RunReplies.{ReadsTheRun};

/// In a run of a workload, the report reads for each statement the reply to which its own call came.
pub fn law_report_reads_the_run()
    ensures { ReadsTheRun }
{}
