//! Laws of runs that follow from the definitions alone. Each function does nothing: its contract is the law.

ghost use Rattle.workload_runs.specs.Whole.{LinesAreLeft, JournalIsRun};
ghost use Rattle.workload_runs.specs.Worked.{WorkedCalls};

/// What a journal shows of a seat is what is left of the seat's turns in the whole history.
#[tactic(auto, using(crate::proofs::Left::journal_lines))]
pub fn law_lines_left()
    ensures { LinesAreLeft }
{}

/// Where a whole history is a run of a workload, so is its journal.
#[tactic(auto, using(crate::proofs::Joins::journal_is_run))]
pub fn law_journal_is_run()
    ensures { JournalIsRun }
{}

/// The call that each kind of statement makes, one by one.
#[tactic(auto, unfolding(crate::specs::Lines::lines_of, crate::specs::RunOf::all_work))]
pub fn worked_calls()
    ensures { WorkedCalls }
{}
