//! Laws that follow from the definitions alone. Each function does nothing: its contract is the law.

ghost use Rattle.settled_runs.specs.PlainReplies.{PlainRepliesShowPlainReport};
ghost use Rattle.settled_runs.specs.Granted.{MadeObjectsStay, QuietCallsAreGranted};
ghost use Rattle.settled_runs.specs.RunGranted.{SettledStatementsAreGranted};
ghost use Rattle.settled_runs.specs.RunReplies.{SettledRepliesArePlain};
ghost use Rattle.settled_runs.specs.RunReport.{SettledReportsArePlain, SettledReportsAreAlike};
ghost use Rattle.settled_runs.specs.PlainSummary.{SettledSummariesArePlain};
ghost use Rattle.settled_runs.specs.RunEnds.{SettledTasksEndAsPlanned};
ghost use Rattle.settled_runs.specs.Waits.{QuietLooksAreAnswered};
ghost use Rattle.settled_runs.specs.Verdicts.{QuietVerdicts};

/// Where nobody cancels, deletes or disables anything, and every action is of a pure kind, the actions, queues and groups that were made
/// stay as they were made. No call is refused for which there is room and all that it needs; nor is a look at a task that its caller
/// alone looks at. How the tasks end says `history_law::law_quiet_ends`.
#[tactic(auto, using(crate::proofs::Verdicts::quiet_law))]
pub fn law_quiet()
    ensures stays { MadeObjectsStay }
    ensures granted { QuietCallsAreGranted }
    ensures answered { QuietLooksAreAnswered }
    ensures verdicts { QuietVerdicts }
{}

/// Where each statement of a workload gets its plain reply, and each task has its plain end, the report is the plain report.
#[tactic(auto, using(crate::proofs::PlainReplies::plain_replies))]
pub fn law_plain_replies()
    ensures { PlainRepliesShowPlainReport }
{}

/// In a run of a settled workload each task ends as the kind of its job's actions answers to its arguments, in whatever order the calls
/// came and whichever worker took it.
#[tactic(auto, using(crate::proofs::RunEnds::settled_tasks_end_as_planned))]
pub fn law_settled_ends()
    ensures { SettledTasksEndAsPlanned }
{}

/// In a run of a settled workload no statement is refused that makes an action, a queue, a group or a task: each is given its handle.
pub fn law_settled_granted()
    ensures { SettledStatementsAreGranted }
{}

/// In a run of a settled workload each statement gets its plain reply: one that asks for a task gets one, which ends as the kind of its
/// job's actions answers; a wait for all tasks of a group tells the fault of those put into it since the last one; and no other call is
/// refused.
pub fn law_settled_replies()
    ensures { SettledRepliesArePlain }
{}

/// The report of a run of a settled workload is its plain report, and its summary the plain summary, whatever the number of workers, in
/// whichever order the calls came and whoever took the tasks. So two runs of the same parts have one report.
#[tactic(auto, using(crate::proofs::PlainSummary::settled_law))]
pub fn law_settled_report()
    ensures report { SettledReportsArePlain }
    ensures summary { SettledSummariesArePlain }
    ensures alike { SettledReportsAreAlike }
{}
