//! The run of a workload, and its output.
ghost use Rattle.std.specs.Prelude.{◌≡◌, ◌≤◌, IfOk, IfErr, Some, false, length};
ghost use Rattle.workload_file.specs.Formed.{WellFormed};
ghost use Rattle.workload_runners.specs.RunJournals.{IsRun};
ghost use Rattle.node_journals.specs.declared.entries.Journal.{Journal};
ghost use Rattle.mtapi_top.specs.Headline.{output, IsReadAgain};
ghost use Rattle.workload_runners.specs.Reasons.{HasReason};
ghost use Rattle.mtapi_top.specs.Words.{judges};

use crate::words::Asked;
use action_fn::ActionSource;
use journal_text::write_journal;
use node_core::{Journal, Node, RunJournal};
use run_beside::Beside;
use run_report::{report_of, summary_of};
use std::alloc::{AllocError, Global};
use std::sync::Wait;
use std::thread::Threads;
use workload_file::Workload;
use workload_runners::{NoRun, run_node, without_seat};

// How many callers there are, main included.
fn callers_of(load: &Workload) -> u32
    requires { WellFormed load.now }
    ensures value { result ≡ length load.now.parts }
    ensures range { (1 ≤ result) × (result ≤ 9) }
{
    load.parts.as_slice().len() as u32
}

/// Makes the run of a workload, with a thread for each worker and for each further caller.
fn run_of<R: Threads + Wait + Sync, A: ActionSource, B: Beside>(
    rt: &R,
    alloc: Global,
    load: &Workload,
    acts: &mut A,
    beside: &mut B,
) -> Result<RunJournal, NoRun>
    requires formed { WellFormed load.now }
    ensures run { IfOk result (λ j. IsRun load.now j) }
    ensures counts { IfOk result (λ j. B.refusals beside.new ≡ B.refusals beside.old) }
    ensures causes { IfErr result (HasReason (B.refusals beside.old) (B.refusals beside.new)) }
{
    let Ok(node) = Node::init(alloc, load.settings, callers_of(load)) else {
        return Err(NoRun::Memory);
    };
    match run_node(rt, alloc, node, load, acts, beside) {
        Ok(run) => Ok(run),
        Err(error) => Err(without_seat(error)),
    }
}

/// The output that was asked for, of a run of this workload that left this journal.
fn output_of(
    alloc: Global,
    asked: &Asked,
    load: &Workload,
    journal: &Journal,
) -> Result<Vec<u8>, AllocError>
    requires formed { WellFormed load.now }
    requires run { IsRun load.now journal.now }
    requires asked { judges (Some asked.now) ≡ false }
    ensures text { IfOk result (λ text. text.items ≡ output asked.now load.now journal.now) }
    ensures again { IfOk result (λ text. IsReadAgain asked.now journal.now) }
{
    match asked {
        Asked::Report => report_of(alloc, load, journal),
        Asked::Journal => {
            let mut text = report_of(alloc, load, journal)?;
            let lines = write_journal(alloc, journal)?;
            text.extend_from_slice(&lines)?;
            Ok(text)
        }
        Asked::Generated { .. } => summary_of(alloc, load, journal),
        Asked::Check => unreachable!(),
    }
}

/// Makes the run of a workload, and the output that was asked for.
pub(crate) fn run_and_output<R: Threads + Wait + Sync, A: ActionSource, B: Beside>(
    rt: &R,
    alloc: Global,
    asked: &Asked,
    load: &Workload,
    acts: &mut A,
    beside: &mut B,
) -> Result<(RunJournal, Vec<u8>), NoRun>
    requires formed { WellFormed load.now }
    requires asked { judges (Some asked.now) ≡ false }
    ensures is_run { IfOk result (λ r. IsRun load.now r.0) }
    ensures output { IfOk result (λ r. r.1.items ≡ output asked.now load.now r.0) }
    ensures again { IfOk result (λ r. IsReadAgain asked.now r.0) }
    ensures counts { IfOk result (λ r. B.refusals beside.new ≡ B.refusals beside.old) }
    ensures causes { IfErr result (HasReason (B.refusals beside.old) (B.refusals beside.new)) }
{
    let run = run_of(rt, alloc, load, acts, beside)?;
    match output_of(alloc, asked, load, run.journal()) {
        Ok(text) => Ok((run, text)),
        Err(_) => Err(NoRun::Memory),
    }
}
