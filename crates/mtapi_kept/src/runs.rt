//! Runs of workloads, made by the command in memory.
ghost use Rattle.std.specs.Prelude.{IfOk};
ghost use Rattle.mtapi_kept.specs.Kept.{IsKept};

use crate::bounding::bounded;
use crate::ends::{Answer, NoAnswer};
use crate::gathered::{Gathered, why_none};
use byte_io::Sink;
use journal_text::{InputPart, read_journal, write_journal};
use kept_texts::joined;
use mtapi_program::{Threads, run_words};
use run_waits::waits_in;
use std::alloc::{AllocError, Global};
use std::sync::Wait;
use std::thread::Threads as StartsThreads;
use workload_file::read_workload;

/// What the command wrote of a run.
#[derive(Drop)]
pub struct Kept {
    /// The report.
    pub report: Vec<u8>,
    /// The text of the journal.
    pub journal: Vec<u8>,
}

/// Runs a workload by the command, which says on `err` why it has no answer.
#[tactic(auto, using(crate::proofs::Kept::kept_of))]
pub fn run_kept<R: StartsThreads + Wait + Sync, E: Sink>(
    rt: &R,
    alloc: Global,
    workload: &[u8],
    err: &mut E,
) -> Result<Kept, NoAnswer>
    ensures { IfOk result (λ kept. IsKept workload.now kept.report.items kept.journal.items) }
{
    let mut out = Gathered::new(alloc);
    let mut said = Gathered::new(alloc);
    let mut src = InputPart { left: workload };
    let words = ["run", "--journal"];
    let mut beside = Threads::new();
    let outcome = run_words(
        rt,
        alloc,
        &words,
        &mut src,
        &mut out,
        &mut said,
        &mut beside,
    );
    match outcome.journal {
        Some(run) if outcome.status == 0 => {
            let journal = write_journal(alloc, run.journal())?;
            let mut report = out.bytes;
            report.truncate(report.len().saturating_sub(journal.len()));
            Ok(Kept { report, journal })
        }
        _ => Err(why_none(&out, &said, outcome.status, err)),
    }
}

/// Runs a workload: its text with the journal behind it.
pub fn keep<R: StartsThreads + Wait + Sync, E: Sink>(
    rt: &R,
    alloc: Global,
    workload: &[u8],
    err: &mut E,
) -> Result<Answer, NoAnswer> {
    let kept = run_kept(rt, alloc, workload, err)?;
    Ok(Answer {
        text: joined(alloc, workload, &kept.journal)?,
        told: Vec::new(alloc),
        status: 0,
    })
}

/// The lines on the waits of a run that ran out: of a workload as it was before its waits had so many looks.
fn waits_told(
    alloc: Global,
    workload: &[u8],
    kept: &Kept,
    looks: u64,
) -> Result<String, AllocError> {
    let load = read_workload(alloc, &mut InputPart { left: workload });
    let journal = read_journal(
        alloc,
        &mut InputPart {
            left: &kept.journal,
        },
    );
    match (load, journal) {
        (Ok(load), Ok(journal)) => waits_in(alloc, workload, &load, &journal, looks),
        // Both were read before, so that there is no memory now.
        _ => Err(AllocError),
    }
}

/// Runs a workload with so many looks in place of each `timeout=inf`: the report, and beside it which of these waits ran out.
pub fn run_bounded<R: StartsThreads + Wait + Sync, E: Sink>(
    rt: &R,
    alloc: Global,
    workload: &[u8],
    looks: u64,
    err: &mut E,
) -> Result<Answer, NoAnswer> {
    let changed = bounded(alloc, workload, looks)?;
    let kept = run_kept(rt, alloc, &changed, err)?;
    let told = waits_told(alloc, workload, &kept, looks)?;
    Ok(Answer {
        text: Vec::from_slice(alloc, &kept.report)?,
        status: if told.is_empty() { 0 } else { 1 },
        told: Vec::from_slice(alloc, told.as_bytes())?,
    })
}
