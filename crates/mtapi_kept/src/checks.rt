//! Journals that are judged by the command, with why a verdict isn't yes.
ghost use Rattle.std.specs.Prelude.{◌≡◌, IfOk, Some};
ghost use Rattle.journal_check.specs.declared.verdicts.Verdict.TheVariants.{Yes};
ghost use Rattle.mtapi_top.specs.Check.{IsJudged, verdict_line};
ghost use Rattle.mtapi_kept.specs.Kept.{IsVerified};

use crate::ends::{Answer, NoAnswer};
use crate::gathered::{Gathered, why_none};
use crate::runs::run_kept;
use byte_io::Sink;
use journal_reasons::{judge_input, tell_run};
use journal_text::InputPart;
use kept_texts::joined;
use mtapi_program::{Threads, run_words};
use std::alloc::Global;
use std::sync::Wait;
use std::thread::Threads as StartsThreads;

/// A verdict of the command, and its status: 0 or 9.
#[derive(Drop)]
pub struct Judged {
    verdict: Vec<u8>,
    status: u8,
}

/// Has the command judge the journal behind a workload. It says on `err` why it has no answer.
fn verdict_on<R: StartsThreads + Wait + Sync, E: Sink>(
    rt: &R,
    alloc: Global,
    whole: &[u8],
    err: &mut E,
) -> Result<Judged, NoAnswer>
    ensures { IfOk result (λ judged. judged.status ≡ 0 → IsJudged (Some whole.now) Yes × (judged.verdict.items ≡ verdict_line Yes)) }
{
    let mut out = Gathered::new(alloc);
    let mut said = Gathered::new(alloc);
    let mut src = InputPart { left: whole };
    let mut beside = Threads::new();
    let outcome = run_words(
        rt,
        alloc,
        &["check"],
        &mut src,
        &mut out,
        &mut said,
        &mut beside,
    );
    match outcome.status {
        0 | 9 => Ok(Judged {
            verdict: out.bytes,
            status: outcome.status,
        }),
        status => Err(why_none(&out, &said, status, err)),
    }
}

/// Why a verdict isn't yes: of a journal that isn't legal its first line that isn't, counted in what was kept, else where the journal
/// leaves the workload.
fn reason_for(alloc: Global, kept: &[u8], whole: &[u8], judged: &Judged) -> Vec<u8> {
    let mut reason = Gathered::new(alloc);
    if judged.verdict.starts_with(b"no: illegal entry ") {
        let _ = judge_input(alloc, &mut InputPart { left: kept }, b"", &mut reason);
    } else if judged.status != 0 {
        let _ = tell_run(alloc, &mut InputPart { left: whole }, &mut reason);
    }
    reason.bytes
}

/// Judges the journal behind a workload; `kept` is the text in which lines are told.
pub fn check<R: StartsThreads + Wait + Sync, E: Sink>(
    rt: &R,
    alloc: Global,
    kept: &[u8],
    whole: &[u8],
    err: &mut E,
) -> Result<Answer, NoAnswer> {
    let judged = verdict_on(rt, alloc, whole, err)?;
    let told = reason_for(alloc, kept, whole, &judged);
    Ok(Answer {
        text: judged.verdict,
        told,
        status: judged.status,
    })
}

/// Judges the journal in what was kept of a run of a workload.
pub fn check_kept<R: StartsThreads + Wait + Sync, E: Sink>(
    rt: &R,
    alloc: Global,
    workload: &[u8],
    kept: &[u8],
    err: &mut E,
) -> Result<Answer, NoAnswer> {
    let whole = joined(alloc, workload, kept)?;
    check(rt, alloc, kept, &whole, err)
}

/// Runs a workload and judges the journal of the run: the report with the verdict, and why that isn't yes, by the lines of the journal.
pub fn verify<R: StartsThreads + Wait + Sync, E: Sink>(
    rt: &R,
    alloc: Global,
    workload: &[u8],
    err: &mut E,
) -> Result<Answer, NoAnswer>
    ensures verified { IfOk result (λ answer. answer.status ≡ 0 → IsVerified workload.now answer.text.items) }
{
    let kept = run_kept(rt, alloc, workload, err)?;
    let whole = joined(alloc, workload, &kept.journal)?;
    let judged = verdict_on(rt, alloc, &whole, err)?;
    let told = reason_for(alloc, &kept.journal, &whole, &judged);
    let mut text = kept.report;
    text.extend_from_slice(&judged.verdict)?;
    Ok(Answer {
        text,
        told,
        status: judged.status,
    })
}
