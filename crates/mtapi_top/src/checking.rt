//! The word `check`: a journal that was kept is judged, beside the workload that stands before it.
ghost use Rattle.std.specs.Prelude.{◌≡◌, ◌≤◌, true, length, IfOk, IfErr, IfSome, string_bytes};
ghost use Rattle.std.specs.Io.KnownBytes.{IsAtEnd};
ghost use Rattle.byte_io.specs.Causes.{TakesAtMost};
ghost use Rattle.journal_text.specs.Journals.{ReadsJournalClean};
ghost use Rattle.mtapi_top.specs.Command.{status_of};
ghost use Rattle.mtapi_top.specs.Ended.{IsPastReading};
ghost use Rattle.mtapi_top.specs.Check.{IsJudged, IsUnjudged, Checks, verdict_line, WritesVerdict};

use crate::ends::End;
use crate::input::{journal_in, workload_in};
use byte_io::{ReadAllError, Sink, Source, read_all, write_all};
use journal_check::{Verdict, check_run};
use journal_text::parts_of;
use std::alloc::{AllocError, Global};

/// The verdict on the journal of an input, or how the command ends without one.
fn verdict_on(alloc: Global, bytes: &[u8]) -> Result<Verdict, End>
    requires { length bytes.now ≤ 67108864 }
    ensures verdict { IfOk result (IsJudged (Some bytes.now)) }
    ensures none { IfErr result (IsUnjudged bytes.now) }
{
    let (front, rest) = parts_of(bytes);
    let load = workload_in(alloc, front)?;
    let journal = journal_in(alloc, rest)?;
    match check_run(alloc, &load, &journal) {
        Ok(verdict) => Ok(verdict),
        Err(_) => Err(End::Memory),
    }
}

/// The line that tells a verdict.
#[tactic(auto, unfolding(crate::specs::Check::verdict_line))]
fn verdict_line(alloc: Global, verdict: Verdict) -> Result<String, AllocError>
    ensures { IfOk result (λ text. string_bytes text ≡ verdict_line verdict) }
{
    match verdict {
        Verdict::Yes => format!(in alloc; "yes\n"),
        Verdict::Illegal { entry } => format!(in alloc; "no: illegal entry {entry}\n"),
        Verdict::NotRun => format!(in alloc; "no: not a run\n"),
    }
}

/// Writes a verdict, and tells how the command ends with it.
fn write_verdict<W: Sink>(alloc: Global, verdict: Verdict, out: &mut W) -> End
    ensures writes { WritesVerdict (W.faults out.old) (W.faults out.new) (W.held out.old) (W.held out.new) verdict result }
    ensures later { W.faults out.old ≤ W.faults out.new }
{
    let Ok(line) = verdict_line(alloc, verdict) else {
        return End::Memory;
    };
    match write_all(out, line.as_bytes()) {
        Ok(()) => End::Judged(verdict),
        Err(_) => End::VerdictFault(verdict),
    }
}

/// Reads a workload and the journal behind it, judges the journal, and writes the verdict.
pub(crate) fn check_input<S: Source, W: Sink>(alloc: Global, src: &mut S, out: &mut W) -> End
    ensures end { Checks (S.left src.old) (record { reads = S.faults src.old; writes = W.faults out.old; held = W.held out.old })
        (record { reads = S.faults src.new; writes = W.faults out.new; held = W.held out.new }) result }
    ensures clean { IsPastReading (status_of result)
        → ReadsJournalClean (S.faults src.old) (S.faults src.new) (S.left src.old) (S.left src.new) }
    ensures taken { TakesAtMost 67108865 (S.left src.old) (S.left src.new) }
    ensures faultless { (status_of result ≡ 4 → ⊥) → S.faults src.new ≡ S.faults src.old }
    ensures later { (S.faults src.old ≤ S.faults src.new) × (W.faults out.old ≤ W.faults out.new) }
{
    let bytes = match read_all(alloc, src, 67_108_864) {
        Ok(bytes) => bytes,
        Err(ReadAllError::Memory) => return End::Memory,
        Err(ReadAllError::Read) => return End::ReadFault,
        Err(ReadAllError::TooLong) => return End::InputTooLong,
    };
    match verdict_on(alloc, &bytes) {
        Ok(verdict) => write_verdict(alloc, verdict, out),
        Err(end) => end,
    }
}
