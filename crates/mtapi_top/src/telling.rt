//! What the command says of its end.
ghost use Rattle.std.specs.Prelude.{◌≡◌, ◌⊎◌, true, false, Some, None, IfOk, string_bytes};
ghost use Rattle.mtapi_top.specs.Command.{verdict_status, status_of, journal_in_end, spent_of, message, has_line, IsTold};
ghost use Rattle.mtapi_top.specs.declared.ends.End.{End};

use crate::ends::{End, Outcome};
use byte_io::{Sink, say};
use journal_check::Verdict;
use node_core::RunJournal;
use number_text::decimal_text;
use std::alloc::{AllocError, Global};
use workload_file::Cause;

/// The message for a faulty line.
#[tactic(auto, unfolding(crate::specs::Command::message))]
fn fault_text(alloc: Global, line: u64, cause: Cause) -> Result<String, AllocError>
    ensures { IfOk result (λ text. string_bytes text ≡ message (End.Refused line cause)) }
{
    let line = decimal_text(alloc, line)?;
    let cause = cause.text();
    format!(in alloc; "mtapi: line {line}: {cause}\n")
}

/// The message for a line of a journal that is outside the grammar.
#[tactic(auto, unfolding(crate::specs::Command::message))]
fn journal_fault_text(alloc: Global, line: u64) -> Result<String, AllocError>
    ensures { IfOk result (λ text. string_bytes text ≡ message (End.JournalLine line)) }
{
    format!(in alloc; "mtapi: journal line {line}\n")
}

/// The message of an end that names no line.
#[tactic(auto, unfolding(crate::specs::Command::message))]
fn plain_text(end: &End) -> &'static [u8]
    requires { has_line end.now ≡ false }
    ensures { result.now ≡ message end.now }
{
    match end {
        End::Done(_) | End::Judged(_) | End::Refused(..) | End::JournalLine(_) => b"",
        End::Usage => b"usage: mtapi run [--journal] | mtapi gen N [W] | mtapi check\n",
        End::TooLong => b"mtapi: workload too long\n",
        End::ReadFault => b"mtapi: read fault\n",
        End::WriteFault(_) | End::VerdictFault(_) => b"mtapi: write fault\n",
        End::Memory => b"mtapi: out of memory\n",
        End::NoThread => b"mtapi: thread refused\n",
        End::Spent(_) => b"mtapi: turns spent\n",
        End::InputTooLong => b"mtapi: input too long\n",
        End::JournalCut => b"mtapi: journal cut short\n",
    }
}

/// The status for a verdict.
fn verdict_status(verdict: Verdict) -> u8
    ensures { result ≡ verdict_status verdict }
{
    match verdict {
        Verdict::Yes => 0,
        Verdict::Illegal { .. } | Verdict::NotRun => 9,
    }
}

/// The status of an end, and what shows it.
fn outcome_of(end: End) -> Outcome
    ensures status { result.status ≡ status_of end }
    ensures journal { result.journal ≡ journal_in_end end }
    ensures spent { result.spent ≡ spent_of end }
{
    match end {
        End::Done(journal) => with_journal(0, journal),
        End::WriteFault(journal) => with_journal(5, journal),
        End::Spent(spent) => Outcome {
            status: 8,
            journal: None,
            spent: Some(spent),
        },
        End::Judged(verdict) => alone(verdict_status(verdict)),
        End::Usage => alone(2),
        End::Refused(..) | End::TooLong => alone(3),
        End::InputTooLong | End::JournalLine(_) | End::JournalCut => alone(3),
        End::ReadFault => alone(4),
        End::VerdictFault(_) => alone(5),
        End::Memory => alone(6),
        End::NoThread => alone(7),
    }
}

fn with_journal(status: u8, journal: RunJournal) -> Outcome
    ensures { result ≡ record { status = status; journal = Some journal; spent = None } }
{
    Outcome {
        status,
        journal: Some(journal),
        spent: None,
    }
}

fn alone(status: u8) -> Outcome
    ensures { result ≡ record { status = status; journal = None; spent = None } }
{
    Outcome {
        status,
        journal: None,
        spent: None,
    }
}

/// Says a message that was made, or that there was no memory to make it.
fn tell_text<E: Sink>(end: End, text: Result<String, AllocError>, err: &mut E) -> Outcome
    requires { IfOk text (λ t. string_bytes t ≡ message end) }
    ensures { IsTold end (E.faults err.old) (E.faults err.new) (E.held err.old) (E.held err.new) result
        ⊎ IsTold End.Memory (E.faults err.old) (E.faults err.new) (E.held err.old) (E.held err.new) result }
{
    match text {
        Ok(text) => {
            say(err, text.as_bytes());
            outcome_of(end)
        }
        Err(_) => {
            say(err, plain_text(&End::Memory));
            outcome_of(End::Memory)
        }
    }
}

/// Says on `err` how it ended, and answers the status. Where there is no memory for a message that names a line, that is said instead.
pub fn tell<E: Sink>(alloc: Global, end: End, err: &mut E) -> Outcome
    ensures reported { IsTold end (E.faults err.old) (E.faults err.new) (E.held err.old) (E.held err.new) result
        ⊎ ((has_line end ≡ true) × IsTold End.Memory (E.faults err.old) (E.faults err.new) (E.held err.old) (E.held err.new) result) }
{
    match end {
        End::Refused(line, cause) => {
            let text = fault_text(alloc, line, cause);
            tell_text(End::Refused(line, cause), text, err)
        }
        End::JournalLine(line) => {
            let text = journal_fault_text(alloc, line);
            tell_text(End::JournalLine(line), text, err)
        }
        other => {
            say(err, plain_text(&other));
            outcome_of(other)
        }
    }
}
