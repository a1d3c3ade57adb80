//! How a program that shows a run ends, and how that is told.
ghost use Rattle.std.specs.Prelude.{◌≡◌, ◌⊎◌, true, false, IfOk, string_bytes};
ghost use Rattle.journal_reading.specs.Ends.{IsShowTold, show_status, usage, show_message, shows_line};

use byte_io::{Sink, say};
use std::alloc::{AllocError, Global};
use workload_file::Cause;

/// What is shown of a run, each by a program of its own.
#[derive(Clone, Copy, Drop)]
pub enum RunView {
    /// A picture. Anything may stand before the journal, such as a report: what is no workload gives no names.
    Picture,
    /// A trace. What stands before the journal has to be a workload, which may be empty.
    Trace,
}

/// How such a program ends.
#[derive(Clone, Copy, Drop)]
pub enum ShowEnd {
    /// The text was written.
    Done,
    /// There were words, and it takes none.
    Usage,
    /// There are more bytes than an input may have.
    TooLong,
    /// This line before the journal is faulty, counted from 1: its first cause.
    Refused(u64, Cause),
    /// There are more bytes before the journal than a workload may have.
    WorkloadTooLong,
    /// This line of the journal is outside the grammar, counted from 1 at its first.
    BadLine(u64),
    /// The last line of the journal has no line feed.
    CutShort,
    /// A read failed.
    ReadFault,
    /// A write failed.
    WriteFault,
    /// Memory ran out.
    Memory,
}

/// The status of an end.
fn status_of(end: ShowEnd) -> u8
    ensures { result ≡ show_status end }
{
    match end {
        ShowEnd::Done => 0,
        ShowEnd::Usage => 2,
        ShowEnd::TooLong | ShowEnd::Refused(..) | ShowEnd::WorkloadTooLong => 3,
        ShowEnd::BadLine(_) | ShowEnd::CutShort => 3,
        ShowEnd::ReadFault => 4,
        ShowEnd::WriteFault => 5,
        ShowEnd::Memory => 6,
    }
}

#[tactic(auto, unfolding(crate::specs::Ends::usage))]
fn usage(view: RunView) -> &'static [u8]
    ensures { result.now ≡ usage view }
{
    match view {
        RunView::Picture => b"usage: mtapi picture\n",
        RunView::Trace => b"usage: mtapi trace\n",
    }
}

/// The message of an end that names no line.
#[tactic(auto, unfolding(crate::specs::Ends::show_message))]
fn plain_text(view: RunView, end: ShowEnd) -> &'static [u8]
    requires { shows_line end ≡ false }
    ensures { result.now ≡ show_message view end }
{
    match end {
        ShowEnd::Done | ShowEnd::Refused(..) | ShowEnd::BadLine(_) => b"",
        ShowEnd::Usage => usage(view),
        ShowEnd::TooLong => b"mtapi: input too long\n",
        ShowEnd::WorkloadTooLong => b"mtapi: workload too long\n",
        ShowEnd::CutShort => b"mtapi: journal cut short\n",
        ShowEnd::ReadFault => b"mtapi: read fault\n",
        ShowEnd::WriteFault => b"mtapi: write fault\n",
        ShowEnd::Memory => b"mtapi: out of memory\n",
    }
}

/// The message of an end that names a line.
#[tactic(auto, unfolding(crate::specs::Ends::show_message))]
fn line_text(alloc: Global, view: RunView, end: ShowEnd) -> Result<String, AllocError>
    requires { shows_line end ≡ true }
    ensures { IfOk result (λ text. string_bytes text ≡ show_message view end) }
{
    match end {
        ShowEnd::Refused(line, cause) => {
            let cause = cause.text();
            format!(in alloc; "mtapi: line {line}: {cause}\n")
        }
        ShowEnd::BadLine(line) => format!(in alloc; "mtapi: journal line {line}\n"),
        _ => unreachable!(),
    }
}

/// Whether the message of an end names a line.
fn has_line(end: ShowEnd) -> bool
    ensures { result ≡ shows_line end }
{
    matches!(end, ShowEnd::Refused(..) | ShowEnd::BadLine(_))
}

/// Says on `err` how a program ended, and answers the status. Where there is no memory for a message that names a line, that is said
/// instead, and the status is 6. A fault of `err` changes nothing else.
pub fn tell<E: Sink>(alloc: Global, view: RunView, end: ShowEnd, err: &mut E) -> u8
    ensures told { IsShowTold view end (E.faults err.old) (E.faults err.new) (E.held err.old) (E.held err.new) result
        ⊎ ((shows_line end ≡ true)
        × IsShowTold view ShowEnd.Memory (E.faults err.old) (E.faults err.new) (E.held err.old) (E.held err.new) result) }
{
    if !has_line(end) {
        say(err, plain_text(view, end));
        return status_of(end);
    }
    match line_text(alloc, view, end) {
        Ok(text) => {
            say(err, text.as_bytes());
            status_of(end)
        }
        Err(_) => {
            say(err, plain_text(view, ShowEnd::Memory));
            status_of(ShowEnd::Memory)
        }
    }
}
