//! The journal of a run as a text in a sink.
ghost use Rattle.std.specs.Prelude.{◌≡◌, OnOk, IsErrOf};
ghost use Rattle.std.specs.Io.KnownBytes.{Appends};
ghost use Rattle.byte_io.specs.Causes.{Rose, AppendsFront};
ghost use Rattle.journal_text.specs.Journals.{journal_text};

use byte_io::{Sink, write_all};
use journal_text::write_journal;
use node_journals::Journal;
use std::alloc::Global;
use thiserror::Error;

/// Why a run wasn't written.
#[derive(Debug, Drop, Error)]
pub enum Unwritten {
    /// Memory ran out.
    #[error("out of memory")]
    Memory,
    /// A write failed.
    #[error("write fault")]
    Write,
}

/// Writes the text of a run's journal, and nothing else: text 1 for layout one, and text 2 for layout two.
///
/// # Errors
///
/// - `Memory`: memory ran out, and nothing was written.
/// - `Write`: a write failed, and the count of faults rose. What the sink took is a prefix of the text, where it tells its bytes.
pub fn write_run<W: Sink>(alloc: Global, out: &mut W, run: &Journal) -> Result<(), Unwritten>
    ensures written { OnOk result (Appends (W.held out.old) (W.held out.new) (journal_text run.now)) }
    ensures front { IsErrOf result Unwritten.Write → AppendsFront (W.held out.old) (W.held out.new) (journal_text run.now) }
    ensures nothing { IsErrOf result Unwritten.Memory → (W.held out.new ≡ W.held out.old) × (W.faults out.new ≡ W.faults out.old) }
    ensures cause { IsErrOf result Unwritten.Write → Rose (W.faults out.old) (W.faults out.new) }
{
    let Ok(text) = write_journal(alloc, run) else {
        return Err(Unwritten::Memory);
    };
    match write_all(out, &text) {
        Ok(()) => Ok(()),
        Err(_) => Err(Unwritten::Write),
    }
}
