//! A run is read, and what shows it is written.
ghost use Rattle.std.specs.Prelude.{◌≡◌, ◌⊎◌, ℕ, List, false, IfOk, IfSome, string_bytes};
ghost use Rattle.byte_io.specs.Causes.{Rose};
ghost use Rattle.journal_reading.specs.Ends.{HasInput, ShowsInput, show_writes};
ghost use Rattle.journal_reading.specs.declared.reading.KeptRun.{KeptRun};
ghost use Rattle.journal_reading.specs.declared.ends.ShowEnd.TheVariants as end;

use crate::ends::{RunView, ShowEnd};
use crate::reading::{KeptRun, run_in};
use byte_io::{ReadAllError, Sink, Source, read_all, write_all};
use std::alloc::{AllocError, Global};

/// Makes the text that shows a run.
pub trait RunText {
    /// What a text says of the run that it shows.
    ghost shows: { KeptRun → List ℕ → Type 0 };

    /// The text for this run.
    ///
    /// # Errors
    ///
    /// - `AllocError`: memory ran out.
    fn text_of(alloc: Global, run: &KeptRun) -> Result<String, AllocError>
        ensures shown { IfOk result (λ text. shows run.now (string_bytes text)) };
}

/// Reads a journal with what stands before it, and writes the text that `T` makes of the run, and no other.
#[tactic(auto, using(crate::proofs::Complete::completes))]
pub fn show<S: Source, W: Sink, T: RunText>(
    alloc: Global,
    view: RunView,
    src: &mut S,
    out: &mut W,
) -> ShowEnd
    ensures shown { IfSome (S.left src.old) (λ bytes. ShowsInput T.shows view (W.held out.old) (W.held out.new) bytes result) }
    ensures silent { show_writes result ≡ false → (W.held out.new ≡ W.held out.old) × (W.faults out.new ≡ W.faults out.old) }
    ensures read { result ≡ end.ReadFault → Rose (S.faults src.old) (S.faults src.new) }
    ensures written { result ≡ end.WriteFault → Rose (W.faults out.old) (W.faults out.new) }
    ensures complete { (Rose (S.faults src.old) (S.faults src.new) → ⊥)
        → (Rose (W.faults out.old) (W.faults out.new) → ⊥)
        → IfSome (S.left src.old) (λ bytes. HasInput view bytes → (result ≡ end.Done) ⊎ (result ≡ end.Memory)) }
{
    let bytes = match read_all(alloc, src, 67_108_864) {
        Ok(bytes) => bytes,
        Err(ReadAllError::Memory) => return ShowEnd::Memory,
        Err(ReadAllError::Read) => return ShowEnd::ReadFault,
        Err(ReadAllError::TooLong) => return ShowEnd::TooLong,
    };
    let run = match run_in(alloc, view, &bytes) {
        Ok(run) => run,
        Err(end) => return end,
    };
    let Ok(text) = T::text_of(alloc, &run) else {
        return ShowEnd::Memory;
    };
    match write_all(out, text.as_bytes()) {
        Ok(()) => ShowEnd::Done,
        Err(_) => ShowEnd::WriteFault,
    }
}
