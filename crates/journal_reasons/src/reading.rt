//! An input is read and judged, and the end is told.
ghost use Rattle.std.specs.Prelude.{◌≡◌, ◌≤◌, false, length, is_none, IfOk, IfErr, IfSome};
ghost use Rattle.byte_io.specs.Causes.{Rose};
ghost use Rattle.journal_reading.specs.Ends.{RestGives};
ghost use Rattle.journal_reading.specs.declared.ends.ShowEnd.TheVariants as end;
ghost use Rattle.journal_reasons.specs.Judged.{place_judged};
ghost use Rattle.journal_reasons.specs.Pages.{IsPage, HasNoJournal, JudgesInput, IsEndTold, judge_usage, judge_writes};
ghost use Rattle.journal_reasons.specs.declared.reading.JudgeEnd.TheVariants.{Refused};

use crate::judging::{Judgement, judge};
use crate::page::{count_lines, page_of};
use byte_io::{ReadAllError, Sink, Source, read_all, say, write_all};
use journal_reading::{RunView, ShowEnd};
use journal_text::{InputPart, JournalError, parts_of, read_journal};
use node_journals::Journal;
use std::alloc::Global;

/// How the program ends.
#[derive(Clone, Copy, Drop)]
pub enum JudgeEnd {
    /// The journal is a legal history, and that was written.
    Legal,
    /// It is none, and the first entry that isn't allowed was written.
    Illegal,
    /// The words are none that it takes.
    Usage,
    /// There is no answer, for this cause.
    Refused(ShowEnd),
}

// The journal that the rest of an input is, or how the program ends where it is none.
fn journal_in(alloc: Global, rest: &[u8]) -> Result<Journal, ShowEnd>
    requires { length rest.now ≤ 67108864 }
    ensures { RestGives rest.now result }
{
    let mut part = InputPart { left: rest };
    match read_journal(alloc, &mut part) {
        Ok(journal) => Ok(journal),
        Err(JournalError::Memory) => Err(ShowEnd::Memory),
        // Such a source doesn't fail, and a journal may be as long as the input.
        Err(JournalError::Read) => unreachable!(),
        Err(JournalError::TooLong) => unreachable!(),
        Err(JournalError::BadLine { line }) => Err(ShowEnd::BadLine(line)),
        Err(JournalError::PartialEnd) => Err(ShowEnd::CutShort),
    }
}

fn is_legal(judgement: &Judgement) -> bool
    ensures { result ≡ is_none (place_judged judgement.now) }
{
    match judgement {
        Judgement::Legal => true,
        Judgement::Illegal { .. } => false,
    }
}

// The page on the journal in an input, and whether that is legal; or how the program ends where there is none.
#[tactic(auto, using(crate::proofs::Inputs::short_front, crate::proofs::Inputs::page_on, crate::proofs::Inputs::none_in))]
fn page_in(alloc: Global, bytes: &[u8], names: &[u8]) -> Result<(bool, Vec<u8>), ShowEnd>
    requires { length bytes.now ≤ 67108864 }
    ensures some { IfOk result (λ page. IsPage bytes.now page.0 page.1.items) }
    ensures none { IfErr result (λ e. HasNoJournal bytes.now e) }
{
    let (front, rest) = parts_of(bytes);
    let journal = journal_in(alloc, rest)?;
    let Ok(judgement) = judge(alloc, &journal, count_lines(front), front, names) else {
        return Err(ShowEnd::Memory);
    };
    match page_of(alloc, front, rest, &journal, &judgement) {
        Ok(page) => Ok((is_legal(&judgement), page)),
        Err(_) => Err(ShowEnd::Memory),
    }
}

/// Judges the journal in an input, and writes what it is. Of what stands before the journal the comments `# HANDLE NAME` alone are
/// read, as those of `names`: in the reason the names stand behind the handles.
#[tactic(auto, using(crate::proofs::Inputs::refuses_input, crate::proofs::Inputs::writes_legal, crate::proofs::Inputs::writes_illegal, crate::proofs::Inputs::writes_part))]
pub fn judge_input<S: Source, W: Sink>(
    alloc: Global,
    src: &mut S,
    names: &[u8],
    out: &mut W,
) -> JudgeEnd
    ensures judged { IfSome (S.left src.old) (λ bytes. JudgesInput bytes (W.held out.old) (W.held out.new) result) }
    ensures silent { judge_writes result ≡ false → (W.held out.new ≡ W.held out.old) × (W.faults out.new ≡ W.faults out.old) }
    ensures read { result ≡ Refused end.ReadFault → Rose (S.faults src.old) (S.faults src.new) }
    ensures written { result ≡ Refused end.WriteFault → Rose (W.faults out.old) (W.faults out.new) }
{
    let bytes = match read_all(alloc, src, 67_108_864) {
        Ok(bytes) => bytes,
        Err(ReadAllError::Memory) => return JudgeEnd::Refused(ShowEnd::Memory),
        Err(ReadAllError::Read) => return JudgeEnd::Refused(ShowEnd::ReadFault),
        Err(ReadAllError::TooLong) => return JudgeEnd::Refused(ShowEnd::TooLong),
    };
    let (legal, page) = match page_in(alloc, &bytes, names) {
        Ok(page) => page,
        Err(end) => return JudgeEnd::Refused(end),
    };
    match write_all(out, &page) {
        Ok(()) => {
            if legal {
                JudgeEnd::Legal
            } else {
                JudgeEnd::Illegal
            }
        }
        Err(_) => JudgeEnd::Refused(ShowEnd::WriteFault),
    }
}

/// Says on `err` how the program ended, and answers the status. A fault of `err` changes nothing else.
#[tactic(auto, unfolding(crate::specs::Pages::judge_usage))]
pub fn tell<E: Sink>(alloc: Global, end: JudgeEnd, err: &mut E) -> u8
    ensures told { IsEndTold end (E.faults err.old) (E.faults err.new) (E.held err.old) (E.held err.new) result }
{
    match end {
        JudgeEnd::Legal => {
            say(err, b"");
            0
        }
        JudgeEnd::Illegal => {
            say(err, b"");
            1
        }
        JudgeEnd::Usage => {
            say(err, b"usage: mtapi judge\n");
            2
        }
        JudgeEnd::Refused(end) => journal_reading::tell(alloc, RunView::Picture, end, err),
    }
}
