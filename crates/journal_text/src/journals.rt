//! Journals as texts.
ghost use Rattle.std.specs.Prelude.{◌≡◌, ◌<◌, ◌≤◌, ◌^◌, ◌++◌, ◌∷◌, [], Ok, Err, length, map, OnOk, IfOk, IfSome, IsErrOf};
ghost use Rattle.number_text.specs.Lists.{between};
ghost use Rattle.byte_io.specs.Causes.{Rose, TakesAtMost};
ghost use Rattle.journal_text.specs.Journals.{head_for, entry_lines, lines_text, journal_text, in_line, line_adds_entry, at_end, entries_from, no_entries, no_line, journal_of, ReadsAs, LoadsJournal, ReadsJournalClean, HoldsButFaults};
ghost use Rattle.journal_text.specs.{Heads.head_of, Fits.PartsFit, Fits.AllPartsFit, Fits.IsWritable, Lines.entry_text};
ghost use Rattle.mtapi_values.specs.Attributes.{AreNodeSettings};
ghost use Rattle.node_journals.specs.Shorts.{entry_of};

use crate::faults::{JournalError, LineError, TextError};
use crate::fits::settings_fit;
use crate::heads::{Head, head_of, push_head};
use crate::lines::{entry_of, push_entry};
use byte_io::{ReadAllError, Source, read_all};
use mtapi_machine::Entry;
use node_journals::{Journal, ShortEntry, ShortList};
use number_text::cut_at;
use std::alloc::{AllocError, Global};

// ---- written

fn push_line(
    alloc: Global,
    out: &mut Vec<u8>,
    head: &Head,
    entry: &Entry,
    skipped: u64,
) -> Result<(), AllocError>
    ensures text { OnOk result (out.new.items ≡ out.old.items ++ lines_text (entry_text head.now entry.now skipped ∷ [])) }
    ensures parts { OnOk result (PartsFit entry.now skipped) }
{
    push_entry(alloc, out, head, entry, skipped)?;
    Ok(out.push(b'\n')?)
}

// One entry in full at a time.
fn push_entries(
    alloc: Global,
    out: &mut Vec<u8>,
    head: &Head,
    shorts: &[ShortEntry],
    skipped: &[u64],
) -> Result<(), AllocError>
    ensures text { OnOk result (out.new.items ≡ out.old.items ++ lines_text (entry_lines head.now (map entry_of shorts.now) skipped.now)) }
    ensures parts { OnOk result (AllPartsFit (map entry_of shorts.now) skipped.now) }
{
    let mut shorts = shorts;
    let mut skipped = skipped;
    'entries: while let [short, later @ ..] = shorts {
        let [number, fewer @ ..] = skipped else {
            return Ok(());
        };
        push_line(alloc, out, head, &short.full(), *number)?;
        shorts = later;
        skipped = fewer;
    }
    Ok(())
}

#[tactic(auto, unfolding(crate::specs::Journals::journal_text))]
fn text_of(alloc: Global, journal: &Journal) -> Result<Vec<u8>, AllocError>
    ensures text { IfOk result (λ text. text.items ≡ journal_text journal.now) }
    ensures settings { AreNodeSettings journal.now.settings }
    ensures beside { length journal.now.entries.skipped ≡ length journal.now.entries.entries }
    ensures parts { IfOk result (λ text. AllPartsFit journal.now.entries.entries journal.now.entries.skipped) }
{
    settings_fit(journal.settings);
    let skipped = journal.entries.skipped();
    let head = Head {
        layout: journal.layout,
        settings: journal.settings,
        callers: journal.callers,
    };
    let mut out = Vec::new(alloc);
    push_head(alloc, &mut out, &head)?;
    out.push(b'\n')?;
    push_entries(alloc, &mut out, &head, journal.entries.shorts(), skipped)?;
    Ok(out)
}

/// The text of a journal: text 1 for layout one, and text 2 for layout two. Its length is in proportion to the entries: a line
/// for each, behind the head line.
///
/// The text is read again as the same journal where the journal can be written: its callers are 1 to 9, each entry is by one of
/// its seats, and a journal of layout one has no tally.
///
/// # Errors
/// `AllocError` where memory runs out.
#[tactic(auto, using(crate::proofs::JournalsAgain::again_from))]
pub fn write_journal(alloc: Global, journal: &Journal) -> Result<Vec<u8>, AllocError>
    ensures text { IfOk result (λ text. text.items ≡ journal_text journal.now) }
    // Reading this text gives the same journal.
    ensures again { IsWritable journal.now → IfOk result (λ text. journal_of text.items ≡ Ok journal.now) }
{
    text_of(alloc, journal)
}

// ---- read

/// The entries with that of a line.
#[tactic(auto, unfolding(crate::specs::Journals::line_adds_entry))]
fn add_line(
    alloc: Global,
    head: &Head,
    line: u64,
    kept: ShortList,
    text: &[u8],
) -> Result<ShortList, TextError>
    requires { head.now.callers ≤ 9 }
    ensures { ReadsAs result (line_adds_entry head.now line kept text.now) }
{
    let mut kept = kept;
    match entry_of(alloc, head, text) {
        Ok((entry, skipped)) => {
            kept.push(entry, skipped)?;
            Ok(kept)
        }
        Err(LineError::Memory) => Err(TextError::Memory),
        Err(LineError::Outside) => Err(TextError::BadLine { line }),
    }
}

/// The entries, where nothing stands behind the last line feed.
fn at_end(kept: ShortList, text: &[u8]) -> Result<ShortList, TextError>
    ensures { ReadsAs result (at_end kept text.now) }
{
    match text {
        [] => Ok(kept),
        [_, ..] => Err(TextError::PartialEnd),
    }
}

/// The entries of the lines behind the head line.
fn entries_from(alloc: Global, head: &Head, text: &[u8]) -> Result<ShortList, TextError>
    requires callers { head.now.callers ≤ 9 }
    requires short { length text.now < 2 ^ 62 }
    ensures { ReadsAs result (entries_from head.now 2 no_entries (between 10 text.now)) }
{
    let mut kept = ShortList::new(alloc);
    let mut line = 2u64;
    let mut left = text;
    'lines: loop {
        let (text, after) = cut_at(left, b'\n');
        let Some(rest) = after else {
            return at_end(kept, text);
        };
        let more = match add_line(alloc, head, line, kept, text) {
            Ok(more) => more,
            Err(error) => return Err(error),
        };
        kept = more;
        line += 1;
        left = rest;
    }
}

fn no_line(text: &[u8]) -> TextError
    ensures { no_line text.now ≡ Err result }
{
    match text {
        [] => TextError::BadLine { line: 1 },
        [_, ..] => TextError::PartialEnd,
    }
}

fn head_line(alloc: Global, text: &[u8]) -> Result<Head, TextError>
    ensures value { ReadsAs result (in_line 1 (head_of text.now)) }
    ensures callers { IfOk result (λ head. head.callers ≤ 9) }
{
    match head_of(alloc, text) {
        Ok(head) => Ok(head),
        Err(LineError::Memory) => Err(TextError::Memory),
        Err(LineError::Outside) => Err(TextError::BadLine { line: 1 }),
    }
}

/// The journal that a text is.
fn journal_of(alloc: Global, bytes: &[u8]) -> Result<Journal, TextError>
    requires { length bytes.now < 2 ^ 62 }
    ensures value { ReadsAs result (journal_of bytes.now) }
    ensures same { IfOk result (λ j. journal_text j ≡ bytes.now) }
{
    let (first, after) = cut_at(bytes, b'\n');
    let Some(rest) = after else {
        return Err(no_line(first));
    };
    let head = match head_line(alloc, first) {
        Ok(head) => head,
        Err(error) => return Err(error),
    };
    match entries_from(alloc, &head, rest) {
        Ok(entries) => Ok(Journal {
            layout: head.layout,
            settings: head.settings,
            callers: head.callers,
            entries,
        }),
        Err(error) => Err(error),
    }
}

/// Reads a journal from a source, to its end or to one byte past 67,108,864 bytes. Ok exactly where the bytes are the text of a
/// journal and memory suffices; then the journal's text is the bytes that were read. Whether the history is legal isn't asked.
///
/// # Errors
/// In this order:
/// - `Memory` where memory runs out; it is taken in proportion to the bytes read, and never to a number that they name.
/// - `Read` only where the source's count of faults rose.
/// - `TooLong` exactly where the source gave more than 67,108,864 bytes.
/// - `BadLine` at the first line, counted from 1, that ends with a line feed and is outside the grammar, or with line 1 where
///   there is no byte.
/// - `PartialEnd` where there is no such line and the last byte isn't a line feed.
#[tactic(auto, using(crate::proofs::Taken::long_clean, crate::proofs::Taken::text_same))]
pub fn read_journal<S: Source>(alloc: Global, src: &mut S) -> Result<Journal, JournalError>
    ensures exact { IfSome (S.left src.old) (λ bytes. LoadsJournal bytes (S.left src.new) result) }
    ensures same { IfSome (S.left src.old) (λ bytes. IfOk result (λ j. journal_text j ≡ bytes)) }
    ensures clean { HoldsButFaults (ReadsJournalClean (S.faults src.old) (S.faults src.new) (S.left src.old) (S.left src.new)) result }
    // Whatever the answer is, at most one byte past the limit is taken; and only a failed read is a fault.
    ensures taken { TakesAtMost 67108865 (S.left src.old) (S.left src.new) }
    ensures faultless { (IsErrOf result JournalError.Read → ⊥) → S.faults src.new ≡ S.faults src.old }
    ensures later { S.faults src.old ≤ S.faults src.new }
    ensures read { IsErrOf result JournalError.Read → Rose (S.faults src.old) (S.faults src.new) }
{
    let bytes = match read_all(alloc, src, 67_108_864) {
        Ok(bytes) => bytes,
        Err(ReadAllError::Memory) => return Err(JournalError::Memory),
        Err(ReadAllError::Read) => return Err(JournalError::Read),
        Err(ReadAllError::TooLong) => return Err(JournalError::TooLong),
    };
    match journal_of(alloc, &bytes) {
        Ok(journal) => Ok(journal),
        Err(TextError::Memory) => Err(JournalError::Memory),
        Err(TextError::BadLine { line }) => Err(JournalError::BadLine { line }),
        Err(TextError::PartialEnd) => Err(JournalError::PartialEnd),
    }
}
