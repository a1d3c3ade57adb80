//! What is written of a journal that was judged.
ghost use Rattle.std.specs.Prelude.{◌≡◌, ◌+◌, ◌≤◌, ◌<◌, ◌^◌, ◌++◌, ◌∷◌, [], Some, codes, length, IfOk, OnOk};
ghost use Rattle.number_text.specs.Lists.{between};
ghost use Rattle.journal_reasons.specs.Pages.{first_line, nth_line, instead_lines, judged_page_text};

use crate::judging::Judgement;
use journal_text::write_journal;
use mtapi_machine::Entry;
use node_journals::{Journal, ShortList};
use number_text::{cut_at, push_number};
use std::alloc::{AllocError, Global};

/// How many lines there are, the last one among them, which has no line feed.
pub(crate) fn count_lines(text: &[u8]) -> u64
    requires { length text.now < 2 ^ 62 }
    ensures count { result ≡ length (between 10 text.now) }
    ensures few { result ≤ length text.now + 1 }
{
    let mut count = 1u64;
    let mut left = text;
    'lines: loop {
        match cut_at(left, b'\n').1 {
            Some(rest) => left = rest,
            None => return count,
        }
        count += 1;
    }
}

/// The line of this number, from 0; empty if there are fewer.
pub(crate) fn nth_line(text: &[u8], number: u64) -> &[u8]
    ensures { result.now ≡ nth_line (between 10 text.now) number }
{
    let mut left = text;
    let mut above = number;
    'lines: loop {
        let (line, after) = cut_at(left, b'\n');
        if above == 0 {
            return line;
        }
        match after {
            Some(rest) => left = rest,
            None => return b"",
        }
        above -= 1;
    }
}

// The line that names the first entry that isn't allowed.
#[tactic(auto, unfolding(crate::specs::Pages::first_line))]
fn place_line(alloc: Global, front: &[u8], rest: &[u8], entry: u64) -> Result<Vec<u8>, AllocError>
    requires short { length front.now < 2 ^ 62 }
    requires few { entry < 2 ^ 62 }
    ensures { IfOk result (λ line. line.items ≡ first_line front.now rest.now (Some entry)) }
{
    let mut line = Vec::from_slice(alloc, b"illegal line ")?;
    push_number(alloc, &mut line, count_lines(front) + entry)?;
    line.extend_from_slice(b": ")?;
    line.extend_from_slice(nth_line(rest, entry))?;
    line.push(b'\n')?;
    Ok(line)
}

// The journal of the same node that has this entry alone.
fn journal_of_one(alloc: Global, journal: &Journal, entry: &Entry) -> Result<Journal, AllocError>
    ensures { IfOk result (λ j. j ≡ record journal.now { entries = record { entries = entry.now ∷ []; skipped = 0 ∷ [] } }) }
{
    let mut entries = ShortList::new(alloc);
    entries.push_call(entry.who, &entry.op, &entry.reply, 0)?;
    Ok(Journal {
        layout: journal.layout,
        settings: journal.settings,
        callers: journal.callers,
        entries,
    })
}

// Appends the line of an entry that is named as allowed.
fn push_one_instead(
    alloc: Global,
    page: &mut Vec<u8>,
    journal: &Journal,
    entry: &Entry,
) -> Result<(), AllocError>
    ensures { OnOk result (page.new.items ≡ page.old.items ++ instead_lines journal.now (entry.now ∷ [])) }
{
    let one = journal_of_one(alloc, journal, entry)?;
    let text = write_journal(alloc, &one)?;
    page.extend_from_slice(b"instead: ")?;
    page.extend_from_slice(nth_line(&text, 1))?;
    page.push(b'\n')?;
    Ok(())
}

// Appends a line for each entry that is named as allowed.
fn push_instead(
    alloc: Global,
    page: &mut Vec<u8>,
    journal: &Journal,
    entries: &[Entry],
) -> Result<(), AllocError>
    ensures { OnOk result (page.new.items ≡ page.old.items ++ instead_lines journal.now entries.now) }
{
    for entry in entries {
        push_one_instead(alloc, page, journal, entry)?;
    }
    Ok(())
}

// Appends the line that says why.
fn push_why(page: &mut Vec<u8>, why: &[u8]) -> Result<(), AllocError>
    ensures { OnOk result (page.new.items ≡ page.old.items ++ (codes "why: " ++ (why.now ++ 10 ∷ []))) }
{
    page.extend_from_slice(b"why: ")?;
    page.extend_from_slice(why)?;
    page.push(b'\n')?;
    Ok(())
}

/// What is written of a journal that stands in `rest`, behind `front`, and was judged.
#[tactic(auto, unfolding(crate::specs::Pages::first_line))]
pub fn page_of(
    alloc: Global,
    front: &[u8],
    rest: &[u8],
    journal: &Journal,
    judgement: &Judgement,
) -> Result<Vec<u8>, AllocError>
    requires { length front.now < 2 ^ 62 }
    ensures { IfOk result (λ page. page.items ≡ judged_page_text front.now rest.now journal.now judgement.now) }
{
    match judgement {
        Judgement::Legal => Vec::from_slice(alloc, b"legal\n"),
        Judgement::Illegal {
            entry,
            instead,
            why,
        } => {
            // So many entries need more memory than there is.
            if *entry >= 4_611_686_018_427_387_904 {
                return Err(AllocError);
            }
            let mut page = place_line(alloc, front, rest, *entry)?;
            push_why(&mut page, why)?;
            push_instead(alloc, &mut page, journal, instead)?;
            Ok(page)
        }
    }
}
