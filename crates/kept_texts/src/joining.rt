//! A workload, and behind it what was kept of a run of it.
ghost use Rattle.std.specs.Prelude.{◌≡◌, IfOk};
ghost use Rattle.kept_texts.specs.Joined.{IsJournalBehind, line_ended};

use journal_text::parts_of;
use std::alloc::{AllocError, Global};

/// A text whose last line is ended.
fn ended(alloc: Global, text: &[u8]) -> Result<Vec<u8>, AllocError>
    ensures { IfOk result (λ r. r.items ≡ line_ended text.now) }
{
    let mut ended = Vec::from_slice(alloc, text)?;
    if !text.is_empty() && text[text.len() - 1] != b'\n' {
        ended.push(b'\n')?;
    }
    Ok(ended)
}

/// A workload, and behind it the journal in what was kept of a run, such as a report with its journal. What stands before that journal
/// is left out.
///
/// # Errors
///
/// - `AllocError`: memory ran out.
pub fn joined(alloc: Global, workload: &[u8], kept: &[u8]) -> Result<Vec<u8>, AllocError>
    ensures { IfOk result (λ text. IsJournalBehind workload.now kept.now text.items) }
{
    let (_, journal) = parts_of(kept);
    let mut text = ended(alloc, workload)?;
    text.extend_from_slice(journal)?;
    Ok(text)
}
