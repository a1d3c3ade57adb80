//! The canonical text of a workload: its lines.
ghost use Rattle.std.specs.Prelude.{◌≡◌, ◌++◌, ◌∷◌, [], List, ℕ, ◌-◌, replicate, OnOk, IfOk, Option, Ok, ◌≤◌, length};
ghost use Rattle.std.specs.List.{flat_map};
ghost use Rattle.workload_file.specs.Written.{statement_text, node_text, caller_text, statement_lines_behind, lines_of_part, workload_lines, if_any, laid_out, canonical, bound_words, used_words};
ghost use Rattle.workload_file.specs.Led.{last_line};
ghost use Rattle.number_text.specs.Lists.{led};
ghost use Rattle.workload_file.specs.Reading.{workload_of};

use crate::name::Name;
use crate::table::Word;
use crate::text::{name_at, push_options};
use crate::values::{deed_spelled, setting_values};
use crate::workload::{Part, Statement, Workload};
use mtapi_values::NodeAttr;
use std::alloc::{AllocError, Global};

/// A text, and the number of the line at which it ends.
#[derive(Drop)]
struct Page {
    text: Vec<u8>,
    line: u64,
}

/// Line feeds up to a line.
#[tactic(auto, using(crate::proofs::Phrases::fed_more, crate::proofs::Phrases::fed_all))]
fn feed(page: &mut Page, line: u64) -> Result<(), AllocError>
    ensures text { OnOk result (page.new.text.items ≡ page.old.text.items ++ replicate (line - page.old.line) 10) }
    ensures line { OnOk result (page.new.line ≡ line) }
{
    let mut at = page.line;
    while at < line {
        page.text.push(b'\n')?;
        at += 1;
    }
    page.line = line;
    Ok(())
}

fn push_word(out: &mut Vec<u8>, word: &[u8]) -> Result<(), AllocError>
    ensures { OnOk result (out.new.items ≡ out.old.items ++ led 32 (word.now ∷ [])) }
{
    out.push(b' ')?;
    out.extend_from_slice(word)
}

fn push_bound(out: &mut Vec<u8>, name: &Option<Name>) -> Result<(), AllocError>
    ensures { OnOk result (out.new.items ≡ out.old.items ++ led 32 (bound_words name.now)) }
{
    match name {
        Some(name) => push_word(out, name.as_slice()),
        None => Ok(()),
    }
}

fn push_used(out: &mut Vec<u8>, before: &[Statement], used: Option<u32>) -> Result<(), AllocError>
    ensures { OnOk result (out.new.items ≡ out.old.items ++ led 32 (used_words before.now used)) }
{
    match used {
        Some(place) => push_word(out, name_at(before, place)),
        None => Ok(()),
    }
}

#[tactic(auto, using(number_text::proofs::Pieces::joined, number_text::proofs::Pieces::led_append))]
fn push_statement(
    alloc: Global,
    out: &mut Vec<u8>,
    before: &[Statement],
    statement: &Statement,
) -> Result<(), AllocError>
    ensures { OnOk result (out.new.items ≡ out.old.items ++ statement_text before.now statement.now) }
{
    let (word, place, values) = deed_spelled(alloc, &statement.deed)?;
    out.extend_from_slice(word.text())?;
    push_bound(out, &statement.name)?;
    push_used(out, before, place)?;
    push_options(alloc, out, before, word.fields(), &values)
}

#[tactic(auto, using(number_text::proofs::Pieces::joined, number_text::proofs::Pieces::led_append))]
fn push_node(alloc: Global, out: &mut Vec<u8>, settings: &NodeAttr) -> Result<(), AllocError>
    ensures { OnOk result (out.new.items ≡ out.old.items ++ node_text settings.now) }
{
    out.extend_from_slice(Word::Node.text())?;
    let values = setting_values(alloc, settings)?;
    push_options(alloc, out, &[], Word::Node.fields(), &values)
}

#[tactic(auto, using(number_text::proofs::Pieces::joined, number_text::proofs::Pieces::led_append))]
fn push_caller(out: &mut Vec<u8>, name: &Name) -> Result<(), AllocError>
    ensures { OnOk result (out.new.items ≡ out.old.items ++ caller_text name.now) }
{
    out.extend_from_slice(Word::Caller.text())?;
    push_word(out, name.as_slice())
}

fn lay_statements(
    alloc: Global,
    page: &mut Page,
    statements: &[Statement],
) -> Result<(), AllocError>
    ensures text { OnOk result (page.new.text.items ≡ page.old.text.items ++ laid_out page.old.line (statement_lines_behind [] statements.now)) }
    ensures line { OnOk result (page.new.line ≡ last_line page.old.line (statement_lines_behind [] statements.now)) }
{
    for (i, statement) in statements.iter().enumerate() {
        feed(page, statement.line)?;
        push_statement(alloc, &mut page.text, &statements[..i], statement)?;
    }
    Ok(())
}

fn lay_caller(page: &mut Page, line: u64, name: &Name) -> Result<(), AllocError>
    ensures text { OnOk result (page.new.text.items ≡ page.old.text.items ++ laid_out page.old.line (if_any line (caller_text name.now))) }
    ensures line { OnOk result (page.new.line ≡ last_line page.old.line (if_any line (caller_text name.now))) }
{
    if line == 0 {
        return Ok(());
    }
    feed(page, line)?;
    push_caller(&mut page.text, name)
}

fn lay_node(
    alloc: Global,
    page: &mut Page,
    line: u64,
    settings: &NodeAttr,
) -> Result<(), AllocError>
    ensures text { OnOk result (page.new.text.items ≡ page.old.text.items ++ laid_out page.old.line (if_any line (node_text settings.now))) }
    ensures line { OnOk result (page.new.line ≡ last_line page.old.line (if_any line (node_text settings.now))) }
{
    if line == 0 {
        return Ok(());
    }
    feed(page, line)?;
    push_node(alloc, &mut page.text, settings)
}

fn lay_part(alloc: Global, page: &mut Page, part: &Part) -> Result<(), AllocError>
    ensures text { OnOk result (page.new.text.items ≡ page.old.text.items ++ laid_out page.old.line (lines_of_part part.now)) }
    ensures line { OnOk result (page.new.line ≡ last_line page.old.line (lines_of_part part.now)) }
{
    lay_caller(page, part.line, &part.name)?;
    lay_statements(alloc, page, part.statements.as_slice())
}

fn lay_parts(alloc: Global, page: &mut Page, parts: &[Part]) -> Result<(), AllocError>
    ensures text { OnOk result (page.new.text.items ≡ page.old.text.items ++ laid_out page.old.line (flat_map lines_of_part parts.now)) }
    ensures line { OnOk result (page.new.line ≡ last_line page.old.line (flat_map lines_of_part parts.now)) }
{
    match parts {
        [] => Ok(()),
        [part, rest @ ..] => {
            lay_part(alloc, page, part)?;
            lay_parts(alloc, page, rest)
        }
    }
}

/// The canonical text: each statement on its own line, words joined by one space, options in the order of the
/// table and left out where they have their defaults, and no line feed behind the last line.
///
/// # Errors
///
/// - `AllocError`: memory ran out.
pub fn text_of(alloc: Global, load: &Workload) -> Result<Vec<u8>, AllocError>
    ensures canonical { IfOk result (λ text. text.items ≡ canonical load.now) }
    // For a workload that was read, reading this text gives the same workload, and it is no longer than what was read.
    ensures again { (bytes : List ℕ) → workload_of bytes ≡ Ok load.now
        → IfOk result (λ text. workload_of text.items ≡ Ok load.now) }
    ensures short { (bytes : List ℕ) → workload_of bytes ≡ Ok load.now
        → IfOk result (λ text. length text.items ≤ length bytes) }
{
    let mut page = Page {
        text: Vec::new(alloc),
        line: 1,
    };
    lay_node(alloc, &mut page, load.node_line, &load.settings)?;
    lay_parts(alloc, &mut page, load.parts.as_slice())?;
    Ok(page.text)
}
