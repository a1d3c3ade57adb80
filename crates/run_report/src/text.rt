//! Pieces of the report's text.
ghost use Rattle.std.specs.Prelude.{◌≡◌, ◌++◌, OnOk, Some};
ghost use Rattle.workload_file.specs.Reading.{name_text};
ghost use Rattle.run_report.specs.Tasks.{numbers_text, end_text};
ghost use Rattle.run_report.specs.Calls.{marked_line};

use mtapi_values::TaskEnd;
use number_text::{push_list, push_number};
use std::alloc::{AllocError, Global};
use workload_file::Statement;

/// The name that a statement binds; nothing, where it binds none.
pub fn name_of(statement: &Statement) -> &[u8]
    ensures { result.now ≡ name_text statement.now.name }
{
    match &statement.name {
        Some(name) => name.as_slice(),
        None => &[],
    }
}

/// Numbers behind a space, with commas between them; nothing, where there is none.
#[tactic(auto, unfolding(crate::specs::Tasks::numbers_text))]
fn push_numbers(alloc: Global, out: &mut Vec<u8>, numbers: &[i64]) -> Result<(), AllocError>
    ensures { OnOk result (out.new.items ≡ out.old.items ++ numbers_text numbers.now) }
{
    if numbers.is_empty() {
        return Ok(());
    }
    out.push(b' ')?;
    push_list(alloc, out, numbers)
}

/// How a task ended.
#[tactic(auto, unfolding(crate::specs::Tasks::end_text))]
pub fn push_end(alloc: Global, out: &mut Vec<u8>, end: &TaskEnd) -> Result<(), AllocError>
    ensures { OnOk result (out.new.items ≡ out.old.items ++ end_text end.now) }
{
    match end {
        TaskEnd::Completed(numbers) => {
            out.extend_from_slice(b"completed")?;
            push_numbers(alloc, out, numbers.as_slice())
        }
        TaskEnd::Cancelled => out.extend_from_slice(b"cancelled"),
        TaskEnd::Failed(status) => {
            out.extend_from_slice(b"error ")?;
            out.extend_from_slice(status.name().as_bytes())
        }
    }
}

/// A line: its mark, the part, the statement's line and the text, with spaces between them.
pub fn push_marked(
    alloc: Global,
    out: &mut Vec<u8>,
    mark: u8,
    part: &[u8],
    line: u64,
    text: &[u8],
) -> Result<(), AllocError>
    ensures { OnOk result (out.new.items ≡ out.old.items ++ marked_line mark part.now line (Some text.now)) }
{
    out.push(mark)?;
    out.push(b' ')?;
    out.extend_from_slice(part)?;
    out.push(b' ')?;
    push_number(alloc, out, line)?;
    out.push(b' ')?;
    out.extend_from_slice(text)?;
    out.push(b'\n')?;
    Ok(())
}
