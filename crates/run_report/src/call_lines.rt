//! The lines of the calls of a part.
ghost use Rattle.std.specs.List.{list_any};
ghost use Rattle.std.specs.Prelude.{◌≡◌, ◌++◌, OnOk, IfOk, nat_eq};
ghost use Rattle.std.specs.HashMap.{get};
ghost use Rattle.run_report.specs.Replies.{nows};
ghost use Rattle.run_report.specs.Calls.{shown_of, task_name, status_shown, number_shown, given_in, marked_line, call_line, call_lines_of};
ghost use Rattle.run_report.specs.Places.{names_by, is_shown_given, shows_given, ShowsNames};

use crate::deciding::reply_of;
use crate::places::{places_of, task_name};
use crate::sorts::{Shown, shown_of};
use crate::text::push_marked;
use mtapi_machine::Reply;
use node_journals::ShortEntry;
use number_text::push_whole;
use std::alloc::{AllocError, Global};
use std::collections::HashMap;
use workload_file::Statement;

fn push_status(
    alloc: Global,
    out: &mut Vec<u8>,
    part: &[u8],
    line: u64,
    reply: &Reply,
) -> Result<(), AllocError>
    ensures { OnOk result (out.new.items ≡ out.old.items ++ marked_line 33 part.now line (status_shown reply.now)) }
{
    match reply {
        Reply::Mtapi(status) => push_marked(alloc, out, b'!', part, line, status.name().as_bytes()),
        Reply::Mrapi(status) => push_marked(alloc, out, b'!', part, line, status.name().as_bytes()),
        _ => Ok(()),
    }
}

fn push_number_in(
    alloc: Global,
    out: &mut Vec<u8>,
    part: &[u8],
    line: u64,
    reply: &Reply,
) -> Result<(), AllocError>
    ensures { OnOk result (out.new.items ≡ out.old.items ++ marked_line 61 part.now line (number_shown reply.now)) }
{
    match reply {
        Reply::Number(number) => {
            let mut text = Vec::new(alloc);
            push_whole(alloc, &mut text, *number)?;
            push_marked(alloc, out, b'=', part, line, &text)
        }
        _ => Ok(()),
    }
}

fn push_given(
    alloc: Global,
    out: &mut Vec<u8>,
    part: &[u8],
    statements: &[Statement],
    places: &HashMap<u64, usize>,
    line: u64,
    reply: &Reply,
) -> Result<(), AllocError>
    ensures { OnOk result (out.new.items ≡ out.old.items ++ marked_line 61 part.now line (given_in (names_by statements.now (get nat_eq places.now)) reply.now)) }
{
    match reply {
        Reply::Given(task, _) => push_marked(
            alloc,
            out,
            b'=',
            part,
            line,
            task_name(statements, places, task.0),
        ),
        _ => Ok(()),
    }
}

fn push_call(
    alloc: Global,
    out: &mut Vec<u8>,
    part: &[u8],
    statements: &[Statement],
    places: &HashMap<u64, usize>,
    statement: &Statement,
    reply: &Reply,
) -> Result<(), AllocError>
    ensures { OnOk result (out.new.items ≡ out.old.items ++ call_line part.now (names_by statements.now (get nat_eq places.now)) statement.now.line (shown_of statement.now.deed) reply.now) }
{
    match shown_of(&statement.deed) {
        Shown::Task => Ok(()),
        Shown::Nothing => Ok(()),
        Shown::Status => push_status(alloc, out, part, statement.line, reply),
        Shown::Number => {
            push_status(alloc, out, part, statement.line, reply)?;
            push_number_in(alloc, out, part, statement.line, reply)
        }
        Shown::Given => {
            push_status(alloc, out, part, statement.line, reply)?;
            push_given(alloc, out, part, statements, places, statement.line, reply)
        }
    }
}

fn push_calls(
    alloc: Global,
    out: &mut Vec<u8>,
    part: &[u8],
    statements: &[Statement],
    places: &HashMap<u64, usize>,
    replies: &[&ShortEntry],
) -> Result<(), AllocError>
    ensures { OnOk result (out.new.items ≡ out.old.items ++ call_lines_of part.now (names_by statements.now (get nat_eq places.now)) statements.now (nows replies.now)) }
{
    for (i, statement) in statements.iter().enumerate() {
        let Some(short) = replies.get(i) else {
            return Ok(());
        };
        push_call(
            alloc,
            out,
            part,
            statements,
            places,
            statement,
            &reply_of(short),
        )?;
    }
    Ok(())
}

fn is_given(shown: Shown) -> bool
    ensures { result ≡ is_shown_given shown }
{
    matches!(shown, Shown::Given)
}

fn any_given(statements: &[Statement]) -> bool
    ensures { result ≡ list_any shows_given statements.now }
{
    statements.iter().any(|s| is_given(shown_of(&s.deed)))
}

/// The place at which each task was made, where a line shows the name of one; otherwise none.
#[tactic(auto, using(crate::proofs::Zips::named_lines, crate::proofs::Zips::unnamed_lines))]
fn places_shown(
    alloc: Global,
    statements: &[Statement],
    replies: &[&ShortEntry],
) -> Result<HashMap<u64, usize>, AllocError>
    ensures { IfOk result (λ places. ShowsNames statements.now (nows replies.now) (get nat_eq places)) }
{
    if any_given(statements) {
        places_of(alloc, statements, replies)
    } else {
        Ok(HashMap::new(alloc))
    }
}

/// The lines of the calls of these statements, one at most for each reply.
#[tactic(auto, using(crate::proofs::Zips::on_ok))]
pub fn push_call_lines(
    alloc: Global,
    out: &mut Vec<u8>,
    part: &[u8],
    statements: &[Statement],
    replies: &[&ShortEntry],
) -> Result<(), AllocError>
    ensures { OnOk result (out.new.items ≡ out.old.items ++ call_lines_of part.now (task_name statements.now (nows replies.now)) statements.now (nows replies.now)) }
{
    let places = places_shown(alloc, statements, replies)?;
    push_calls(alloc, out, part, statements, &places, replies)
}
