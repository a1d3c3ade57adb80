//! The lines of the statements of a part.
ghost use Rattle.std.specs.Prelude.{◌≡◌, ◌++◌, [], OnOk, if◌then◌else◌, nat_eq};
ghost use Rattle.run_report.specs.Tasks.{task_text};
ghost use Rattle.run_report.specs.Replies.{nows};
ghost use Rattle.run_report.specs.Calls.{shown_of, is_task, task_line, task_lines_of};
ghost use Rattle.std.specs.HashMap.{get};

use crate::deciding::reply_of;
use crate::short_ends::ShortEnd;
use crate::sorts::{Shown, shown_of};
use crate::text::{name_of, push_end};
use mtapi_machine::Reply;
use node_journals::ShortEntry;
use std::alloc::{AllocError, Global};
use std::collections::HashMap;
use workload_file::Statement;

/// What became of a task, by the reply to its statement.
fn push_task(
    alloc: Global,
    out: &mut Vec<u8>,
    ended: &HashMap<u64, ShortEnd>,
    reply: &Reply,
) -> Result<(), AllocError>
    ensures { OnOk result (out.new.items ≡ out.old.items ++ task_text (get nat_eq ended.now) reply.now) }
{
    match reply {
        Reply::Handle(handle) => match ended.get(handle) {
            Some(end) => push_end(alloc, out, &end.full()),
            _ => Ok(()),
        },
        Reply::Mtapi(status) => {
            out.extend_from_slice(b"refused ")?;
            out.extend_from_slice(status.name().as_bytes())
        }
        _ => Ok(()),
    }
}

fn push_task_line(
    alloc: Global,
    out: &mut Vec<u8>,
    part: &[u8],
    ended: &HashMap<u64, ShortEnd>,
    statement: &Statement,
    reply: &Reply,
) -> Result<(), AllocError>
    ensures { OnOk result (out.new.items ≡ out.old.items ++ task_line part.now (get nat_eq ended.now) statement.now reply.now) }
{
    out.extend_from_slice(part)?;
    out.push(b'.')?;
    out.extend_from_slice(name_of(statement))?;
    out.push(b' ')?;
    push_task(alloc, out, ended, reply)?;
    out.push(b'\n')?;
    Ok(())
}

fn push_if_task(
    alloc: Global,
    out: &mut Vec<u8>,
    part: &[u8],
    ended: &HashMap<u64, ShortEnd>,
    statement: &Statement,
    reply: &Reply,
) -> Result<(), AllocError>
    ensures { OnOk result (out.new.items ≡ out.old.items ++ (if is_task (shown_of statement.now.deed) then task_line part.now (get nat_eq ended.now) statement.now reply.now else [])) }
{
    match shown_of(&statement.deed) {
        Shown::Task => push_task_line(alloc, out, part, ended, statement, reply),
        _ => Ok(()),
    }
}

/// The lines of the tasks among these statements, one for each reply.
pub fn push_task_lines(
    alloc: Global,
    out: &mut Vec<u8>,
    part: &[u8],
    ended: &HashMap<u64, ShortEnd>,
    statements: &[Statement],
    replies: &[&ShortEntry],
) -> Result<(), AllocError>
    ensures { OnOk result (out.new.items ≡ out.old.items ++ task_lines_of part.now (get nat_eq ended.now) statements.now (nows replies.now)) }
{
    for (i, statement) in statements.iter().enumerate() {
        let Some(short) = replies.get(i) else {
            return Ok(());
        };
        push_if_task(alloc, out, part, ended, statement, &reply_of(short))?;
    }
    Ok(())
}
