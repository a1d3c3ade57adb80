//! The lines of the parts of a workload, put together.
ghost use Rattle.std.specs.Prelude.{◌≡◌, ◌++◌, [], ◌+◌, ◌<◌, ◌^◌, ◌≤◌, length, OnOk, IfOk, nat_eq};
ghost use Rattle.std.specs.List.{flat_map};
ghost use Rattle.run_report.specs.Replies.{reported_part, further_told, all_told};
ghost use Rattle.run_report.specs.Calls.{task_lines, call_lines};
ghost use Rattle.std.specs.HashMap.{get};
ghost use Rattle.run_report.specs.Seen.{nothing_seen, seen_from};
ghost use Rattle.run_report.specs.Report.{parts_told, report_by};

use crate::call_lines::push_call_lines;
use crate::deciding::{calls_before, decided, replies_to};
use crate::ends::ends_of;
use crate::short_ends::ShortEnd;
use crate::task_lines::push_task_lines;
use node_journals::ShortList;
use std::alloc::{AllocError, Global};
use std::collections::HashMap;
use workload_file::{Part, Workload};

/// The lines of tasks, and those of calls, which stand behind them.
#[derive(Drop)]
struct Page {
    tasks: Vec<u8>,
    calls: Vec<u8>,
}

/// The lines of a part, whose caller has this seat and makes so many calls before those of its statements.
#[tactic(auto, using(crate::proofs::Zips::nows_part))]
fn push_part(
    alloc: Global,
    page: &mut Page,
    who: u32,
    before: usize,
    part: &Part,
    entries: &ShortList,
    ended: &HashMap<u64, ShortEnd>,
) -> Result<(), AllocError>
    ensures tasks { OnOk result (page.new.tasks.items ≡ page.old.tasks.items ++ task_lines (get nat_eq ended.now) (reported_part who before entries.now.entries part.now)) }
    ensures calls { OnOk result (page.new.calls.items ≡ page.old.calls.items ++ call_lines (reported_part who before entries.now.entries part.now)) }
{
    let all = decided(alloc, who, entries.shorts())?;
    let name = part.name.as_slice();
    let statements = part.statements.as_slice();
    let replies = replies_to(&all, before, statements.len());
    push_task_lines(alloc, &mut page.tasks, name, ended, statements, replies)?;
    push_call_lines(alloc, &mut page.calls, name, statements, replies)
}

/// The lines of the parts of further callers, from this seat on.
#[tactic(auto, using(crate::proofs::Parts::two_pieces, crate::proofs::Parts::further_more), unfolding(crate::specs::Replies::further_told))]
fn push_further(
    alloc: Global,
    page: &mut Page,
    who: u32,
    parts: &[Part],
    entries: &ShortList,
    ended: &HashMap<u64, ShortEnd>,
) -> Result<(), AllocError>
    requires { who + length parts.now < 2 ^ 32 }
    ensures tasks { OnOk result (page.new.tasks.items ≡ page.old.tasks.items ++ flat_map (task_lines (get nat_eq ended.now)) (further_told who entries.now.entries parts.now)) }
    ensures calls { OnOk result (page.new.calls.items ≡ page.old.calls.items ++ flat_map call_lines (further_told who entries.now.entries parts.now)) }
{
    match parts {
        [] => Ok(()),
        [part, rest @ ..] => {
            push_part(alloc, page, who, 1, part, entries, ended)?;
            push_further(alloc, page, who + 1, rest, entries, ended)
        }
    }
}

/// The lines of all parts. Main has this seat.
#[tactic(auto, using(crate::proofs::Parts::two_pieces, crate::proofs::Parts::all_more))]
fn push_all(
    alloc: Global,
    page: &mut Page,
    main: u32,
    parts: &[Part],
    entries: &ShortList,
    ended: &HashMap<u64, ShortEnd>,
) -> Result<(), AllocError>
    requires { main + length parts.now < 2 ^ 32 }
    ensures tasks { OnOk result (page.new.tasks.items ≡ page.old.tasks.items ++ flat_map (task_lines (get nat_eq ended.now)) (all_told main entries.now.entries parts.now)) }
    ensures calls { OnOk result (page.new.calls.items ≡ page.old.calls.items ++ flat_map call_lines (all_told main entries.now.entries parts.now)) }
{
    match parts {
        [] => Ok(()),
        [part, further @ ..] => {
            push_part(alloc, page, main, calls_before(part), part, entries, ended)?;
            push_further(alloc, page, main + 1, further, entries, ended)
        }
    }
}

fn empty_page(alloc: Global) -> Page
    ensures tasks { result.tasks.items ≡ [] }
    ensures calls { result.calls.items ≡ [] }
{
    Page {
        tasks: Vec::new(alloc),
        calls: Vec::new(alloc),
    }
}

/// The lines of tasks, and those of calls behind them.
fn joined(page: Page) -> Result<Vec<u8>, AllocError>
    ensures { IfOk result (λ text. text.items ≡ page.tasks.items ++ page.calls.items) }
{
    let Page { mut tasks, calls } = page;
    tasks.extend_from_slice(&calls)?;
    Ok(tasks)
}

/// The text of a workload with these entries, whatever they are.
#[tactic(auto, using(crate::proofs::Parts::text_is))]
pub fn text_by_entries(
    alloc: Global,
    load: &Workload,
    entries: &ShortList,
) -> Result<Vec<u8>, AllocError>
    requires seats { load.now.settings.workers + length load.now.parts < 2 ^ 32 }
    requires workers { load.now.settings.workers ≤ 64 }
    ensures { IfOk result (λ text.
        text.items ≡ report_by (seen_from load.now.settings.workers nothing_seen entries.now.entries).ends (parts_told load.now entries.now.entries)) }
{
    let workers = load.settings.workers();
    let ended = ends_of(alloc, workers, entries)?;
    let mut page = empty_page(alloc);
    push_all(
        alloc,
        &mut page,
        workers,
        load.parts.as_slice(),
        entries,
        &ended,
    )?;
    joined(page)
}
