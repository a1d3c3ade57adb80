//! The summary of a run.
ghost use Rattle.std.specs.Prelude.{◌≡◌, ◌≤◌, ◌<◌, ◌+◌, ◌^◌, ◌++◌, length, string_bytes, IfOk, OnOk, nat_eq};
ghost use Rattle.std.specs.Fmt.{signed_decimal};
ghost use Rattle.std.specs.HashMap.{get};
ghost use Rattle.workload_file.specs.Formed.{WellFormed};
ghost use Rattle.mtapi_machine.specs.Legal.{Legal};
ghost use Rattle.mtapi_machine.specs.State.{terms_with};
ghost use Rattle.run_report.specs.Replies.{reported_part, further_told, all_told};
ghost use Rattle.run_report.specs.Report.{parts_told};
ghost use Rattle.run_report.specs.Seen.{nothing_seen, seen_from};
ghost use Rattle.run_report.specs.Summary.{no_totals, with_tasks, with_parts, counted_line, totals_text, summary, statements_in, AreTotals};

use crate::deciding::{calls_before, decided, replies_to};
use crate::ends::ends_of;
use crate::short_ends::ShortEnd;
use crate::totals::{Totals, no_totals, with_tasks};
use node_journals::{Journal, ShortList};
use number_text::{push_number, signed_text};
use std::alloc::{AllocError, Global};
use std::collections::HashMap;
use workload_file::{Part, Workload};

/// With the tasks of a part, whose caller has this seat and makes so many calls before those of its statements.
#[tactic(auto, using(crate::proofs::Zips::nows_part))]
fn with_part(
    alloc: Global,
    totals: Totals,
    who: u32,
    before: usize,
    part: &Part,
    entries: &ShortList,
    ended: &HashMap<u64, ShortEnd>,
) -> Result<Totals, AllocError>
    requires totals { AreTotals totals.tasks totals }
    requires few { totals.tasks + length part.now.statements ≤ 20000 }
    ensures value { IfOk result (λ t.
        t ≡ with_tasks (get nat_eq ended.now) totals part.now.statements (reported_part who before entries.now.entries part.now).replies) }
    ensures totals { IfOk result (λ t. AreTotals t.tasks t) }
    ensures tasks { IfOk result (λ t. t.tasks ≤ totals.tasks + length part.now.statements) }
{
    let all = decided(alloc, who, entries.shorts())?;
    let statements = part.statements.as_slice();
    let replies = replies_to(&all, before, statements.len());
    Ok(with_tasks(totals, ended, statements, replies))
}

/// With the tasks of the parts of further callers, from this seat on.
#[tactic(auto, using(crate::proofs::Summaries::further_with), unfolding(crate::specs::Replies::further_told, crate::specs::Summary::with_parts))]
fn with_further(
    alloc: Global,
    totals: Totals,
    who: u32,
    parts: &[Part],
    entries: &ShortList,
    ended: &HashMap<u64, ShortEnd>,
) -> Result<Totals, AllocError>
    requires seats { who + length parts.now < 2 ^ 32 }
    requires totals { AreTotals totals.tasks totals }
    requires few { totals.tasks + statements_in parts.now ≤ 20000 }
    ensures { IfOk result (λ t. t ≡ with_parts (get nat_eq ended.now) totals (further_told who entries.now.entries parts.now)) }
{
    match parts {
        [] => Ok(totals),
        [part, rest @ ..] => {
            let with = with_part(alloc, totals, who, 1, part, entries, ended)?;
            with_further(alloc, with, who + 1, rest, entries, ended)
        }
    }
}

/// The totals of all parts. Main has this seat.
#[tactic(auto, using(crate::proofs::Summaries::all_with, crate::proofs::Summaries::part_is), unfolding(crate::specs::Summary::with_parts))]
fn all_totals(
    alloc: Global,
    main: u32,
    parts: &[Part],
    entries: &ShortList,
    ended: &HashMap<u64, ShortEnd>,
) -> Result<Totals, AllocError>
    requires seats { main + length parts.now < 2 ^ 32 }
    requires few { statements_in parts.now ≤ 20000 }
    ensures { IfOk result (λ t. t ≡ with_parts (get nat_eq ended.now) no_totals (all_told main entries.now.entries parts.now)) }
{
    match parts {
        [] => Ok(no_totals()),
        [part, further @ ..] => {
            let with = with_part(
                alloc,
                no_totals(),
                main,
                calls_before(part),
                part,
                entries,
                ended,
            )?;
            with_further(alloc, with, main + 1, further, entries, ended)
        }
    }
}

/// The totals of a workload with these entries, whatever they are.
#[tactic(auto, using(crate::proofs::Summaries::totals_are))]
fn totals_by_entries(
    alloc: Global,
    load: &Workload,
    entries: &ShortList,
) -> Result<Totals, AllocError>
    requires seats { load.now.settings.workers + length load.now.parts < 2 ^ 32 }
    requires workers { load.now.settings.workers ≤ 64 }
    requires few { statements_in load.now.parts ≤ 20000 }
    ensures { IfOk result (λ t.
        t ≡ with_parts (seen_from load.now.settings.workers nothing_seen entries.now.entries).ends no_totals (parts_told load.now entries.now.entries)) }
{
    let workers = load.settings.workers();
    let ended = ends_of(alloc, workers, entries)?;
    all_totals(alloc, workers, load.parts.as_slice(), entries, &ended)
}

/// A count behind its word.
fn push_counted(alloc: Global, out: &mut Vec<u8>, word: &[u8], count: u64) -> Result<(), AllocError>
    ensures { OnOk result (out.new.items ≡ out.old.items ++ counted_line word.now count) }
{
    out.extend_from_slice(word)?;
    push_number(alloc, out, count)
}

/// A sum in decimal.
fn sum_text(alloc: Global, totals: &Totals) -> Result<String, AllocError>
    ensures { IfOk result (λ text. string_bytes text ≡ signed_decimal totals.now.sum) }
{
    signed_text(alloc, totals.sum)
}

/// The line of totals.
#[tactic(auto, using(crate::proofs::Summaries::line_is), unfolding(crate::specs::Summary::totals_text))]
pub fn line_of(alloc: Global, totals: &Totals) -> Result<Vec<u8>, AllocError>
    ensures { IfOk result (λ text. text.items ≡ totals_text totals.now) }
{
    let sum = sum_text(alloc, totals)?;
    let mut out = Vec::new(alloc);
    push_counted(alloc, &mut out, b"tasks ", totals.tasks)?;
    push_counted(alloc, &mut out, b" completed ", totals.completed)?;
    push_counted(alloc, &mut out, b" cancelled ", totals.cancelled)?;
    push_counted(alloc, &mut out, b" error ", totals.failed)?;
    push_counted(alloc, &mut out, b" refused ", totals.refused)?;
    out.extend_from_slice(b" sum ")?;
    out.extend_from_slice(sum.as_bytes())?;
    out.push(b'\n')?;
    Ok(out)
}

/// Writes the summary of a run of this workload that left this journal: one line, with its tasks
/// counted by how they ended, and the sum of all numbers of those that completed. It fails for want
/// of memory alone.
#[tactic(auto, using(crate::proofs::Parts::legal_same, crate::proofs::Summaries::few_statements, crate::proofs::Summaries::summary_is))]
pub fn summary_of(alloc: Global, load: &Workload, journal: &Journal) -> Result<Vec<u8>, AllocError>
    requires formed { WellFormed load.now }
    requires settings { journal.now.settings ≡ load.now.settings }
    requires callers { journal.now.callers ≡ length load.now.parts }
    requires legal { Legal (terms_with journal.now.layout journal.now.settings journal.now.callers) journal.now.entries.entries }
    ensures { IfOk result (λ text. text.items ≡ summary journal.now.layout load.now journal.now.entries.entries) }
{
    let totals = totals_by_entries(alloc, load, &journal.entries)?;
    line_of(alloc, &totals)
}
