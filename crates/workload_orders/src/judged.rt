//! What is judged before it is told.
ghost use Rattle.std.specs.Prelude.{◌≡◌, true, IfOk, OnOk, IfSome, ◌++◌};
ghost use Rattle.workload_file.specs.Formed.{WellFormed};
ghost use Rattle.begun_runs.specs.Begun.{Begun, Stuck};
ghost use Rattle.workload_orders.specs.Names.{IsLegal, IsJournalRun};
ghost use Rattle.workload_orders.specs.Shown.{Shows, HasHistory};

use crate::listed::{Deadlock, Report};
use begun_runs::{Probes, add_waits, halts, is_begun, probes_of};
use journal_check::{Verdict, check_run};
use mtapi_machine::Entry;
use mtapi_values::Layout;
use node_journals::{Journal, ShortList};
use run_report::report_of;
use std::alloc::{AllocError, Global};
use workload_file::Workload;

/// A journal of these entries, with the settings and the callers of a workload.
pub(crate) fn journal_of(load: &Workload, entries: ShortList) -> Journal
    ensures { result.settings ≡ load.now.settings }
{
    let mut callers = 0;
    for _ in load.parts.as_slice() {
        callers = if callers < 9 { callers + 1 } else { 9 };
    }
    Journal {
        layout: Layout::Two,
        settings: load.settings,
        callers,
        entries,
    }
}

/// The report of this journal; none if it is no legal history, or no run of the workload.
pub(crate) fn judged_report(
    alloc: Global,
    load: &Workload,
    journal: Journal,
) -> Result<Option<Report>, AllocError>
    requires formed { WellFormed load.now }
    ensures { IfOk result (λ r. IfSome r (Shows load.now)) }
{
    match check_run(alloc, load, &journal)? {
        Verdict::Yes => {
            let text = report_of(alloc, load, &journal)?;
            let _ = journal.entries.skipped();
            Ok(Some(Report { text, journal }))
        }
        _ => Ok(None),
    }
}

/// Whether this journal is a legal history, and no run of the workload.
fn is_unended(alloc: Global, load: &Workload, journal: &Journal) -> Result<bool, AllocError>
    requires formed { WellFormed load.now }
    ensures { IfOk result (λ b. b ≡ true → IsLegal journal.now × (IsJournalRun load.now journal.now → ⊥)) }
{
    match check_run(alloc, load, journal)? {
        Verdict::NotRun => Ok(true),
        _ => Ok(false),
    }
}

/// Whether a run of the workload may begin so, whatever the machine would reply further on.
fn has_begun(alloc: Global, load: &Workload, journal: &Journal) -> Result<bool, AllocError>
    requires formed { WellFormed load.now }
    ensures { IfOk result (λ b. b ≡ true → Begun load.now journal.now.entries.entries journal.now.entries.skipped) }
{
    let _ = load.settings.workers();
    is_begun(alloc, load, &journal.entries)
}

/// The stop behind these entries, and the first looks of those that wait for a task; none if they are no legal history, a whole run of the
/// workload, or not the front of one.
pub(crate) fn judged_stop(
    alloc: Global,
    load: &Workload,
    mut entries: ShortList,
    waits: Vec<u8>,
) -> Result<Option<Deadlock>, AllocError>
    requires formed { WellFormed load.now }
    ensures { IfOk result (λ r. IfSome r (HasHistory load.now)) }
{
    add_waits(alloc, load, &mut entries)?;
    let journal = journal_of(load, entries);
    if journal.callers as usize != load.parts.as_slice().len() {
        return Ok(None);
    }
    if !is_unended(alloc, load, &journal)? || !has_begun(alloc, load, &journal)? {
        return Ok(None);
    }
    Ok(Some(Deadlock { waits, journal }))
}

/// Puts entries behind others.
#[tactic(auto, using(crate::proofs::Stuck::append_none, crate::proofs::Stuck::append_more, crate::proofs::Stuck::append_all))]
fn push_all(list: &mut ShortList, entries: &[Entry]) -> Result<(), AllocError>
    ensures { OnOk result (list.new.entries ≡ list.old.entries ++ entries.now) }
{
    for entry in entries {
        list.push_call(entry.who, &entry.op, &entry.reply, 0)?;
    }
    Ok(())
}

/// A history with looks and refusals behind it.
#[tactic(auto, using(crate::proofs::Stuck::three_parts))]
fn with_probes(alloc: Global, entries: &[Entry], probes: &Probes) -> Result<ShortList, AllocError>
    ensures { IfOk result (λ l. l.entries ≡ entries.now ++ (probes.now.refused.items ++ probes.now.looks.items)) }
{
    let mut list = ShortList::new(alloc);
    push_all(&mut list, entries)?;
    push_all(&mut list, &probes.refused)?;
    push_all(&mut list, &probes.looks)?;
    Ok(list)
}

/// Whether a journal is a legal history.
fn is_legal(alloc: Global, load: &Workload, journal: &Journal) -> Result<bool, AllocError>
    requires formed { WellFormed load.now }
    ensures { IfOk result (λ b. b ≡ true → IsLegal journal.now) }
{
    match check_run(alloc, load, journal)? {
        Verdict::Illegal { .. } => Ok(false),
        _ => Ok(true),
    }
}

/// Whether no seat goes on behind the journal of a stop, so that it is a deadlock: true only where that is so.
pub(crate) fn is_stuck(alloc: Global, load: &Workload, stop: &Deadlock) -> Result<bool, AllocError>
    requires formed { WellFormed load.now }
    requires history { HasHistory load.now stop.now }
    ensures { IfOk result (λ b. b ≡ true
        → Stuck load.now stop.now.journal.layout stop.now.journal.entries.entries stop.now.journal.entries.skipped) }
{
    let _ = load.settings.workers();
    let full = stop.journal.entries.in_full(alloc)?;
    let probes = probes_of(alloc, load, full.as_slice())?;
    if !halts(alloc, load, full.as_slice(), &probes)? {
        return Ok(false);
    }
    let longer = Journal {
        layout: stop.journal.layout,
        settings: stop.journal.settings,
        callers: stop.journal.callers,
        entries: with_probes(alloc, full.as_slice(), &probes)?,
    };
    is_legal(alloc, load, &longer)
}
