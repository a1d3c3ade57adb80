//! Which replies are allowed in place of an entry's: each is tried behind the entries before it.
ghost use Rattle.std.specs.Prelude.{◌≡◌, ◌-◌, ◌++◌, ◌∷◌, [], true, map, take, IfOk, IfSome, OnOk};
ghost use Rattle.workload_file.specs.Formed.{WellFormed};
ghost use Rattle.mtapi_machine.specs.Legal.{Legal};
ghost use Rattle.node_journals.specs.Shorts.{entry_of};
ghost use Rattle.journal_check.specs.Judged.{IsLegalOr};
ghost use Rattle.journal_check.specs.Verdicts.{terms_of_journal};
ghost use Rattle.journal_reasons.specs.Judged.{AreInstead};

use journal_check::{Verdict, check_run};
use mtapi_machine::{Entry, Reply};
use node_journals::{Journal, ShortEntry, ShortList};
use std::alloc::{AllocError, Global};
use workload_file::Workload;

/// The number, from 1, of the first entry of a journal that isn't allowed; none where it is legal. No workload bears on it.
#[tactic(auto, using(crate::proofs::Judgements::legal_by_yes, crate::proofs::Judgements::legal_by_no, crate::proofs::Judgements::first_by_place))]
pub(crate) fn first_illegal(
    alloc: Global,
    load: &Workload,
    journal: &Journal,
) -> Result<Option<u64>, AllocError>
    requires { WellFormed load.now }
    ensures { IfOk result (IsLegalOr (terms_of_journal journal.now) journal.now.entries.entries) }
{
    match check_run(alloc, load, journal)? {
        Verdict::Yes => Ok(None),
        Verdict::NotRun => Ok(None),
        Verdict::Illegal { entry } => Ok(Some(entry)),
    }
}

// The entries before the one of this number, from 1, and that one.
fn cut_before(shorts: &[ShortEntry], number: u64) -> Option<(&[ShortEntry], &ShortEntry)>
    ensures before { IfSome result (λ cut. take (number - 1) (map entry_of shorts.now) ≡ map entry_of cut.0.now) }
    ensures with_it { IfSome result (λ cut. take number (map entry_of shorts.now) ≡ map entry_of cut.0.now ++ entry_of cut.1.now ∷ []) }
{
    if number == 0 || number > shorts.len() as u64 {
        return None;
    }
    let (before, rest) = shorts.split_at((number - 1) as usize);
    match rest {
        [given, ..] => Some((before, given)),
        [] => None,
    }
}

fn push_short(list: &mut ShortList, short: &ShortEntry) -> Result<(), AllocError>
    ensures { OnOk result (list.new.entries ≡ list.old.entries ++ entry_of short.now ∷ []) }
{
    list.push(short.full(), 0)
}

fn list_of(alloc: Global, shorts: &[ShortEntry]) -> Result<ShortList, AllocError>
    ensures { IfOk result (λ list. list.entries ≡ map entry_of shorts.now) }
{
    let mut list = ShortList::new(alloc);
    for short in shorts {
        push_short(&mut list, short)?;
    }
    Ok(list)
}

// A journal of the same node with these entries, and this one behind them.
fn journal_with(
    alloc: Global,
    journal: &Journal,
    before: &[ShortEntry],
    last: &Entry,
) -> Result<Journal, AllocError>
    ensures terms { IfOk result (λ j. terms_of_journal j ≡ terms_of_journal journal.now) }
    ensures entries { IfOk result (λ j. j.entries.entries ≡ map entry_of before.now ++ last.now ∷ []) }
{
    let mut entries = list_of(alloc, before)?;
    entries.push_call(last.who, &last.op, &last.reply, 0)?;
    Ok(Journal {
        layout: journal.layout,
        settings: journal.settings,
        callers: journal.callers,
        entries,
    })
}

// Whether the entry is allowed behind those before it.
fn is_allowed(
    alloc: Global,
    load: &Workload,
    journal: &Journal,
    before: &[ShortEntry],
    last: &Entry,
) -> Result<bool, AllocError>
    requires { WellFormed load.now }
    ensures { IfOk result (λ b. b ≡ true → Legal (terms_of_journal journal.now) (map entry_of before.now ++ last.now ∷ [])) }
{
    let tried = journal_with(alloc, journal, before, last)?;
    match first_illegal(alloc, load, &tried)? {
        None => Ok(true),
        Some(_) => Ok(false),
    }
}

fn same_call(given: &Entry, reply: &Reply) -> Entry
    ensures who { result.who ≡ given.now.who }
    ensures op { result.op ≡ given.now.op }
{
    Entry {
        who: given.who,
        op: given.op.again(),
        reply: reply.again(),
    }
}

// Adds the entry with this reply, where that is allowed.
#[tactic(auto, using(crate::proofs::Allowed::one_more))]
fn add_allowed(
    alloc: Global,
    load: &Workload,
    journal: &Journal,
    number: u64,
    reply: &Reply,
    allowed: &mut Vec<Entry>,
) -> Result<(), AllocError>
    requires formed { WellFormed load.now }
    requires so_far { AreInstead (terms_of_journal journal.now) journal.now.entries.entries number allowed.old.items }
    ensures { OnOk result (AreInstead (terms_of_journal journal.now) journal.now.entries.entries number allowed.new.items) }
{
    let Some((before, given)) = cut_before(journal.entries.shorts(), number) else {
        return Ok(());
    };
    let entry = same_call(&given.full(), reply);
    if is_allowed(alloc, load, journal, before, &entry)? {
        allowed.push(entry)?;
    }
    Ok(())
}

/// The entry of this number, from 1, with each of these replies that is allowed there. It fails for want of memory alone.
pub(crate) fn allowed_among(
    alloc: Global,
    load: &Workload,
    journal: &Journal,
    number: u64,
    replies: &[Reply],
) -> Result<Vec<Entry>, AllocError>
    requires { WellFormed load.now }
    ensures { IfOk result (λ entries. AreInstead (terms_of_journal journal.now) journal.now.entries.entries number entries.items) }
{
    let mut allowed = Vec::new(alloc);
    for reply in replies {
        add_allowed(alloc, load, journal, number, reply, &mut allowed)?;
    }
    Ok(allowed)
}
