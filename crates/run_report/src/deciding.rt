//! The replies to the statements of a part.
ghost use Rattle.std.specs.Prelude.{◌≡◌, ◌++◌, ◌∷◌, [], OnOk, IfOk, take, drop, map, if◌then◌else◌};
ghost use Rattle.mtapi_machine.specs.Kept.{is_pending};
ghost use Rattle.node_journals.specs.Shorts.{entry_of};
ghost use Rattle.run_report.specs.Replies.{nows, decides, decided, calls_before};

use mtapi_machine::Reply;
use node_journals::ShortEntry;
use std::alloc::{AllocError, Global};
use workload_file::Part;
use workload_runs::has_begin;

fn is_pending(reply: &Reply) -> bool
    ensures { result ≡ is_pending reply.now }
{
    match reply {
        Reply::Pending => true,
        _ => false,
    }
}

/// What the entry was answered.
pub fn reply_of(short: &ShortEntry) -> Reply
    ensures { result ≡ (entry_of short.now).reply }
{
    match short {
        ShortEntry::Start { handle, .. } | ShortEntry::Enqueue { handle, .. } => Reply::Handle(
            *handle,
        ),
        ShortEntry::Finish { .. } => Reply::Ok,
        ShortEntry::Call { reply, .. } => reply.full(),
        ShortEntry::Pick { .. } => short.full().reply,
        ShortEntry::Full(entry) => entry.reply.again(),
    }
}

fn decides(who: u32, short: &ShortEntry) -> bool
    ensures { result ≡ decides who (entry_of short.now) }
{
    match short {
        ShortEntry::Start { who: seat, .. }
        | ShortEntry::Enqueue { who: seat, .. }
        | ShortEntry::Pick { who: seat, .. }
        | ShortEntry::Finish { who: seat, .. } => *seat == who,
        ShortEntry::Call {
            who: seat,
            reply,
            ..
        } => *seat == who && !reply.is_pending(),
        ShortEntry::Full(entry) => entry.who == who && !is_pending(&entry.reply),
    }
}

#[tactic(auto, using(crate::proofs::Zips::nows_push))]
fn push_if_decides<'a>(
    shorts: &mut Vec<&'a ShortEntry>,
    who: u32,
    short: &'a ShortEntry,
) -> Result<(), AllocError>
    ensures { OnOk result (nows shorts.new.items ≡ nows shorts.old.items ++ (if decides who (entry_of short.now) then (entry_of short.now).reply ∷ [] else [])) }
{
    if decides(who, short) {
        shorts.push(short)?;
    }
    Ok(())
}

/// The entries whose replies decide the calls of this seat, in order.
#[tactic(auto, using(crate::proofs::Seats::decided_none))]
pub fn decided(
    alloc: Global,
    who: u32,
    shorts: &[ShortEntry],
) -> Result<Vec<&ShortEntry>, AllocError>
    ensures { IfOk result (λ found. nows found.items ≡ decided who (map entry_of shorts.now)) }
{
    let mut found = Vec::new(alloc);
    for short in shorts {
        push_if_decides(&mut found, who, short)?;
    }
    Ok(found)
}

/// What is left behind the first ones.
fn behind<'a, 'b>(replies: &'b [&'a ShortEntry], count: usize) -> &'b [&'a ShortEntry]
    ensures { result.now ≡ drop count replies.now }
{
    if count < replies.len() {
        &replies[count..]
    } else {
        &[]
    }
}

/// The first ones.
fn front<'a, 'b>(replies: &'b [&'a ShortEntry], count: usize) -> &'b [&'a ShortEntry]
    ensures { result.now ≡ take count replies.now }
{
    if count < replies.len() {
        &replies[..count]
    } else {
        replies
    }
}

/// The replies to so many statements, among those of a seat that made so many calls before theirs.
pub fn replies_to<'a, 'b>(
    replies: &'b [&'a ShortEntry],
    before: usize,
    statements: usize,
) -> &'b [&'a ShortEntry]
    ensures { result.now ≡ take statements (drop before replies.now) }
{
    front(behind(replies, before), statements)
}

/// How many calls main makes before those of the statements of its part.
pub fn calls_before(main: &Part) -> usize
    ensures { result ≡ calls_before main.now.statements }
{
    if has_begin(main.statements.as_slice()) {
        1
    } else {
        2
    }
}
