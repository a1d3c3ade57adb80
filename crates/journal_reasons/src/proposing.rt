//! What is likely to be allowed in place of an entry, and why that isn't. Nothing here is promised: the judge tries each reply.
use crate::case::{Case, entries_before};
use crate::free_slots::free_handles;
use crate::picks::add_other_picks;
use crate::reasons::reason;
use crate::replay::{Replay, made_kind};
use mtapi_machine::Reply;
use node_journals::Journal;
use std::alloc::{AllocError, Global};

/// Replies that may be allowed in place of an entry's, and in words why its own isn't.
#[derive(Drop)]
pub(crate) struct Proposal {
    pub(crate) replies: Vec<Reply>,
    pub(crate) why: Vec<u8>,
}

/// The proposal for the entry of this number, from 1, where so many lines stand before the entries.
pub(crate) fn proposal_of(
    alloc: Global,
    journal: &Journal,
    number: u64,
    lines: u64,
) -> Result<Proposal, AllocError> {
    let before = entries_before(journal, number);
    match journal.entries.shorts().get(before.len()) {
        Some(short) => proposal_on(&Case {
            alloc,
            journal,
            number,
            lines,
            given: &short.full(),
        }),
        None => Ok(Proposal {
            replies: Vec::new(alloc),
            why: Vec::new(alloc),
        }),
    }
}

fn proposal_on(case: &Case) -> Result<Proposal, AllocError> {
    let replies = likely_replies(case)?;
    let why = reason(case, &replies)?;
    Ok(Proposal {
        replies,
        why: Vec::from_slice(case.alloc, why.as_bytes())?,
    })
}

// What a node answers, and what else it may.
fn likely_replies(case: &Case) -> Result<Vec<Reply>, AllocError> {
    match Replay::new(case.alloc, case.journal)? {
        Some(mut replay) => {
            replay.follow_all(entries_before(case.journal, case.number))?;
            replies_by(case, &mut replay)
        }
        None => Ok(Vec::new(case.alloc)),
    }
}

fn replies_by(case: &Case, replay: &mut Replay) -> Result<Vec<Reply>, AllocError> {
    match replay.answer(case.given) {
        Some(Reply::Handle(handle)) => match made_kind(&case.given.op) {
            Some(kind) => free_handles(case, replay, kind),
            None => one(case, Reply::Handle(handle)),
        },
        Some(reply) => with_others(case, reply),
        None => Ok(Vec::new(case.alloc)),
    }
}

fn one(case: &Case, reply: Reply) -> Result<Vec<Reply>, AllocError> {
    let mut replies = Vec::new(case.alloc);
    replies.push(reply)?;
    Ok(replies)
}

// A worker may have a choice of tasks.
fn with_others(case: &Case, reply: Reply) -> Result<Vec<Reply>, AllocError> {
    let chooses = matches!(reply, Reply::Picked { .. });
    let mut replies = one(case, reply)?;
    if chooses {
        add_other_picks(case, &mut replies)?;
    }
    Ok(replies)
}
