//! A journal is judged by itself.
ghost use Rattle.std.specs.Prelude.{IfOk};
ghost use Rattle.workload_file.specs.Formed.{WellFormed};
ghost use Rattle.journal_reasons.specs.Judged.{IsJudgement};

use crate::instead::{allowed_among, first_illegal};
use crate::naming::with_names;
use crate::proposing::{Proposal, proposal_of};
use journal_text::InputPart;
use mtapi_machine::Entry;
use mtapi_machine::laws::law_prefix;
use node_journals::Journal;
use std::alloc::{AllocError, Global};
use workload_file::{Workload, read_workload};

/// What a journal is found to be.
#[derive(Drop)]
pub enum Judgement {
    /// A legal history of the one-thread machine, by the journal's own settings and callers.
    Legal,
    /// None, by this entry.
    Illegal {
        /// The number of the first entry that isn't allowed, from 1.
        entry: u64,
        /// Entries of the same call that are allowed in its place; where the reply is a choice, not each that is.
        instead: Vec<Entry>,
        /// Why, in words. No proof speaks of them.
        why: Vec<u8>,
    },
}

// Some workload: that of no text. Whether a journal is legal, no workload bears on.
fn some_workload(alloc: Global) -> Result<Workload, AllocError>
    ensures { IfOk result WellFormed }
{
    match read_workload(alloc, &mut InputPart { left: b"" }) {
        Ok(load) => Ok(load),
        Err(_) => Err(AllocError),
    }
}

/// Judges a journal by itself, whose entries stand behind so many lines of an input. The comments of `front` and of `names` that name
/// objects are those of a picture: a name stands behind its handle in the reason. It fails for want of memory alone.
#[tactic(auto, using(crate::proofs::Judgements::judged_legal))]
pub fn judge(
    alloc: Global,
    journal: &Journal,
    lines: u64,
    front: &[u8],
    names: &[u8],
) -> Result<Judgement, AllocError>
    ensures judged { IfOk result (λ judgement. IsJudgement journal.now judgement) }
{
    law_prefix();
    let load = some_workload(alloc)?;
    let Some(entry) = first_illegal(alloc, &load, journal)? else {
        return Ok(Judgement::Legal);
    };
    let Proposal { replies, why } = proposal_of(alloc, journal, entry, lines)?;
    let instead = allowed_among(alloc, &load, journal, entry, &replies)?;
    let named = with_names(alloc, front, names, why)?;
    Ok(Judgement::Illegal {
        entry,
        instead,
        why: named,
    })
}
