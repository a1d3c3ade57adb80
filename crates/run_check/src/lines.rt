//! The lines of one seat.
ghost use Rattle.std.specs.Prelude.{◌≡◌, ◌++◌, ◌∷◌, [], ◌==◌, OnOk, IfOk, length, if◌then◌else◌};
ghost use Rattle.workload_runs.specs.Lines.{line_with, lines_of};

use mtapi_machine::{Entry, Op, Reply};
use std::alloc::{AllocError, Global};
use std::marker::Model;

/// An entry of one seat, and the number beside it.
#[derive(Drop)]
pub struct Line {
    op: Op,
    reply: Reply,
    beside: u64,
}

impl Model for Line {
    ghost use Rattle.workload_runs.specs.Lines.{Line, line_with};

    ghost Value = { Line };

    ghost view = { λ l. line_with l.op l.reply l.beside };
}

impl Line {
    /// What the seat asked.
    pub fn op(&self) -> &Op
        ensures { result.now ≡ self.now.op }
    {
        &self.op
    }

    /// What it was answered.
    pub fn reply(&self) -> &Reply
        ensures { result.now ≡ self.now.reply }
    {
        &self.reply
    }

    /// The number beside it.
    pub fn beside(&self) -> u64
        ensures { result ≡ self.now.beside }
    {
        self.beside
    }
}

// The line of an entry, where it is one of this seat.
fn push_if_own(
    lines: &mut Vec<Line>,
    who: u32,
    entry: &Entry,
    beside: u64,
) -> Result<(), AllocError>
    ensures { OnOk result (lines.new.items ≡ lines.old.items ++ (if entry.now.who == who then line_with entry.now.op entry.now.reply beside ∷ [] else [])) }
{
    if entry.who == who {
        lines.push(Line {
            op: entry.op.again(),
            reply: entry.reply.again(),
            beside,
        })?;
    }
    Ok(())
}

/// The lines of a seat, in the order of the entries, each with the number that stands beside it.
pub fn lines_of(
    alloc: Global,
    who: u32,
    entries: &[Entry],
    skipped: &[u64],
) -> Result<Vec<Line>, AllocError>
    requires beside { length skipped.now ≡ length entries.now }
    ensures { IfOk result (λ lines. lines.items ≡ lines_of who entries.now skipped.now) }
{
    let mut lines = Vec::new(alloc);
    for i in 0..entries.len() {
        push_if_own(&mut lines, who, &entries[i], skipped[i])?;
    }
    Ok(lines)
}
