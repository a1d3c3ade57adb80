//! The lines of entries.
ghost use Rattle.std.specs.Prelude.{◌≡◌, ◌≤◌, ◌+◌, ◌++◌, ◌∷◌, [], drop, codes, Some, OnOk, IfOk};
ghost use Rattle.std.specs.List.{AllByRecursion};
ghost use Rattle.number_text.specs.Lists.{led, pieces_of, between};
ghost use Rattle.mtapi_machine.specs.Legal.{IsHonest};
ghost use Rattle.journal_text.specs.Lines.{seat_text, op_texts, reply_texts, skipped_texts, entry_texts, entry_text, seat_of, op_from, reply_from, skipped_from, entry_by, entry_from, is_tally_op, is_tally_reply, has_words, is_seated, if_spelled, entry_of_line};
ghost use Rattle.journal_text.specs.{Ops.op_spelled, Replies.reply_spelled, Fits.ValueFits, Fits.PartsFit, Found.GivesRead, Found.left_texts};

use crate::faults::LineError;
use crate::fits::{is_honest, values_fit};
use crate::heads::Head;
use crate::op_words::{OpWord, op_of, op_spelled};
use crate::reply_words::{ReplyWord, reply_of, reply_spelled};
use crate::texts::{next_word, push_word};
use crate::values::{push_values, values_onto};
use mtapi_machine::{Entry, Op, Reply};
use mtapi_values::{Kind, Layout};
use number_text::{number, number_within, push_number};
use std::alloc::{AllocError, Global};

// ---- written

fn push_seat(alloc: Global, out: &mut Vec<u8>, workers: u32, who: u32) -> Result<(), AllocError>
    ensures { OnOk result (out.new.items ≡ out.old.items ++ seat_text workers who) }
{
    if who < workers {
        out.push(b'w')?;
        push_number(alloc, out, u64::from(who))
    } else {
        out.push(b'c')?;
        push_number(alloc, out, u64::from(who - workers))
    }
}

fn push_op(alloc: Global, out: &mut Vec<u8>, layout: Layout, op: &Op) -> Result<(), AllocError>
    ensures text { OnOk result (out.new.items ≡ out.old.items ++ led 32 (op_texts layout op.now)) }
    ensures fits { OnOk result (AllByRecursion ValueFits (op_spelled op.now).1) }
    ensures honest { IsHonest op.now }
{
    is_honest(op);
    let (word, values) = op_spelled(alloc, op)?;
    values_fit(&values);
    push_word(out, word.row().0)?;
    push_values(alloc, out, layout, &values)
}

fn push_reply(
    alloc: Global,
    out: &mut Vec<u8>,
    layout: Layout,
    reply: &Reply,
) -> Result<(), AllocError>
    ensures text { OnOk result (out.new.items ≡ out.old.items ++ led 32 (reply_texts layout reply.now)) }
    ensures fits { OnOk result (AllByRecursion ValueFits (reply_spelled reply.now).1) }
{
    let (word, values) = reply_spelled(alloc, reply)?;
    values_fit(&values);
    push_word(out, word.row().0)?;
    push_values(alloc, out, layout, &values)
}

fn push_skipped(alloc: Global, out: &mut Vec<u8>, skipped: u64) -> Result<(), AllocError>
    ensures { OnOk result (out.new.items ≡ out.old.items ++ led 32 (skipped_texts skipped)) }
{
    if 0 < skipped {
        push_word(out, b"after")?;
        out.push(b' ')?;
        push_number(alloc, out, skipped)
    } else {
        Ok(())
    }
}

#[tactic(auto, using(number_text::proofs::Pieces::led_append))]
fn push_words(
    alloc: Global,
    out: &mut Vec<u8>,
    layout: Layout,
    entry: &Entry,
    skipped: u64,
) -> Result<(), AllocError>
    ensures text { OnOk result (out.new.items ≡ out.old.items ++ led 32 (entry_texts layout entry.now skipped)) }
    ensures parts { OnOk result (PartsFit entry.now skipped) }
{
    push_op(alloc, out, layout, &entry.op)?;
    push_word(out, b"->")?;
    push_reply(alloc, out, layout, &entry.reply)?;
    push_skipped(alloc, out, skipped)
}

/// Appends the line of an entry, without its line feed.
#[tactic(auto, unfolding(crate::specs::Lines::entry_text), using(number_text::proofs::Pieces::joined))]
pub fn push_entry(
    alloc: Global,
    out: &mut Vec<u8>,
    head: &Head,
    entry: &Entry,
    skipped: u64,
) -> Result<(), AllocError>
    ensures text { OnOk result (out.new.items ≡ out.old.items ++ entry_text head.now entry.now skipped) }
    ensures parts { OnOk result (PartsFit entry.now skipped) }
{
    push_seat(alloc, out, head.settings.workers(), entry.who)?;
    push_words(alloc, out, head.layout, entry, skipped)
}

// ---- read

#[tactic(auto, unfolding(crate::specs::Lines::seat_of))]
fn seat_of(head: &Head, word: &[u8]) -> Option<u32>
    ensures { result ≡ seat_of head.now word.now }
{
    match word {
        [] => None,
        [letter, rest @ ..] => {
            let n = number_within(0, 255, rest)? as u32;
            Some(if *letter == b'w' {
                n
            } else {
                head.settings.workers() + n
            })
        }
    }
}

#[tactic(auto, unfolding(crate::specs::Lines::op_from))]
fn op_from(alloc: Global, left: Option<&[u8]>) -> Result<(Op, Option<&[u8]>), LineError>
    ensures { GivesRead (λ x. (x.0, pieces_of 32 x.1)) result (op_from (pieces_of 32 left.entry)) }
{
    let Some((text, left)) = next_word(left) else {
        return Err(LineError::Outside);
    };
    let Some(word) = OpWord::of(text) else {
        return Err(LineError::Outside);
    };
    let (values, left) = values_onto(Vec::new(alloc), word.row().1, left)?;
    match op_of(word, &values) {
        Some(op) => Ok((op, left)),
        None => Err(LineError::Outside),
    }
}

#[tactic(auto, unfolding(crate::specs::Lines::reply_from))]
fn reply_from(alloc: Global, left: Option<&[u8]>) -> Result<(Reply, Option<&[u8]>), LineError>
    ensures { GivesRead (λ x. (x.0, pieces_of 32 x.1)) result (reply_from (pieces_of 32 left.entry)) }
{
    let Some((text, left)) = next_word(left) else {
        return Err(LineError::Outside);
    };
    let Some(word) = ReplyWord::of(text) else {
        return Err(LineError::Outside);
    };
    let (values, left) = values_onto(Vec::new(alloc), word.row().1, left)?;
    match reply_of(word, &values) {
        Some(reply) => Ok((reply, left)),
        None => Err(LineError::Outside),
    }
}

#[tactic(auto, unfolding(crate::specs::Lines::skipped_from))]
fn skipped_from(left: Option<&[u8]>) -> Option<u64>
    ensures { result ≡ skipped_from (pieces_of 32 left.entry) }
{
    let Some((_, left)) = next_word(left) else {
        return Some(0);
    };
    number(next_word(left)?.0)
}

fn without_word(left: Option<&[u8]>) -> Option<&[u8]>
    ensures { pieces_of 32 result ≡ drop 1 (pieces_of 32 left.entry) }
{
    next_word(left)?.1
}

#[tactic(auto, unfolding(crate::specs::Lines::entry_by))]
fn entry_by(alloc: Global, who: u32, left: Option<&[u8]>) -> Result<(Entry, u64), LineError>
    ensures { GivesRead (λ x. x) result (entry_by who (pieces_of 32 left.entry)) }
{
    let (op, left) = op_from(alloc, left)?;
    let (reply, left) = reply_from(alloc, without_word(left))?;
    match skipped_from(left) {
        Some(skipped) => Ok((Entry { who, op, reply }, skipped)),
        None => Err(LineError::Outside),
    }
}

/// The entry that a line may be, and the number beside it: what is written, and more.
#[tactic(auto, unfolding(crate::specs::Lines::entry_from))]
fn entry_from(alloc: Global, head: &Head, line: &[u8]) -> Result<(Entry, u64), LineError>
    ensures { GivesRead (λ x. x) result (entry_from head.now (between 32 line.now)) }
{
    let Some((seat, left)) = next_word(Some(line)) else {
        return Err(LineError::Outside);
    };
    match seat_of(head, seat) {
        Some(who) => entry_by(alloc, who, left),
        None => Err(LineError::Outside),
    }
}

fn is_tally_op(op: &Op) -> bool
    ensures { result ≡ is_tally_op op.now }
{
    match op {
        Op::TallyLock { .. } | Op::TallyRead { .. } | Op::TallyWrite { .. } | Op::TallyEnd { .. } =>
            true,
        Op::ActionCreate {
            kind: Kind::Tally,
            ..
        } => true,
        _ => false,
    }
}

fn is_tally_reply(reply: &Reply) -> bool
    ensures { result ≡ is_tally_reply reply.now }
{
    match reply {
        Reply::Picked {
            kind: Kind::Tally,
            ..
        } => true,
        _ => false,
    }
}

fn has_words(layout: Layout, entry: &Entry) -> bool
    ensures { result ≡ has_words layout entry.now }
{
    match layout {
        Layout::One => !is_tally_op(&entry.op) && !is_tally_reply(&entry.reply),
        Layout::Two => true,
    }
}

fn is_seated(head: &Head, entry: &Entry) -> bool
    requires { head.now.callers ≤ 9 }
    ensures { result ≡ is_seated head.now entry.now }
{
    entry.who < head.settings.workers() + head.callers
}

/// The entry whose line this is, and the number beside it: what the line may be is written again and compared.
#[tactic(auto, unfolding(crate::specs::Lines::entry_of_line))]
pub fn entry_of(alloc: Global, head: &Head, line: &[u8]) -> Result<(Entry, u64), LineError>
    requires { head.now.callers ≤ 9 }
    ensures { GivesRead (λ x. x) result (entry_of_line head.now line.now) }
{
    let (entry, skipped) = entry_from(alloc, head, line)?;
    if !has_words(head.layout, &entry) || !is_seated(head, &entry) {
        return Err(LineError::Outside);
    }
    let mut text = Vec::new(alloc);
    push_entry(alloc, &mut text, head, &entry, skipped)?;
    if text.as_slice() == line {
        Ok((entry, skipped))
    } else {
        Err(LineError::Outside)
    }
}
