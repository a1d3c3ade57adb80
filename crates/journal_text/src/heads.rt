//! The head line of a journal.
ghost use Rattle.std.specs.Prelude.{◌≡◌, ◌≤◌, ◌++◌, ◌∷◌, [], OnOk, IfOk, IfSome};
ghost use Rattle.std.specs.{List.slice_index_or, Fmt.decimal};
ghost use Rattle.number_text.specs.Lists.{led};
ghost use Rattle.journal_text.specs.Heads.{version, setting_text, first_texts, last_texts, head_text, number_behind, numbers_behind, with_setting, settings_from, head_from, has_callers, head_in, or_else, head_of};
ghost use Rattle.journal_text.specs.Found.{GivesRead};

use crate::faults::LineError;
use crate::texts::push_word;
use mtapi_values::{Layout, NodeAttr};
use number_text::{cut_at, number_within, push_number};
use std::alloc::{AllocError, Global};

/// What the head line says: the number of the text, and the terms of the node.
#[derive(Clone, Copy, Drop)]
pub struct Head {
    pub layout: Layout,
    pub settings: NodeAttr,
    pub callers: u32,
}

fn version(layout: Layout) -> &'static [u8]
    ensures { result.now ≡ version layout }
{
    match layout {
        Layout::One => b"1",
        Layout::Two => b"2",
    }
}

fn push_setting(alloc: Global, out: &mut Vec<u8>, key: &[u8], number: u32) -> Result<(), AllocError>
    ensures { OnOk result (out.new.items ≡ out.old.items ++ led 32 (setting_text key.now number ∷ [])) }
{
    out.push(b' ')?;
    out.extend_from_slice(key)?;
    push_number(alloc, out, u64::from(number))
}

fn push_first(alloc: Global, out: &mut Vec<u8>, head: &Head) -> Result<(), AllocError>
    ensures { OnOk result (out.new.items ≡ out.old.items ++ led 32 (first_texts head.now)) }
{
    let s = &head.settings;
    push_setting(alloc, out, b"workers=", s.workers())?;
    push_setting(alloc, out, b"callers=", head.callers)?;
    push_setting(alloc, out, b"tasks=", s.tasks())?;
    push_setting(alloc, out, b"actions=", s.actions())?;
    push_setting(alloc, out, b"groups=", s.groups())
}

fn push_last(alloc: Global, out: &mut Vec<u8>, head: &Head) -> Result<(), AllocError>
    ensures { OnOk result (out.new.items ≡ out.old.items ++ led 32 (last_texts head.now)) }
{
    let s = &head.settings;
    push_setting(alloc, out, b"queues=", s.queues())?;
    push_setting(alloc, out, b"objects=", s.objects())?;
    push_setting(alloc, out, b"priorities=", s.priorities())?;
    push_setting(alloc, out, b"generations=", s.generations())
}

/// Appends the head line.
#[tactic(auto, unfolding(crate::specs::Heads::head_text), using(number_text::proofs::Pieces::joined, number_text::proofs::Pieces::led_append))]
pub fn push_head(alloc: Global, out: &mut Vec<u8>, head: &Head) -> Result<(), AllocError>
    ensures { OnOk result (out.new.items ≡ out.old.items ++ head_text head.now) }
{
    out.extend_from_slice(b"mtapi-journal")?;
    push_word(out, version(head.layout))?;
    push_first(alloc, out, head)?;
    push_last(alloc, out, head)
}

#[tactic(auto, unfolding(crate::specs::Heads::number_behind))]
fn number_behind(word: &[u8]) -> u32
    ensures { result ≡ number_behind word.now }
{
    let (_, behind) = cut_at(word, b'=');
    let number = match behind {
        Some(text) => number_within(0, 4_294_967_295, text),
        None => number_within(0, 4_294_967_295, &[]),
    };
    match number {
        Some(n) => n as u32,
        None => 0,
    }
}

#[tactic(auto, unfolding(crate::specs::Heads::numbers_behind))]
fn numbers_behind(alloc: Global, line: &[u8]) -> Result<Vec<u32>, AllocError>
    ensures { IfOk result (λ ns. ns.items ≡ numbers_behind line.now) }
{
    let mut numbers = Vec::new(alloc);
    let mut left = Some(line);
    'cutting: while let Some(text) = left {
        let (word, rest) = cut_at(text, b' ');
        numbers.push(number_behind(word))?;
        left = rest;
    }
    Ok(numbers)
}

#[tactic(auto, unfolding(crate::specs::Heads::with_setting))]
fn with_setting(settings: NodeAttr, number: u32, value: u32) -> NodeAttr
    ensures { result ≡ with_setting number value settings }
{
    let mut settings = settings;
    let _ = settings.set(number, u64::from(value));
    settings
}

fn at(numbers: &[u32], place: usize) -> u32
    ensures { result ≡ slice_index_or numbers.now place 0 }
{
    match numbers.get(place) {
        Some(n) => *n,
        None => 0,
    }
}

#[tactic(auto, unfolding(crate::specs::Heads::settings_from))]
fn settings_from(numbers: &[u32]) -> NodeAttr
    ensures { result ≡ settings_from numbers.now }
{
    let a = with_setting(NodeAttr::new(), 1, at(numbers, 2));
    let b = with_setting(a, 2, at(numbers, 4));
    let c = with_setting(b, 3, at(numbers, 5));
    let d = with_setting(c, 4, at(numbers, 6));
    let e = with_setting(d, 5, at(numbers, 7));
    let f = with_setting(e, 6, at(numbers, 8));
    let g = with_setting(f, 7, at(numbers, 9));
    with_setting(g, 8, at(numbers, 10))
}

#[tactic(auto, unfolding(crate::specs::Heads::head_from))]
fn head_from(layout: Layout, numbers: &[u32]) -> Head
    ensures { result ≡ head_from layout numbers.now }
{
    Head {
        layout,
        settings: settings_from(numbers),
        callers: at(numbers, 3),
    }
}

/// The head of this layout whose line this is: what the line may be is written again and compared.
#[tactic(auto, unfolding(crate::specs::Heads::head_in))]
fn head_in(alloc: Global, layout: Layout, line: &[u8]) -> Result<Option<Head>, AllocError>
    ensures value { IfOk result (λ h. h ≡ head_in layout line.now) }
    ensures callers { IfOk result (λ h. IfSome h (λ x. x.callers ≤ 9)) }
{
    let numbers = numbers_behind(alloc, line)?;
    let head = head_from(layout, &numbers);
    if head.callers < 1 || 9 < head.callers {
        return Ok(None);
    }
    let mut text = Vec::new(alloc);
    push_head(alloc, &mut text, &head)?;
    if text.as_slice() == line {
        Ok(Some(head))
    } else {
        Ok(None)
    }
}

/// The head whose line this is.
#[tactic(auto, unfolding(crate::specs::Heads::head_of))]
pub fn head_of(alloc: Global, line: &[u8]) -> Result<Head, LineError>
    ensures value { GivesRead (λ h. h) result (head_of line.now) }
    ensures callers { IfOk result (λ h. h.callers ≤ 9) }
{
    if let Some(head) = head_in(alloc, Layout::One, line)? {
        return Ok(head);
    }
    match head_in(alloc, Layout::Two, line)? {
        Some(head) => Ok(head),
        None => Err(LineError::Outside),
    }
}
