//! Handles as words.
ghost use Rattle.std.specs.Prelude.{◌≡◌, ◌++◌, ◌<◌, OnOk, IfSome};
ghost use Rattle.journal_text.specs.Handles.{kind_letter, kind_numbered, kind_lettered, object_kinds, generation, slot, named_text, handle_text, handle_named, handle_led, handle_of_word};
ghost use Rattle.mtapi_values.specs.Layouts.{object_number, named_kind};

use mtapi_values::{Layout, ObjectKind};
use number_text::{cut_at, number, number_within, push_number};
use std::alloc::{AllocError, Global};

/// Each kind once.
const OBJECT_KINDS: [ObjectKind; 8] = [
    ObjectKind::Action,
    ObjectKind::Task,
    ObjectKind::Group,
    ObjectKind::Queue,
    ObjectKind::Mutex,
    ObjectKind::Sem,
    ObjectKind::Rwl,
    ObjectKind::Shmem,
];

/// The letter of a kind of object, with which its handles begin.
pub fn kind_letter(kind: ObjectKind) -> u8
    ensures { result ≡ kind_letter kind }
{
    match kind {
        ObjectKind::Action => b'a',
        ObjectKind::Task => b't',
        ObjectKind::Group => b'g',
        ObjectKind::Queue => b'q',
        ObjectKind::Mutex => b'm',
        ObjectKind::Sem => b's',
        ObjectKind::Rwl => b'r',
        ObjectKind::Shmem => b'h',
    }
}

fn kind_numbered(number: u64) -> Option<ObjectKind>
    ensures { result ≡ kind_numbered number }
{
    OBJECT_KINDS
        .iter()
        .copied()
        .find(|kind| u64::from(kind.number()) == number)
}

fn kind_lettered(letter: u8) -> Option<ObjectKind>
    ensures { result ≡ kind_lettered letter }
{
    OBJECT_KINDS
        .iter()
        .copied()
        .find(|kind| kind_letter(*kind) == letter)
}

fn push_named(
    alloc: Global,
    out: &mut Vec<u8>,
    kind: Option<ObjectKind>,
    handle: u64,
) -> Result<(), AllocError>
    ensures { OnOk result (out.new.items ≡ out.old.items ++ named_text kind handle) }
{
    match kind {
        None => push_number(alloc, out, handle),
        Some(kind) => {
            out.push(kind_letter(kind))?;
            push_number(alloc, out, handle >> 32)?;
            out.push(b'.')?;
            push_number(alloc, out, handle & 0xFF_FFFF)
        }
    }
}

/// Appends a handle as a word: in text 2 by the letter of its kind, where it names one and has a generation.
#[tactic(auto, unfolding(crate::specs::Handles::handle_text))]
pub fn push_handle(
    alloc: Global,
    out: &mut Vec<u8>,
    layout: Layout,
    handle: u64,
) -> Result<(), AllocError>
    ensures { OnOk result (out.new.items ≡ out.old.items ++ handle_text layout handle) }
{
    match layout {
        Layout::One => push_number(alloc, out, handle),
        Layout::Two => {
            if 0 < handle >> 32 {
                push_named(alloc, out, kind_numbered(handle >> 24 & 255), handle)
            } else {
                push_number(alloc, out, handle)
            }
        }
    }
}

#[tactic(auto, unfolding(crate::specs::Handles::handle_named))]
fn handle_named(kind: ObjectKind, text: &[u8]) -> Option<u64>
    ensures { result ≡ handle_named kind text.now }
{
    let (prefix, back) = cut_at(text, b'.');
    let generation = number_within(0, 4_294_967_295, prefix)?;
    let slot = match back {
        Some(rest) => number_within(0, 0xFF_FFFF, rest),
        None => number_within(0, 0xFF_FFFF, &[]),
    };
    match slot {
        Some(slot) => Some(generation * (1 << 32) + u64::from(kind.number()) * (1 << 24) + slot),
        None => None,
    }
}

/// The handle that a word may be: what is written, and more.
#[tactic(auto, unfolding(crate::specs::Handles::handle_of_word))]
pub fn handle_of(text: &[u8]) -> Option<u64>
    ensures { result ≡ handle_of_word text.now }
{
    match text {
        [] => None,
        [letter, rest @ ..] => match kind_lettered(*letter) {
            Some(kind) => handle_named(kind, rest),
            None => number(text),
        },
    }
}
