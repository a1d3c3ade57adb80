//! What is wrong in a faulty line, and what is allowed there.
use crate::bindings::binding_before;
use crate::bytes::byte_hint;
use crate::options::{missing_hint, option_hint, twice_hint, value_hint};
use crate::table::row_of;
use crate::words::{Piece, first_two, line_of, pieces_of};
use number_text::push_number;
use std::alloc::{AllocError, Global};
use workload_file::Cause;

/// A place in a line, from 0, and what is said of it.
#[derive(Drop)]
pub struct Hint {
    pub at: usize,
    pub text: Vec<u8>,
}

/// The hint that three texts are, one behind the other.
pub fn hint_at(
    alloc: Global,
    at: usize,
    word: &[u8],
    text: &[u8],
    more: &[u8],
) -> Result<Hint, AllocError> {
    let mut out = Vec::new(alloc);
    out.extend_from_slice(word)?;
    out.extend_from_slice(text)?;
    out.extend_from_slice(more)?;
    Ok(Hint { at, text: out })
}

/// The hint at a word: the word, and two texts behind it.
pub fn word_hint(alloc: Global, word: Piece, text: &[u8], more: &[u8]) -> Result<Hint, AllocError> {
    hint_at(alloc, word.at, word.text, text, more)
}

/// The hint with a line's number behind it.
fn with_line(alloc: Global, hint: Hint, front: &[u8], line: u64) -> Result<Hint, AllocError> {
    let mut hint = hint;
    hint.text.extend_from_slice(front)?;
    push_number(alloc, &mut hint.text, line)?;
    Ok(hint)
}

fn statement_hint(alloc: Global, word: Piece) -> Result<Hint, AllocError> {
    match row_of(word.text) {
        Some(row) => {
            let meant = row.word().as_bytes();
            word_hint(alloc, word, b": perhaps you mean ", meant)
        }
        None => word_hint(alloc, word, b": no statement begins with this word", b""),
    }
}

fn misplaced_hint(alloc: Global, word: Piece) -> Result<Hint, AllocError> {
    if word.text == b"node".as_slice() {
        return word_hint(alloc, word, b": only as the first statement", b"");
    }
    let rule = b": once, and before the first caller line";
    word_hint(alloc, word, rule, b"")
}

fn name_hint(alloc: Global, name: Piece) -> Result<Hint, AllocError> {
    let front: &[u8] = if name.text.is_empty() {
        b"no name: "
    } else {
        b": "
    };
    let rule = b"a name is a letter a to z and up to 15 more of a to z, 0 to 9 and _";
    word_hint(alloc, name, front, rule)
}

/// What is said of a name that is taken.
fn taken_hint(alloc: Global, text: &[u8], number: u64) -> Result<Hint, AllocError> {
    let (first, name) = first_two(line_of(text, number));
    if first.text == b"caller".as_slice() {
        let rule = b": each part has a name of its own, and the first is main";
        return word_hint(alloc, name, rule, b"");
    }
    match binding_before(text, number, name.text, false) {
        Some(binding) => {
            let hint = word_hint(alloc, name, b"", b"")?;
            with_line(alloc, hint, b": bound on line ", binding.line)
        }
        None => word_hint(alloc, name, b": bound before", b""),
    }
}

/// The word of a line that names something unknown, and the name in it: the value of `group` or `queue` that isn't bound to such a
/// thing, or else the second word.
fn unknown_name<'a>(text: &[u8], number: u64, pieces: &[Piece<'a>]) -> Piece<'a> {
    for key in [b"group=".as_slice(), b"queue="] {
        for piece in pieces {
            if let Some(name) = piece.text.strip_prefix(key) {
                let is_bound = match binding_before(text, number, name, false) {
                    Some(binding) => key.starts_with(binding.binds.as_bytes()),
                    None => false,
                };
                if !is_bound {
                    return Piece {
                        at: piece.at,
                        text: name,
                    };
                }
            }
        }
    }
    match pieces {
        [_, name, ..] => *name,
        _ => Piece { at: 0, text: &[] },
    }
}

/// What is said of a name that isn't bound.
fn unknown_hint(
    alloc: Global,
    text: &[u8],
    number: u64,
    pieces: &[Piece],
) -> Result<Hint, AllocError> {
    let name = unknown_name(text, number, pieces);
    if let Some(binding) = binding_before(text, number, name.text, false) {
        let binds = binding.binds.as_bytes();
        let rule = b": the name of another kind of object: ";
        let hint = word_hint(alloc, name, rule, binds)?;
        return with_line(alloc, hint, b", bound on line ", binding.line);
    }
    if let Some(binding) = binding_before(text, number, name.text, true) {
        let hint = word_hint(alloc, name, b": perhaps you mean ", binding.name)?;
        return with_line(alloc, hint, b", bound on line ", binding.line);
    }
    let rule = b": no line before in this caller's part binds it";
    word_hint(alloc, name, rule, b"")
}

/// What is said of a line that has this cause, where the line itself, and others before it, may be mended by now.
pub fn hint_of(
    alloc: Global,
    original: &[u8],
    text: &[u8],
    number: u64,
    cause: Cause,
) -> Result<Hint, AllocError> {
    let whole = line_of(original, number);
    let mended = line_of(text, number);
    // Only a line that is too long has more.
    let line = &whole[..whole.len().min(512)];
    let pieces = pieces_of(alloc, &mended[..mended.len().min(512)])?;
    let (first, second) = first_two(line);
    match cause {
        Cause::LineTooLong => hint_at(alloc, 512, b"512 bytes are allowed", b"", b""),
        Cause::BadByte => byte_hint(alloc, line),
        Cause::UnknownWord => statement_hint(alloc, first),
        Cause::TooManyStatements => {
            let rule = b": 20,000 are allowed; the rest isn't looked at";
            word_hint(alloc, first, rule, b"")
        }
        Cause::TooManyCallers => {
            let rule = b": 8 are allowed; the rest isn't looked at";
            word_hint(alloc, first, rule, b"")
        }
        Cause::Misplaced => misplaced_hint(alloc, first),
        Cause::BadName => name_hint(alloc, second),
        Cause::UnknownOption => option_hint(alloc, &pieces),
        Cause::OptionTwice => twice_hint(alloc, &pieces),
        Cause::BadValue => value_hint(alloc, &pieces),
        Cause::OptionMissing => missing_hint(alloc, line.len(), &pieces),
        Cause::NameTaken => taken_hint(alloc, original, number),
        Cause::NameUnknown => unknown_hint(alloc, original, number, &pieces),
    }
}
