//! What is wrong with the options of a statement.
use crate::hints::{Hint, hint_at, word_hint};
use crate::reading::{Verdict, verdict_on};
use crate::table::{KINDS, row_of, value_text};
use crate::words::{Piece, are_near, nearest};
use std::alloc::{AllocError, Global};
use workload_file::Cause;

/// The key of an option: what stands before `=`.
pub fn key_of(word: &[u8]) -> &[u8] {
    match word.iter().position(|b| *b == b'=') {
        Some(at) => word.get(..at).unwrap_or(word),
        None => word,
    }
}

/// Whether a word is `key=value`.
pub fn has_key(word: &[u8]) -> bool {
    word.contains(&b'=') && !word.starts_with(b"=")
}

/// The options of a statement.
pub fn options_in<'a, 'b>(pieces: &'b [Piece<'a>]) -> &'b [Piece<'a>] {
    match pieces {
        [first, _, rest @ ..] if is_named(first) => rest,
        [_, rest @ ..] => rest,
        [] => pieces,
    }
}

fn is_named(first: &Piece) -> bool {
    match row_of(first.text) {
        Some(row) => row.is_named(),
        None => false,
    }
}

/// Whether the reader refuses a statement with this option alone for this cause.
fn is_refused(
    alloc: Global,
    pieces: &[Piece],
    option: Piece,
    cause: Cause,
) -> Result<bool, AllocError> {
    let mut text = Vec::new(alloc);
    let [first, rest @ ..] = pieces else {
        return Ok(false);
    };
    text.extend_from_slice(first.text)?;
    if is_named(first) && !rest.is_empty() {
        text.extend_from_slice(b" ")?;
        text.extend_from_slice(rest[0].text)?;
    }
    text.extend_from_slice(b" ")?;
    text.extend_from_slice(option.text)?;
    match verdict_on(alloc, &text) {
        Verdict::Faulty(_, found) => Ok(found == cause),
        _ => Ok(false),
    }
}

/// The first option for which the reader refuses a statement so, and the word before it; a queue only where there is no other, since
/// nothing stands in for one.
fn refused_option<'a>(
    alloc: Global,
    pieces: &[Piece<'a>],
    cause: Cause,
) -> Result<(Piece<'a>, Piece<'a>), AllocError> {
    let none = Piece { at: 0, text: &[] };
    let mut before = none;
    let mut found = (none, none);
    for option in options_in(pieces) {
        if is_refused(alloc, pieces, *option, cause)? {
            found = (*option, before);
            if !option.text.starts_with(b"queue=") {
                return Ok(found);
            }
        }
        before = *option;
    }
    Ok(found)
}

/// What a statement takes.
fn usage_of(pieces: &[Piece]) -> &'static [u8] {
    match pieces {
        [first, ..] => match row_of(first.text) {
            Some(row) => row.usage.as_bytes(),
            None => b"",
        },
        [] => b"",
    }
}

/// The key of a statement of which this one is the front, or a letter away.
pub fn key_like(pieces: &[Piece], key: &[u8]) -> Option<&'static [u8]> {
    let option = option_like(pieces, key)?;
    Some(key_of(option))
}

/// Whether a statement must have an option of this key.
pub fn is_required(pieces: &[Piece], key: &[u8]) -> bool {
    usage_of(pieces)
        .split(is_space)
        .any(|word| word.ends_with(b"=") && key_of(word) == key)
}

fn is_space(b: &u8) -> bool {
    *b == b' '
}

/// The first key that a statement must have and doesn't, or nothing.
pub fn missing_key(pieces: &[Piece]) -> &'static [u8] {
    for word in usage_of(pieces).split(is_space) {
        if word.ends_with(b"=") && !pieces.iter().any(|piece| piece.text.starts_with(word)) {
            return key_of(word);
        }
    }
    b""
}

/// The option of a statement of whose key this one is the front, or a letter away.
fn option_like(pieces: &[Piece], key: &[u8]) -> Option<&'static [u8]> {
    let [first, ..] = pieces else {
        return None;
    };
    let row = row_of(first.text)?;
    for word in row.usage.split_whitespace() {
        let word = word.strip_prefix('[').unwrap_or(word);
        let word = word.strip_suffix(']').unwrap_or(word);
        if let Some(name) = word.strip_suffix('=') {
            if name.as_bytes().starts_with(key) || are_near(name.as_bytes(), key) {
                return Some(word.as_bytes());
            }
        }
    }
    None
}

/// What is said of a word that is no option of its statement.
pub fn option_hint(alloc: Global, pieces: &[Piece]) -> Result<Hint, AllocError> {
    let (option, before) = refused_option(alloc, pieces, Cause::UnknownOption)?;
    let word = option.text;
    let usage = usage_of(pieces);
    if word.starts_with(b"#") {
        return word_hint(alloc, option, b": a comment has a line of its own", b"");
    }
    if before.text.ends_with(b",") {
        let rule = b": a space ends a word; a list has commas and no spaces";
        return word_hint(alloc, option, rule, b"");
    }
    if !has_key(word) {
        let rule = b": an option is key=value without spaces: ";
        return word_hint(alloc, option, rule, usage);
    }
    if let Some(meant) = option_like(pieces, key_of(word)) {
        return word_hint(alloc, option, b": perhaps ", meant);
    }
    word_hint(alloc, option, b": not an option of this statement: ", usage)
}

/// What is said of an option that stands twice.
pub fn twice_hint(alloc: Global, pieces: &[Piece]) -> Result<Hint, AllocError> {
    let options = options_in(pieces);
    for (i, option) in options.iter().enumerate() {
        if options[..i]
            .iter()
            .any(|other| key_of(other.text) == key_of(option.text))
        {
            return word_hint(alloc, *option, b": each option once", b"");
        }
    }
    hint_at(alloc, 0, b"", b"", b"")
}

/// What is said of a value that is none of its option.
pub fn value_hint(alloc: Global, pieces: &[Piece]) -> Result<Hint, AllocError> {
    let (option, _) = refused_option(alloc, pieces, Cause::BadValue)?;
    let key = key_of(option.text);
    let value = option
        .text
        .get(key.len().saturating_add(1)..)
        .unwrap_or(&[]);
    if key == b"kind".as_slice() {
        return match nearest(KINDS, value) {
            Some(kind) => word_hint(alloc, option, b": perhaps you mean ", kind.as_bytes()),
            None => word_hint(alloc, option, b": one of ten words: ", KINDS.as_bytes()),
        };
    }
    word_hint(alloc, option, b": ", value_text(key).as_bytes())
}

/// What is said of a line of this length in which an option is missing.
pub fn missing_hint(alloc: Global, long: usize, pieces: &[Piece]) -> Result<Hint, AllocError> {
    let key = missing_key(pieces);
    let said = value_text(key).as_bytes();
    hint_at(alloc, long, key, b"=: has to be there: ", said)
}
