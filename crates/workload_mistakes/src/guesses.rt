//! What is read in place of a faulty line.
use crate::mending::usual_text;
use crate::mistakes::{Meant, Mend, Part};
use crate::options::{has_key, is_required, key_like, key_of, missing_key, options_in};
use crate::table::row_of;
use crate::words::{Piece, first_two, is_line_feed, line_of, pieces_of};
use std::alloc::{AllocError, Global};
use workload_file::{Cause, Name};

const NO_PART: Part = Part { from: 0, long: 0 };
/// No line at all.
pub const NOTHING: Mend = Mend::Line(Meant::Nothing, NO_PART);

/// The longest line that is read.
const LONGEST: u64 = 512;

fn part_of(from: usize, end: usize) -> Part {
    Part {
        from: from as u64,
        long: end.saturating_sub(from) as u64,
    }
}

/// The line that binds the name of this one, where that is a name that isn't taken.
fn whole_line(original: &[u8], number: u64, cause: Cause) -> Mend {
    let (first, second) = first_two(line_of(original, number));
    let Some(row) = row_of(first.text) else {
        return NOTHING;
    };
    let meant = row.meant();
    match (meant, cause) {
        (Meant::Nothing, _) | (_, Cause::Misplaced | Cause::NameTaken) => NOTHING,
        (Meant::Node | Meant::Begin, _) => Mend::Line(meant, NO_PART),
        _ if Name::new(second.text).is_some() => Mend::Line(
            meant,
            part_of(second.at, end_of(second)),
        ),
        _ => NOTHING,
    }
}

fn end_of(piece: Piece) -> usize {
    piece.at.saturating_add(piece.text.len())
}

/// Whether a name stands as the second word of some line.
fn is_used(text: &[u8], name: &[u8]) -> bool {
    text.split(is_line_feed)
        .any(|line| first_two(line).1.text == name)
}

/// The part of the usual text that is a name of so many letters, or as many as a name has, that no line has yet.
fn free_name(text: &[u8], long: usize) -> Option<Part> {
    let usual = usual_text();
    let long = long.min(16);
    for from in usual.len().saturating_sub(41)..usual.len().saturating_sub(15) {
        match usual.get(from..from.saturating_add(long)) {
            Some(name) if !name.is_empty() && !is_used(text, name) => return Some(part_of(
                from,
                from.saturating_add(long),
            )),
            _ => {}
        }
    }
    None
}

/// The part of the usual text that is an option of this key, and the space before it.
fn usual_option(alloc: Global, key: &[u8]) -> Result<Option<Part>, AllocError> {
    for word in &pieces_of(alloc, usual_text())? {
        if word.text.contains(&b'=') && key_of(word.text) == key {
            return Ok(Some(part_of(word.at.saturating_sub(1), end_of(*word))));
        }
    }
    Ok(None)
}

/// The words that are wrong with the one at a place: those of its list, and behind it those without a key, or behind `#` all of the
/// line, which has this length.
fn wrong_part(options: &[Piece], at: usize, long: usize) -> Part {
    let mut list = None;
    let mut end = None;
    for piece in options {
        if piece.at < at {
            list = if piece.text.ends_with(b",") {
                list.or(Some(piece.at))
            } else {
                None
            };
        } else if end.is_none() && piece.text.starts_with(b"#") {
            return part_of(list.unwrap_or(at), long);
        } else if end.is_none() || !has_key(piece.text) {
            end = Some(end_of(*piece));
        } else {
            break;
        }
    }
    part_of(list.unwrap_or(at), end.unwrap_or(at))
}

/// The key of the option that stands at a place, or that seems to.
fn key_at(pieces: &[Piece], from: u64) -> &'static [u8] {
    for piece in pieces {
        if piece.at as u64 == from {
            return key_like(pieces, key_of(piece.text)).unwrap_or(b"");
        }
    }
    b""
}

/// Whether an option of this key stands at another place of the line, and in no comment.
fn stands_elsewhere(pieces: &[Piece], key: &[u8], from: u64) -> bool {
    for piece in pieces {
        if piece.text.starts_with(b"#") {
            return false;
        }
        if piece.at as u64 != from && has_key(piece.text) && key_of(piece.text) == key {
            return true;
        }
    }
    false
}

/// The line without a part, and with an option of this key at its end.
fn with_usual(
    alloc: Global,
    word: Part,
    key: &[u8],
    long: usize,
) -> Result<Option<Mend>, AllocError> {
    let end = long as u64;
    match usual_option(alloc, key)? {
        Some(usual) if end.saturating_add(usual.long) <= LONGEST => Ok(Some(Mend::Word(
            word, end, usual,
        ))),
        _ => Ok(None),
    }
}

/// The line without a part, and with an option in its place where the statement must have it.
fn without(
    alloc: Global,
    pieces: &[Piece],
    word: Part,
    long: usize,
) -> Result<Option<Mend>, AllocError> {
    let key = key_at(pieces, word.from);
    if is_required(pieces, key) && !stands_elsewhere(pieces, key, word.from) {
        return with_usual(alloc, word, key, long);
    }
    Ok(Some(Mend::Word(word, 0, NO_PART)))
}

/// The line with a name that no line has in place of its own.
fn renamed(text: &[u8], name: Piece) -> Option<Mend> {
    if has_key(name.text) {
        return None;
    }
    let usual = free_name(text, name.text.len())?;
    let word = part_of(name.at, end_of(name));
    Some(Mend::Word(word, word.from, usual))
}

/// The name of a caller without its front, if the rest is a name: so a second caller of this name is told too.
fn shortened(first: Piece, name: Piece) -> Option<Mend> {
    if first.text != b"caller".as_slice() {
        return None;
    }
    for i in 1..name.text.len() {
        if Name::new(&name.text[i..]).is_some() {
            let front = part_of(name.at, name.at.saturating_add(i));
            return Some(Mend::Word(front, 0, NO_PART));
        }
    }
    None
}

/// Whether a line binds its second word, or names a part by it.
fn binds(first: Piece) -> bool {
    match row_of(first.text) {
        Some(row) => !matches!(row.meant(), Meant::Nothing | Meant::Node | Meant::Begin),
        None => false,
    }
}

/// What is read in place of a line, as it stands, that is wrong for this cause at this place.
pub fn mend_of(
    alloc: Global,
    original: &[u8],
    text: &[u8],
    number: u64,
    cause: Cause,
    at: usize,
) -> Result<Mend, AllocError> {
    let line = line_of(text, number);
    let long = line.len();
    let pieces = pieces_of(alloc, &line[..long.min(512)])?;
    let options = options_in(&pieces);
    let (first, second) = first_two(line);
    let word = match cause {
        Cause::BadName if binds(first) => shortened(first, second).or(renamed(text, second)),
        Cause::NameTaken if binds(first) => renamed(text, second),
        Cause::UnknownOption => {
            let end = line_of(original, number).len();
            without(alloc, &pieces, wrong_part(options, at, end), long)?
        }
        Cause::OptionTwice => piece_at(options, at).map(|part| Mend::Word(part, 0, NO_PART)),
        Cause::BadValue => match piece_at(options, at) {
            Some(part) => without(alloc, &pieces, part, long)?,
            None => None,
        },
        Cause::OptionMissing => with_usual(alloc, NO_PART, missing_key(&pieces), long)?,
        Cause::NameUnknown => group_at(options, at),
        _ => None,
    };
    Ok(word.unwrap_or(whole_line(original, number, cause)))
}

/// The option that stands at a place.
fn piece_at(options: &[Piece], at: usize) -> Option<Part> {
    let piece = options.iter().find(|piece| piece.at == at)?;
    Some(part_of(at, end_of(*piece)))
}

/// The line without the group that stands at a place.
fn group_at(options: &[Piece], at: usize) -> Option<Mend> {
    let piece = options.iter().find(|piece| piece.at == at)?;
    if piece.text.starts_with(b"group=") {
        return Some(Mend::Word(part_of(at, end_of(*piece)), 0, NO_PART));
    }
    None
}
