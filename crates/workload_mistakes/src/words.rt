//! The words of a line, and words that are one letter away.
ghost use Rattle.std.specs.Prelude.{◌≤◌, length};

use std::alloc::{AllocError, Global};

/// A word, and where it begins in its line.
#[derive(Clone, Copy, Drop)]
pub struct Piece<'a> {
    pub at: usize,
    pub text: &'a [u8],
}

fn is_word_byte(b: u8) -> bool {
    33 <= b && b <= 126
}

/// The first word of a line from a place on. Bytes that no line may have separate words too.
pub fn next_piece(line: &[u8], from: usize) -> Option<Piece<'_>> {
    let mut begun = None;
    for (i, b) in line.iter().enumerate() {
        if from <= i {
            match begun {
                None if is_word_byte(*b) => begun = Some(i),
                Some(at) if !is_word_byte(*b) && at <= i => {
                    return Some(Piece {
                        at,
                        text: &line[at..i],
                    });
                }
                _ => {}
            }
        }
    }
    let at = begun?;
    let text = line.get(at..)?;
    Some(Piece { at, text })
}

/// The first two words of a line.
pub fn first_two(line: &[u8]) -> (Piece<'_>, Piece<'_>) {
    let none = Piece {
        at: line.len(),
        text: &[],
    };
    let Some(first) = next_piece(line, 0) else {
        return (none, none);
    };
    match next_piece(line, first.at.saturating_add(first.text.len())) {
        Some(second) => (first, second),
        None => (first, none),
    }
}

/// The words of a line.
pub fn pieces_of<'a>(alloc: Global, line: &'a [u8]) -> Result<Vec<Piece<'a>>, AllocError> {
    let mut pieces = Vec::new(alloc);
    let mut at = 0;
    for _ in 0..line.len() {
        match next_piece(line, at) {
            Some(piece) => {
                at = piece.at.saturating_add(piece.text.len());
                pieces.push(piece)?;
            }
            None => return Ok(pieces),
        }
    }
    Ok(pieces)
}

/// How many bytes two texts have in common at their fronts.
fn common_front(a: &[u8], b: &[u8]) -> usize
    ensures { (result ≤ length a.now) × (result ≤ length b.now) }
{
    let most = a.len().min(b.len());
    for i in 0..most {
        if a[i] != b[i] {
            return i;
        }
    }
    most
}

/// How many bytes two texts have in common at their backs.
fn common_back(a: &[u8], b: &[u8]) -> usize
    ensures { (result ≤ length a.now) × (result ≤ length b.now) }
{
    let most = a.len().min(b.len());
    for i in 0..most {
        if a[a.len() - 1 - i] != b[b.len() - 1 - i] {
            return i;
        }
    }
    most
}

/// Whether two words of two letters at least differ by one letter, by two neighbours that change places, or by capitals.
pub fn are_near(a: &[u8], b: &[u8]) -> bool {
    if a.len() < 2 || b.len() < 2 {
        return false;
    }
    if a.eq_ignore_ascii_case(b) {
        return true;
    }
    let front = common_front(a, b);
    let (a, b) = (&a[front..], &b[front..]);
    let back = common_back(a, b);
    match (&a[..a.len() - back], &b[..b.len() - back]) {
        ([x, y], [z, w]) => *x == *w && *y == *z,
        ([_], [_] | []) | ([], [_]) => true,
        _ => false,
    }
}

/// The first of these words, separated by spaces, that is one letter away.
pub fn nearest(words: &'static str, text: &[u8]) -> Option<&'static str> {
    for word in words.split(' ') {
        if are_near(word.as_bytes(), text) {
            return Some(word);
        }
    }
    None
}

/// Whether a byte ends a line.
pub fn is_line_feed(b: &u8) -> bool {
    *b == b'\n'
}

/// The line of this number, from 1, or an empty one.
pub fn line_of(text: &[u8], number: u64) -> &[u8] {
    let mut at = 1u64;
    for line in text.split(is_line_feed) {
        if at == number {
            return line;
        }
        at = number.min(at.saturating_add(1));
    }
    &[]
}
