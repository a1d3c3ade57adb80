//! Which line before a faulty one binds a name.
use crate::table::row_of;
use crate::words::{are_near, first_two, is_line_feed};

/// A line that binds a name, and to what.
#[derive(Clone, Copy, Drop)]
pub struct Binding<'a> {
    pub line: u64,
    pub binds: &'static str,
    pub name: &'a [u8],
}

/// What a line with these first words binds.
fn binding_of<'a>(line: u64, word: &[u8], name: &'a [u8]) -> Option<Binding<'a>> {
    match row_of(word) {
        Some(row) if row.is_binder() => Some(Binding {
            line,
            binds: row.binds,
            name,
        }),
        _ => None,
    }
}

/// The line that binds the name in the part that a line belongs to, before it; or, where near ones are wanted, one that is a letter
/// away.
pub fn binding_before<'a>(
    text: &'a [u8],
    number: u64,
    name: &[u8],
    near: bool,
) -> Option<Binding<'a>> {
    let mut found = None;
    let mut line = 1u64;
    for bytes in text.split(is_line_feed) {
        if number <= line {
            return found;
        }
        let (first, second) = first_two(bytes);
        let fits = if near {
            are_near(second.text, name)
        } else {
            second.text == name
        };
        if are_near(first.text, b"caller") {
            found = None;
        } else if fits && found.is_none() {
            found = binding_of(line, first.text, second.text);
        }
        line = number.min(line.saturating_add(1));
    }
    found
}
