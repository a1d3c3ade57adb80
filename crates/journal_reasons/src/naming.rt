//! Names that somebody gave to objects, in the words of a reason. Nothing here is promised.
use journal_reading::OwnNames;
use std::alloc::{AllocError, Global};
use std::str::from_utf8;

// A word, and the sign behind it.
fn word_and_sign(word: &str) -> (&str, &'static str) {
    if let Some(front) = word.strip_suffix(",") {
        return (front, ",");
    }
    if let Some(front) = word.strip_suffix(":") {
        return (front, ":");
    }
    (word, "")
}

// Appends a word, and behind a handle the name that its object was given.
fn push_word(
    alloc: Global,
    named: &mut String,
    names: &OwnNames,
    word: &str,
) -> Result<(), AllocError> {
    let (front, sign) = word_and_sign(word);
    named.push_str(front)?;
    let handle = String::from_str(alloc, front)?;
    if let Some(name) = names.name_of(&handle) {
        named.push_str(" (")?;
        named.push_str(name)?;
        named.push_str(")")?;
    }
    named.push_str(sign)
}

fn names_in(alloc: Global, front: &[u8], given: &[u8]) -> Result<OwnNames, AllocError> {
    let mut all = Vec::from_slice(alloc, front)?;
    all.push(b'\n')?;
    all.extend_from_slice(given)?;
    OwnNames::before_journal(alloc, &all)
}

/// The words with each object's name behind its handle: of the comments before the journal, or of those that were given, which count
/// where both name it.
pub(crate) fn with_names(
    alloc: Global,
    front: &[u8],
    given: &[u8],
    words: Vec<u8>,
) -> Result<Vec<u8>, AllocError> {
    let names = names_in(alloc, front, given)?;
    let Ok(text) = from_utf8(&words) else {
        return Ok(words);
    };
    let mut named = String::new(alloc);
    for word in text.split(' ') {
        if !named.is_empty() {
            named.push_str(" ")?;
        }
        push_word(alloc, &mut named, &names, word)?;
    }
    Ok(named.into_bytes())
}
