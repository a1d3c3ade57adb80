//! What the program is asked for.

use number_text::number;
use std::alloc::AllocError;
use std::env;
use std::io::ErrorKind;

/// What is written beside the page, and which status counts.
#[derive(Clone, Copy, Drop, PartialEq, Eq)]
pub enum Mode {
    Page,
    One,
    Journals,
}

/// What is asked for.
#[derive(Clone, Copy, Drop)]
pub struct Request {
    /// The most states that are followed.
    pub most: usize,
    pub mode: Mode,
}

/// The states that are followed where no number is given.
const MOST: usize = 1_000_000;

/// The words behind the program's name. Where one isn't UTF-8 there is a word that no request has.
fn words_of(rt: &HostRuntime) -> Result<Vec<String>, AllocError> {
    let mut words = Vec::new(rt.alloc());
    match env::args(rt) {
        Ok(all) => {
            for word in all.skip(1) {
                words.push(word)?;
            }
        }
        Err(error) => {
            if error.kind() == ErrorKind::OutOfMemory {
                return Err(AllocError);
            }
            words.push(String::new(rt.alloc()))?;
        }
    }
    Ok(words)
}

/// A bound on states: 1 to 100,000,000, in decimal digits without a leading zero.
fn states_of(word: &str) -> Option<usize> {
    let most = number(word.as_bytes())?;
    if most >= 1 && most <= 100_000_000 {
        Some(most as usize)
    } else {
        None
    }
}

/// The mode that a word names.
fn mode_of(word: &str) -> Option<Mode> {
    match word {
        "--one" => Some(Mode::One),
        "--journals" => Some(Mode::Journals),
        _ => None,
    }
}

/// The request that these words make: an option, then a number of states.
fn request_of(words: &[String]) -> Option<Request> {
    let (mode, rest) = match words {
        [first, rest @ ..] => match mode_of(first.as_str()) {
            Some(mode) => (mode, rest),
            None => (Mode::Page, words),
        },
        [] => (Mode::Page, words),
    };
    match rest {
        [] => Some(Request { most: MOST, mode }),
        [word] => Some(Request {
            most: states_of(word.as_str())?,
            mode,
        }),
        _ => None,
    }
}

/// What the words of the command line ask for; none where they are none of the program's.
pub fn asked(rt: &HostRuntime) -> Result<Option<Request>, AllocError> {
    let words = words_of(rt)?;
    Ok(request_of(&words))
}
