//! Names that somebody gave to the objects of a run, in comments before its journal. It is safe code.

use std::alloc::{AllocError, Global};
use std::collections::BTreeMap;
use std::str::from_utf8;

/// How many letters a name has at most.
const MOST_LETTERS: usize = 15;

/// Names of objects, by their handles as journals of text two have these.
#[derive(Drop)]
pub struct OwnNames {
    names: BTreeMap<String, String>,
}

/// Whether this may be a name: printable letters of ASCII and spaces, but none that a picture can't show as it is.
fn is_name(text: &str) -> bool {
    let few = !text.is_empty() && text.len() <= MOST_LETTERS;
    few && text.bytes().all(|b| (b' '..=b'~').contains(&b)
        && !matches!(b, b'<' | b'>' | b'&' | b'"'))
}

/// The handle and the name in a line `# HANDLE NAME`.
fn named_in(line: &str) -> Option<(&str, &str)> {
    let (handle, name) = line.strip_prefix("# ")?.split_once(' ')?;
    if handle.contains('.') && is_name(name) {
        Some((handle, name))
    } else {
        None
    }
}

impl OwnNames {
    /// The names in what stands before a journal, one in each line `# HANDLE NAME`. If a handle has two, the later one counts.
    ///
    /// # Errors
    ///
    /// - `AllocError`: memory ran out.
    pub fn before_journal(alloc: Global, front: &[u8]) -> Result<OwnNames, AllocError> {
        let mut names = BTreeMap::new(alloc);
        let text = from_utf8(front).unwrap_or("");
        for line in text.lines() {
            if let Some((handle, name)) = named_in(line) {
                let handle = String::from_str(alloc, handle)?;
                let name = String::from_str(alloc, name)?;
                names.insert(handle, name)?;
            }
        }
        Ok(OwnNames { names })
    }

    /// The name of the object with this handle, if it was given one.
    pub fn name_of(&self, handle: &String) -> Option<&str> {
        match self.names.get(handle) {
            Some(name) => Some(name.as_str()),
            None => None,
        }
    }
}
