//! A workload in which each wait without end has a number of looks.

use number_text::cut_at;
use std::alloc::{AllocError, Global};

/// Adds a line of a workload with another timeout in place of `timeout=inf`.
fn push_bounded(text: &mut Vec<u8>, line: &[u8], timeout: &[u8]) -> Result<(), AllocError> {
    let mut left = line;
    'words: loop {
        let (word, after) = cut_at(left, b' ');
        let is_endless = word == b"timeout=inf".as_slice();
        text.extend_from_slice(if is_endless { timeout } else { word })?;
        match after {
            Some(rest) => left = rest,
            None => return Ok(()),
        }
        text.push(b' ')?;
    }
}

/// Whether a line is a comment: it begins with `#`, which spaces may stand before.
fn is_comment(line: &[u8]) -> bool {
    for byte in line {
        if *byte != b' ' {
            return *byte == b'#';
        }
    }
    false
}

/// A workload with so many looks in place of each `timeout=inf`. Its lines stay the same.
pub fn bounded(alloc: Global, workload: &[u8], looks: u64) -> Result<Vec<u8>, AllocError> {
    let timeout = format!(in alloc; "timeout={looks}")?;
    let mut text = Vec::new(alloc);
    let mut left = workload;
    'lines: loop {
        let (line, after) = cut_at(left, b'\n');
        if is_comment(line) {
            text.extend_from_slice(line)?;
        } else {
            push_bounded(&mut text, line, timeout.as_bytes())?;
        }
        match after {
            Some(rest) => left = rest,
            None => return Ok(text),
        }
        text.push(b'\n')?;
    }
}
