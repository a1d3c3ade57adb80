//! What is said of a byte that no line may have.
use crate::hints::{Hint, hint_at};
use std::alloc::{AllocError, Global};

fn byte_text(line: &[u8], at: usize, byte: u8) -> &'static [u8] {
    match byte {
        b'\t' => b"a tab: words are separated by spaces",
        b'\r' => b"a carriage return: a line ends with a line feed alone",
        0xEF if at == 0 && line.starts_with(b"\xEF\xBB\xBF") =>
            b"a byte order mark: a text begins with its first word",
        0..=31 | 127 => b"a control byte: bytes from 0x20 to 0x7E are allowed",
        _ => b"a letter beyond ASCII: bytes from 0x20 to 0x7E are allowed, in comments too",
    }
}

/// What is said of the first byte of a line that no line may have.
pub fn byte_hint(alloc: Global, line: &[u8]) -> Result<Hint, AllocError> {
    for (at, byte) in line.iter().enumerate() {
        if *byte < 32 || 126 < *byte {
            return hint_at(alloc, at, byte_text(line, at, *byte), b"", b"");
        }
    }
    hint_at(alloc, 0, b"", b"", b"")
}
