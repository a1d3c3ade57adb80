//! The journal in an input that has something else before it: a workload, or a report.
ghost use Rattle.std.specs.Prelude.{◌≡◌, ◌≤◌, ◌<◌, ◌⊎◌, ℕ, true, false, length};
ghost use Rattle.journal_text.specs.Splits.{begins_line, begins_journal, IsSplit};

use byte_io::{Failed, Source};

// Whether a line begins at this place.
fn begins_line(bytes: &[u8], at: usize) -> bool
    requires { at < length bytes.now }
    ensures { result ≡ begins_line bytes.now at }
{
    at == 0 || bytes[at - 1] == b'\n'
}

// Whether a line begins at this place, and begins as the first line of a journal does.
fn begins_journal(bytes: &[u8], at: usize) -> bool
    requires { at < length bytes.now }
    ensures { result ≡ begins_journal bytes.now at }
{
    begins_line(bytes, at) && bytes[at..].starts_with(b"mtapi-journal ")
}

// Where the journal begins: past the last byte where there is none.
#[tactic(auto, using(crate::proofs::Splits::none_below))]
fn journal_place(bytes: &[u8]) -> usize
    ensures within { result ≤ length bytes.now }
    ensures begins { (result ≡ length bytes.now) ⊎ (begins_journal bytes.now result ≡ true) }
    ensures first { (n : ℕ) → n < result → begins_journal bytes.now n ≡ false }
{
    for at in 0..bytes.len() {
        if begins_journal(bytes, at) {
            return at;
        }
    }
    bytes.len()
}

/// The part before the journal, and the journal, which is empty where there is none.
pub fn parts_of(bytes: &[u8]) -> (&[u8], &[u8])
    ensures { IsSplit bytes.now result.0.now result.1.now }
{
    let at = journal_place(bytes);
    (&bytes[..at], &bytes[at..])
}

/// A part of the input, as a source. It doesn't fail, and nothing is copied to make it.
#[derive(Drop)]
pub struct InputPart<'a> {
    /// What wasn't read yet.
    pub left: &'a [u8],
}

impl<'a> Source for InputPart<'a> {
    ghost use Rattle.std.specs.Prelude.{Some};

    ghost left = { λ s. Some s.left.now };

    ghost faults = { λ s. 0 };

    fn read(&mut self, buf: &mut [u8]) -> Result<usize, Failed> {
        let left = self.left;
        let count = buf.len().min(left.len());
        buf[..count].copy_from_slice(&left[..count]);
        self.left = &left[count..];
        Ok(count)
    }
}
