//! What the program is asked for.

use number_text::number;

/// What is asked for.
#[derive(Clone, Copy, Drop)]
pub enum Asked {
    /// `verify`: a workload is run, and the journal of the run is judged.
    Verify,
    /// `keep`: a workload is run, and written with the journal behind it.
    Keep,
    /// `keep LOOKS`: the same with so many looks in place of each `timeout=inf`.
    KeepBounded(u64),
    /// `bounded LOOKS`: such a run, and which of its waits ran out.
    Bounded(u64),
    /// `waits LOOKS`: which waits of such a run ran out; its journal stands behind the workload.
    Waits(u64),
    /// `check`: the journal behind a workload is judged.
    Check,
    /// `check BYTES`: behind a workload of so many bytes stands what was kept of a run, whose journal is judged.
    CheckKept(u64),
}

/// A number of looks: 0 to 1,000,000, in decimal digits without a leading zero.
fn looks_in(word: &str) -> Option<u64> {
    number(word.as_bytes()).filter(|looks| *looks <= 1_000_000)
}

/// What a word with a number behind it asks for.
fn asked_with(word: &str, count: &str) -> Option<Asked> {
    match word {
        "keep" => looks_in(count).map(Asked::KeepBounded),
        "bounded" => looks_in(count).map(Asked::Bounded),
        "waits" => looks_in(count).map(Asked::Waits),
        "check" => number(count.as_bytes()).map(Asked::CheckKept),
        _ => None,
    }
}

/// What these words ask for, or nothing if they are none of the program's.
pub fn asked_by(words: &[String]) -> Option<Asked> {
    match words {
        [word] => match word.as_str() {
            "verify" => Some(Asked::Verify),
            "keep" => Some(Asked::Keep),
            "check" => Some(Asked::Check),
            _ => None,
        },
        [word, count] => asked_with(word.as_str(), count.as_str()),
        _ => None,
    }
}
