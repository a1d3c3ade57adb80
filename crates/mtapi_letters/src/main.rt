//! A parallel histogram: the workers of a node count how often each letter stands in the parts of a text on standard input, and the counts
//! are added up. The number of workers may be given; it is 4 else. With a second word it writes its run into the file of that name.
#![tactic(auto)]

use byte_io::{StdSink, StdSource, read_all};
use mtapi_values::NodeAttr;
use std::alloc::Global;
use std::sync::Wait;
use std::thread::Threads;
use std::{env, fs, io};
use typed_pieces::{Unfinished, Worked, map_pieces};
use write_run::write_run;

// How often each byte stands in this part, where a large letter counts as a small one.
fn counts_of(part: &[u8]) -> [u64; 256] {
    let mut counts = [0u64; 256];
    for byte in part {
        let letter = byte.to_ascii_lowercase() as usize;
        counts[letter] = counts[letter].wrapping_add(1);
    }
    counts
}

// The counts of each of at most 64 parts, and the journal.
fn count<R: Threads + Wait + Sync>(
    rt: &R,
    alloc: Global,
    text: &[u8],
    workers: u64,
) -> Result<Worked<(), [u64; 256]>, Unfinished> {
    let mut settings = NodeAttr::new();
    settings.set(NodeAttr::WORKERS, workers)?;
    let parts = text.chunks(text.len() / 64 + 1).collect(alloc)?;
    map_pieces(rt, alloc, settings, parts, &counts_of)
}

fn main(rt: HostRuntime) -> io::Result<()> {
    let word = env::args(&rt)?.nth(1);
    let workers = word.map_or(4, |word| word.parse().unwrap_or(0));
    let text = match read_all(rt.alloc(), &mut StdSource::new(rt.stdin()), 1 << 30) {
        Ok(text) => text,
        Err(error) => return println!(rt; "{error}"),
    };
    let counted = match count(&rt, rt.alloc(), &text, workers) {
        Ok(counted) => counted,
        Err(unfinished) => return println!(rt; "{unfinished}"),
    };
    if let Some(path) = env::args(&rt)?.nth(2) {
        let mut file = StdSink::new(fs::create(&rt, &path)?);
        if let Err(error) = write_run(rt.alloc(), &mut file, counted.journal.journal()) {
            return println!(rt; "{error}");
        }
    }
    for letter in b'a'..=b'z' {
        let all = counted.results.iter().map(|counts| counts[letter as usize]);
        let count = all.fold(0u64, |sum, count| sum.saturating_add(count));
        if count > 0 {
            println!(rt; "{}: {count}", letter as char)?;
        }
    }
    Ok(())
}
