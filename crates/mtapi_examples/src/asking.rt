//! What the command answers.

use mtapi_program::{Threads as RealThreads, run_words};
use std::alloc::{AllocError, Global};
use std::sync::Wait;
use std::thread::Threads;
use workload_file::{MemSink, MemSource};

/// More bytes than an output of a case has.
const ROOM: usize = 65_536;

/// The status with which the command ends on these words and this input, a line feed, what it writes, and what it says.
pub(crate) fn answer<R: Threads + Wait + Sync>(
    rt: &R,
    alloc: Global,
    words: &[&str],
    input: Vec<u8>,
) -> Result<Vec<u8>, AllocError> {
    let mut src = MemSource::new(input, 4096, Vec::new(alloc));
    let mut out = MemSink::new(alloc, ROOM, 4096, Vec::new(alloc))?;
    let mut err = MemSink::new(alloc, ROOM, 4096, Vec::new(alloc))?;
    let mut beside = RealThreads::new();
    let status = run_words(rt, alloc, words, &mut src, &mut out, &mut err, &mut beside).status;
    let mut text = format!(in alloc; "{status}\n")?.into_bytes();
    text.extend_from_slice(out.bytes())?;
    text.extend_from_slice(err.bytes())?;
    Ok(text)
}

/// Whether the command answers as this case says: a line of words, an input, and behind `-- ` the answer.
pub(crate) fn answers_as_said<R: Threads + Wait + Sync>(
    rt: &R,
    alloc: Global,
    case: &str,
) -> Result<bool, AllocError> {
    let Some((line, rest)) = case.split_once('\n') else {
        return Ok(false);
    };
    let Some((input, said)) = rest.split_once("-- ") else {
        return Ok(false);
    };
    let mut words = Vec::new(alloc);
    for word in line.split_whitespace() {
        words.push(word)?;
    }
    let input = input.as_bytes().to_vec(alloc)?;
    Ok(answer(rt, alloc, &words, input)?.as_slice() == said.as_bytes())
}
