//! An input with a workload and a journal is read, and what differs is written. Nothing here is promised.
use crate::page::nth_line;
use crate::reading::JudgeEnd;
use crate::runs::{Difference, difference_of};
use byte_io::{ReadAllError, Sink, Source, read_all, write_all};
use journal_reading::ShowEnd;
use journal_text::{InputPart, parts_of, read_journal};
use node_journals::Journal;
use std::alloc::{AllocError, Global};
use workload_file::{Workload, read_workload};

fn push_line(
    alloc: Global,
    page: &mut Vec<u8>,
    what: &str,
    number: u64,
    line: &[u8],
) -> Result<(), AllocError> {
    let front = format!(in alloc; "{what} {number}: ")?;
    page.extend_from_slice(front.as_bytes())?;
    page.extend_from_slice(line)?;
    page.push(b'\n')?;
    Ok(())
}

// What differs; lines of the journal are counted from its head line.
fn page_on(
    alloc: Global,
    front: &[u8],
    rest: &[u8],
    found: &Difference,
) -> Result<Vec<u8>, AllocError> {
    let mut page = Vec::from_slice(alloc, b"not a run: ")?;
    page.extend_from_slice(found.words.as_bytes())?;
    page.push(b'\n')?;
    if let Some(line) = found.line {
        push_line(
            alloc,
            &mut page,
            "line",
            line,
            nth_line(front, line.saturating_sub(1)),
        )?;
    }
    if let Some(number) = found.entry {
        let line = number.saturating_add(1);
        push_line(
            alloc,
            &mut page,
            "journal line",
            line,
            nth_line(rest, number),
        )?;
    }
    Ok(page)
}

fn page_of_run(
    alloc: Global,
    front: &[u8],
    rest: &[u8],
    load: &Workload,
    journal: &Journal,
) -> Result<Vec<u8>, AllocError> {
    match difference_of(alloc, load, journal)? {
        Some(found) => page_on(alloc, front, rest, &found),
        None => Ok(Vec::new(alloc)),
    }
}

fn run_page(alloc: Global, bytes: &[u8]) -> Result<Vec<u8>, ShowEnd> {
    let (front, rest) = parts_of(bytes);
    let Ok(load) = read_workload(alloc, &mut InputPart { left: front }) else {
        return Err(ShowEnd::CutShort);
    };
    let Ok(journal) = read_journal(alloc, &mut InputPart { left: rest }) else {
        return Err(ShowEnd::CutShort);
    };
    match page_of_run(alloc, front, rest, &load, &journal) {
        Ok(page) => Ok(page),
        Err(_) => Err(ShowEnd::Memory),
    }
}

/// Reads a workload with a journal behind it that is legal and no run of it, and writes what differs. The input is one that `check`
/// took: another one ends as one that is cut short.
pub fn tell_run<S: Source, W: Sink>(alloc: Global, src: &mut S, out: &mut W) -> JudgeEnd {
    let bytes = match read_all(alloc, src, 67_108_864) {
        Ok(bytes) => bytes,
        Err(ReadAllError::Memory) => return JudgeEnd::Refused(ShowEnd::Memory),
        Err(ReadAllError::Read) => return JudgeEnd::Refused(ShowEnd::ReadFault),
        Err(ReadAllError::TooLong) => return JudgeEnd::Refused(ShowEnd::TooLong),
    };
    let page = match run_page(alloc, &bytes) {
        Ok(page) => page,
        Err(end) => return JudgeEnd::Refused(end),
    };
    match write_all(out, &page) {
        Ok(()) => JudgeEnd::Illegal,
        Err(_) => JudgeEnd::Refused(ShowEnd::WriteFault),
    }
}
