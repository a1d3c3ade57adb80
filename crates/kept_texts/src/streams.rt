//! A program that shows a run, over its standard streams.
ghost use Rattle.std.specs.Prelude.{◌≤◌, IfOk, vec_len};

use crate::joining::joined;
use byte_io::{ReadAllError, Sink, Source, StdSink, StdSource, read_all};
use journal_reading::{RunText, RunView, ShowEnd, show, tell};
use journal_text::InputPart;
use number_text::number;
use std::alloc::{AllocError, Global};
use std::env;
use std::io::ErrorKind;
use std::process::ExitCode;

/// The words behind the program's name. Where one isn't UTF-8 there is an empty one.
///
/// # Errors
///
/// - `AllocError`: memory ran out.
pub fn words_of(host: &HostRuntime) -> Result<Vec<String>, AllocError> {
    let mut words = Vec::new(host.alloc());
    match env::args(host) {
        Ok(all) => {
            for word in all.skip(1) {
                words.push(word)?;
            }
        }
        Err(error) => {
            if error.kind() == ErrorKind::OutOfMemory {
                return Err(AllocError);
            }
            words.push(String::new(host.alloc()))?;
        }
    }
    Ok(words)
}

/// All bytes of an input.
///
/// # Errors
///
/// - `Memory`, `ReadFault`: memory ran out; a read failed.
/// - `TooLong`: there are more than 67,108,864.
pub fn input_of<S: Source>(alloc: Global, src: &mut S) -> Result<Vec<u8>, ShowEnd>
    ensures { IfOk result (λ bytes. vec_len bytes ≤ 67108864) }
{
    match read_all(alloc, src, 67_108_864) {
        Ok(bytes) => Ok(bytes),
        Err(ReadAllError::Memory) => Err(ShowEnd::Memory),
        Err(ReadAllError::Read) => Err(ShowEnd::ReadFault),
        Err(ReadAllError::TooLong) => Err(ShowEnd::TooLong),
    }
}

/// Shows the run whose workload is the first so many bytes of an input, with what was kept of it behind them.
fn show_joined<S: Source, W: Sink, T: RunText>(
    alloc: Global,
    view: RunView,
    count: u64,
    src: &mut S,
    out: &mut W,
) -> ShowEnd {
    let bytes = match input_of(alloc, src) {
        Ok(bytes) => bytes,
        Err(end) => return end,
    };
    let (workload, kept) = bytes.split_at((count as usize).min(bytes.len()));
    match joined(alloc, workload, kept) {
        Ok(text) => show::<_, _, T>(alloc, view, &mut InputPart { left: &text }, out),
        Err(_) => ShowEnd::Memory,
    }
}

/// Shows the run in standard input, whose first so many bytes are its workload.
fn program_joined<T: RunText>(host: &HostRuntime, view: RunView, count: u64) -> ExitCode {
    let mut src = StdSource::new(host.stdin());
    let mut out = StdSink::new(host.stdout());
    let end = show_joined::<_, _, T>(host.alloc(), view, count, &mut src, &mut out);
    ExitCode::from(tell(host.alloc(), view, end, &mut StdSink::new(host.stderr())))
}

/// The program: it shows the run in standard input on standard output, and tells on standard error how it ended. With a number as its
/// word so many bytes are the workload, and of what stands behind them the journal is taken.
pub fn program<T: RunText>(host: &HostRuntime, view: RunView) -> ExitCode {
    let count = match words_of(host) {
        Ok(words) => match words.as_slice() {
            [word] => number(word.as_bytes()),
            _ => None,
        },
        Err(_) => None,
    };
    match count {
        Some(count) => program_joined::<T>(host, view, count),
        None => journal_reading::program::<T>(host, view),
    }
}
