//! A program that shows a run, over its standard streams.

use crate::ends::{RunView, ShowEnd, tell};
use crate::showing::{RunText, show};
use byte_io::{StdSink, StdSource};
use std::env;
use std::io::ErrorKind;
use std::process::ExitCode;

/// Whether there are words behind the program's name: it takes none.
fn has_words(host: &HostRuntime) -> Result<bool, ShowEnd> {
    match env::args(host) {
        Ok(words) => Ok(words.skip(1).next().is_some()),
        Err(error) => {
            if error.kind() == ErrorKind::OutOfMemory {
                return Err(ShowEnd::Memory);
            }
            Ok(true)
        }
    }
}

/// Shows the run in standard input on standard output, and tells on standard error how it ended.
pub fn program<T: RunText>(host: &HostRuntime, view: RunView) -> ExitCode {
    let alloc = host.alloc();
    let mut out = StdSink::new(host.stdout());
    let end = match has_words(host) {
        Ok(false) => show::<_, _, T>(alloc, view, &mut StdSource::new(host.stdin()), &mut out),
        Ok(true) => ShowEnd::Usage,
        Err(end) => end,
    };
    ExitCode::from(tell(alloc, view, end, &mut StdSink::new(host.stderr())))
}
