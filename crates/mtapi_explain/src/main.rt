//! The program behind `mtapi explain`: it reads a text, and writes every mistake for which it is no workload, or that there is none.
#![tactic(auto)]

use std::env;
use std::io::ErrorKind;
use std::process::ExitCode;
use workload_file::{StdSink, StdSource};
use workload_mistakes::{ExplainEnd, explain, tell};

/// Whether there are words behind the program's name: it takes none.
fn has_words(rt: &HostRuntime) -> Result<bool, ExplainEnd> {
    match env::args(rt) {
        Ok(words) => Ok(words.skip(1).next().is_some()),
        Err(error) => {
            if error.kind() == ErrorKind::OutOfMemory {
                return Err(ExplainEnd::Memory);
            }
            Ok(true)
        }
    }
}

fn main(rt: HostRuntime) -> ExitCode {
    let mut out = StdSink::new(rt.stdout());
    let end = match has_words(&rt) {
        Ok(false) => explain(rt.alloc(), &mut StdSource::new(rt.stdin()), &mut out),
        Ok(true) => ExplainEnd::Usage,
        Err(end) => end,
    };
    ExitCode::from(tell(end, &mut StdSink::new(rt.stderr())))
}
