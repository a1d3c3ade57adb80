//! The program behind `mtapi judge`: it reads what `mtapi run --journal` writes, or a journal alone, of any program, and writes whether
//! it is a legal history, or the first line that isn't allowed, why, and what would be. Behind the word `names` stand handles and
//! names in turn, which the reason shows. With the word `run` it writes why a journal is no run of the workload before it. Its stored
//! run judges a journal in which a worker takes a task out of turn.
#![tactic(auto)]

use byte_io::{StdSink, StdSource};
use journal_reading::ShowEnd;
use journal_reasons::{JudgeEnd, judge_input, tell, tell_run};
use std::alloc::{AllocError, Global};
use std::env;
use std::io::ErrorKind;
use std::process::ExitCode;

/// What the program is asked for.
#[derive(Clone, Copy, Drop)]
enum Asked {
    /// To judge a journal, with the names behind the word `names`.
    Judge,
    /// Why a journal is no run of the workload before it: the word `run`.
    Run,
    /// Something else.
    Other,
}

/// The words behind the program's name. Where one isn't UTF-8 there is a word that asks for nothing.
fn words_of(host: &HostRuntime) -> Result<Vec<String>, AllocError> {
    let mut words = Vec::new(host.alloc());
    match env::args(host) {
        Ok(all) => {
            for word in all.skip(1) {
                words.push(word)?;
            }
        }
        Err(error) => {
            if error.kind() == ErrorKind::OutOfMemory {
                return Err(AllocError);
            }
            words.push(String::new(host.alloc()))?;
        }
    }
    Ok(words)
}

/// What these words ask for.
fn asked_by(words: &[String]) -> Asked {
    let Some(word) = words.first() else {
        return Asked::Judge;
    };
    match word.as_str() {
        "run" if words.len() == 1 => Asked::Run,
        "names" => Asked::Judge,
        _ => Asked::Other,
    }
}

/// Comments that give names to handles, of the words behind `names`: a handle and its name in turn.
fn names_of(alloc: Global, words: &[String]) -> Result<Vec<u8>, AllocError> {
    let mut names = Vec::new(alloc);
    let mut is_handle = true;
    for word in words.iter().skip(1) {
        names.extend_from_slice(if is_handle { b"# " } else { b" " })?;
        names.extend_from_slice(word.as_bytes())?;
        if !is_handle {
            names.push(b'\n')?;
        }
        is_handle = !is_handle;
    }
    Ok(names)
}

/// Does what is asked for.
fn end_of(rt: &HostRuntime) -> JudgeEnd {
    let alloc = rt.alloc();
    let mut out = StdSink::new(rt.stdout());
    let Ok(words) = words_of(rt) else {
        return JudgeEnd::Refused(ShowEnd::Memory);
    };
    match asked_by(&words) {
        Asked::Judge => {
            let Ok(names) = names_of(alloc, &words) else {
                return JudgeEnd::Refused(ShowEnd::Memory);
            };
            judge_input(alloc, &mut StdSource::new(rt.stdin()), &names, &mut out)
        }
        Asked::Run => tell_run(alloc, &mut StdSource::new(rt.stdin()), &mut out),
        Asked::Other => JudgeEnd::Usage,
    }
}

fn main(rt: HostRuntime) -> ExitCode {
    let end = end_of(&rt);
    ExitCode::from(tell(rt.alloc(), end, &mut StdSink::new(rt.stderr())))
}
