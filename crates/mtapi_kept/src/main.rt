//! The program behind `mtapi check`, `verify` and `bounded`, which also makes the run that `picture` and `trace` show of a workload. Its
//! stored run names a wait of a kept run that ran out.
#![tactic(auto)]

mod bounding;
mod checks;
mod ends;
mod gathered;
mod runs;
mod words;

ghost use Rattle.std.specs.Prelude.{◌≤◌, length};

use bounding::bounded;
use byte_io::{Sink, StdSink, StdSource, say, write_all};
use checks::{check, check_kept, verify};
use ends::{Answer, NoAnswer, tell};
use journal_reading::{RunView, ShowEnd, run_in};
use journal_text::parts_of;
use kept_texts::{input_of, words_of};
use run_waits::waits_in;
use runs::{keep, run_bounded};
use std::alloc::Global;
use std::process::ExitCode;
use std::sync::Wait;
use std::thread::Threads;
use words::{Asked, asked_by};

/// Which waits of a run that was kept behind its workload ran out.
fn waits_of(alloc: Global, bytes: &[u8], looks: u64) -> Result<Answer, NoAnswer>
    requires { length bytes.now ≤ 67108864 }
{
    let (front, _) = parts_of(bytes);
    let kept = match run_in(alloc, RunView::Trace, bytes) {
        Ok(kept) => kept,
        Err(end) => return Err(NoAnswer::Shown(end)),
    };
    let told = match &kept.workload {
        Some(load) => waits_in(alloc, front, load, &kept.journal, looks)?,
        None => String::new(alloc),
    };
    Ok(Answer {
        text: Vec::from_slice(alloc, told.as_bytes())?,
        told: Vec::new(alloc),
        status: if told.is_empty() { 0 } else { 1 },
    })
}

/// What is asked for, of this input.
fn answer_to<R: Threads + Wait + Sync, E: Sink>(
    rt: &R,
    alloc: Global,
    asked: Asked,
    bytes: &[u8],
    err: &mut E,
) -> Result<Answer, NoAnswer>
    requires { length bytes.now ≤ 67108864 }
{
    match asked {
        Asked::Verify => verify(rt, alloc, bytes, err),
        Asked::Check => check(rt, alloc, bytes, bytes, err),
        Asked::CheckKept(count) => {
            let (workload, kept) = bytes.split_at((count as usize).min(bytes.len()));
            check_kept(rt, alloc, workload, kept, err)
        }
        Asked::Keep => keep(rt, alloc, bytes, err),
        Asked::KeepBounded(looks) => keep(rt, alloc, &bounded(alloc, bytes, looks)?, err),
        Asked::Bounded(looks) => run_bounded(rt, alloc, bytes, looks, err),
        Asked::Waits(looks) => waits_of(alloc, bytes, looks),
    }
}

/// Does what the words ask for, and gives the status. `host` and `rt` are the one runtime of the program.
fn end_of<R: Threads + Wait + Sync, E: Sink>(
    host: &HostRuntime,
    rt: &R,
    err: &mut E,
) -> Result<u8, NoAnswer> {
    let alloc = host.alloc();
    let words = words_of(host)?;
    let Some(asked) = asked_by(&words) else {
        return Err(NoAnswer::Usage);
    };
    let bytes = match input_of(alloc, &mut StdSource::new(host.stdin())) {
        Ok(bytes) => bytes,
        Err(end) => return Err(NoAnswer::Shown(end)),
    };
    let answer = answer_to(rt, alloc, asked, &bytes, err)?;
    if write_all(&mut StdSink::new(host.stdout()), &answer.text).is_err() {
        return Err(NoAnswer::Shown(ShowEnd::WriteFault));
    }
    say(err, &answer.told);
    Ok(answer.status)
}

fn main(rt: HostRuntime) -> ExitCode {
    let mut err = StdSink::new(rt.stderr());
    let status = match end_of(&rt, &rt, &mut err) {
        Ok(status) => status,
        Err(why) => tell(rt.alloc(), why, &mut err),
    };
    ExitCode::from(status)
}
