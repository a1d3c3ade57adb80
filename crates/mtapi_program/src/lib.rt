//! The program: its words, its input and its outputs, given to the command. It stands in a library, so that more than one program may
//! be it: each has one stored run.
#![tactic(auto)]

ghost use Rattle.std.specs.Prelude.{◌≡◌, ◌⊎◌, true, false, IfSome};
ghost use Rattle.std.specs.Process.{exit_status};
ghost use Rattle.std.specs.Io.KnownBytes.{Appends};
ghost use Rattle.byte_io.specs.Causes.{Rose, AppendsFront};
ghost use Rattle.journal_check.specs.declared.verdicts.Verdict.TheVariants.{Yes};
ghost use Rattle.mtapi_top.specs.Check.{IsJudged, verdict_line};
ghost use Rattle.mtapi_top.specs.Command.{IsWorkload};
ghost use Rattle.mtapi_top.specs.Ended.{HasEnded, IsReadFor};
ghost use Rattle.mtapi_top.specs.Headline.{RanWorkload};
ghost use Rattle.mtapi_top.specs.Words.{texts, asked_by_words, reads_workload, judges};

use action_fn::{
    FnTable, StoredFn, act_add, act_div, act_echo, act_fail, act_gcd, act_max, act_mul,
    act_triangle,
};
pub use mtapi_top::Threads;
use mtapi_top::{Beside, End, Outcome, command, tell};
use mtapi_values::Kind;
use std::alloc::{AllocError, Global};
use std::env;
use std::io::ErrorKind;
use std::process::ExitCode;
use std::sync::Wait;
use std::thread::Threads as StartsThreads;
use workload_file::{Sink, Source, StdSink, StdSource};

/// The words behind the program's name. Where one isn't UTF-8 there are none, which no command takes.
fn words_of(rt: &HostRuntime) -> Result<Vec<String>, AllocError> {
    let mut words = Vec::new(rt.alloc());
    match env::args(rt) {
        Ok(all) => {
            for word in all.skip(1) {
                words.push(word)?;
            }
        }
        Err(error) => {
            if error.kind() == ErrorKind::OutOfMemory {
                return Err(AllocError);
            }
        }
    }
    Ok(words)
}

/// Runs the command with exactly these words, with threads that `beside` starts, and with the function of each pure kind. Answers what
/// the command answers.
pub fn run_words<R: StartsThreads + Wait + Sync, S: Source, W: Sink, E: Sink, B: Beside>(
    rt: &R,
    alloc: Global,
    words: &[&str],
    src: &mut S,
    out: &mut W,
    err: &mut E,
    beside: &mut B,
) -> Outcome
    // The headline of the command: where a run finished, the journal is that of a run of the workload that was asked for, and what was
    // written is the whole output of that journal with 0, and a prefix of it with 5.
    ensures headline { result.status ≡ 0
        → IfSome result.journal (λ journal.
        RanWorkload (asked_by_words (texts words.now)) (S.left src.old) journal (Appends (W.held out.old) (W.held out.new))) }
    ensures headline_cut { result.status ≡ 5
        → IfSome result.journal (λ journal.
        RanWorkload (asked_by_words (texts words.now)) (S.left src.old) journal (AppendsFront (W.held out.old) (W.held out.new))) }

    // A workload, without a fault and with a thread for everyone, ends with 0, with 6 when out of memory, or with turns that are used up; and an
    // input that is judged, without a fault, with 0, 3, 6 or 9.
    ensures complete { reads_workload (asked_by_words (texts words.now)) ≡ true → (Rose (S.faults src.old) (S.faults src.new) → ⊥)
        → (Rose (W.faults out.old) (W.faults out.new) → ⊥)
        → (Rose (B.refusals beside.old) (B.refusals beside.new) → ⊥)
        → IfSome (S.left src.old) (λ bytes. IsWorkload bytes → (result.status ≡ 0) ⊎ (result.status ≡ 6) ⊎ (result.status ≡ 8)) }
    ensures check_complete { judges (asked_by_words (texts words.now)) ≡ true
        → (Rose (S.faults src.old) (S.faults src.new) → ⊥)
        → (Rose (W.faults out.old) (W.faults out.new) → ⊥)
        → (result.status ≡ 0) ⊎ (result.status ≡ 3) ⊎ (result.status ≡ 6) ⊎ (result.status ≡ 9) }

    // With 0 the journal that was judged is that of a run of the workload before it, and the verdict was written.
    ensures check_yes { judges (asked_by_words (texts words.now)) ≡ true → result.status ≡ 0
        → IsJudged (S.left src.old) Yes × Appends (W.held out.old) (W.held out.new) (verdict_line Yes) }

    // The status with its cause, the journal, what shows that the turns are used up, what was written and what was said are those of one
    // end of the command; and no more is read than it takes.
    ensures ended { HasEnded (asked_by_words (texts words.now))
        (record { left = S.left src.old; reads = S.faults src.old; writes = W.faults out.old; held = W.held out.old; threads = B.refusals beside.old; says = E.faults err.old; said = E.held err.old })
        (record { left = S.left src.new; reads = S.faults src.new; writes = W.faults out.new; held = W.held out.new; threads = B.refusals beside.new; says = E.faults err.new; said = E.held err.new })
        result }
    ensures read { IsReadFor (asked_by_words (texts words.now)) (S.left src.old) (S.left src.new) (S.faults src.old) (S.faults src.new) result.status result.journal }
{
    let mut acts = FnTable::new(
        StoredFn::new(Kind::Add, act_add),
        StoredFn::new(Kind::Mul, act_mul),
        StoredFn::new(Kind::Max, act_max),
        StoredFn::new(Kind::Div, act_div),
        StoredFn::new(Kind::Gcd, act_gcd),
        StoredFn::new(Kind::Echo, act_echo),
        StoredFn::new(Kind::Triangle, act_triangle),
        StoredFn::new(Kind::Fail, act_fail),
    );
    command(rt, alloc, words, src, out, err, &mut acts, beside)
}

/// Runs the command over the standard input and outputs of the host, with threads of `rt`.
fn run<R: StartsThreads + Wait + Sync>(host: &HostRuntime, rt: &R) -> Result<Outcome, AllocError> {
    let alloc = host.alloc();
    let owned = words_of(host)?;
    let mut words = Vec::new(alloc);
    for word in &owned {
        words.push(word.as_str())?;
    }
    let mut src = StdSource::new(host.stdin());
    let mut out = StdSink::new(host.stdout());
    let mut err = StdSink::new(host.stderr());
    let mut beside = Threads::new();
    Ok(run_words(rt, alloc, &words, &mut src, &mut out, &mut err, &mut beside))
}

/// The status of the process: that of the command.
fn exit_code_of(outcome: &Outcome) -> ExitCode
    ensures { exit_status result ≡ outcome.now.status }
{
    ExitCode::from(outcome.status)
}

/// The whole program: what `main` does. `host` and `rt` are the one runtime that it takes.
pub fn program<R: StartsThreads + Wait + Sync>(host: &HostRuntime, rt: &R) -> ExitCode {
    let outcome = match run(host, rt) {
        Ok(outcome) => outcome,
        // There was no memory for the words.
        Err(_) => tell(host.alloc(), End::Memory, &mut StdSink::new(host.stderr())),
    };
    exit_code_of(&outcome)
}
