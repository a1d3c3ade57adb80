//! The command, from words to a status.
ghost use Rattle.std.specs.Prelude.{◌≡◌, ◌≤◌, ◌⊎◌, ◌↔◌, ◌^◌, IfOk, IfErr, IfSome, IsSome, IsErrOf, is_some, true, false, None, Some};
ghost use Rattle.std.specs.Io.KnownBytes.{Appends, IsAtEnd};
ghost use Rattle.byte_io.specs.Causes.{Rose, AppendsFront, TakesAtMost};
ghost use Rattle.mtapi_top.specs.Command.{HasRead, IsRefused, IsWorkload, status_of};
ghost use Rattle.workload_file.specs.Formed.{WellFormed};
ghost use Rattle.workload_file.specs.Loading.{HoldsBut, ReadsClean};
ghost use Rattle.generated_workload.specs.Generated.{generated};
ghost use Rattle.mtapi_top.specs.Headline.{IsLoadOf, IsTextTwo, RanWorkload};
ghost use Rattle.mtapi_top.specs.Settled.{IsPlainOutput};
ghost use Rattle.mtapi_top.specs.Check.{IsJudged, IsInput, IsRefusedInput, verdict_line};
ghost use Rattle.mtapi_top.specs.Command.{verdict_status};
ghost use Rattle.mtapi_top.specs.Ended.{HasEnded, IsReadFor, StartsNothing};
ghost use Rattle.mtapi_top.specs.PartEnds.{ComesTo, HasNoWorkload, WritesOutput, without_load, without_run};
ghost use Rattle.journal_text.specs.Journals.{journal_text};
ghost use Rattle.journal_check.specs.Verdicts.{IsVerdict};
ghost use Rattle.journal_check.specs.declared.verdicts.Verdict.{Verdict};
ghost use Rattle.journal_check.specs.declared.verdicts.Verdict.TheVariants.{Yes};
ghost use Rattle.workload_file.specs.declared.workload.Workload.{Workload};
ghost use Rattle.node_journals.specs.declared.entries.Journal.{Journal};
ghost use Rattle.mtapi_top.specs.Words.{texts, asked_by_words, reads_workload, judges, InRange};

use crate::checking::check_input;
use crate::ends::{End, Outcome};
use crate::run_output::run_and_output;
use crate::telling::tell;
use crate::words::{Asked, asked_of};
use action_fn::ActionSource;
use generated_workload::generated;
use node_core::RunJournal;
use run_beside::Beside;
use std::alloc::Global;
use std::sync::Wait;
use std::thread::Threads;
use workload_file::{LoadError, Sink, Source, Workload, read_workload, write_all};
use workload_runners::NoRun;

/// The generated workload. There may be no memory for it.
fn generated_load(alloc: Global, tasks: u32, workers: u32) -> Result<Workload, LoadError>
    requires tasks { (1 ≤ tasks) × (tasks ≤ 19000) }
    requires workers { (1 ≤ workers) × (workers ≤ 16) }
    ensures value { IfOk result (λ load. load ≡ generated tasks workers) }
    ensures formed { IfOk result WellFormed }
    ensures memory { IfErr result (λ error. error ≡ LoadError.Memory) }
{
    match generated(alloc, tasks, workers) {
        Ok(load) => Ok(load),
        Err(_) => Err(LoadError::Memory),
    }
}

/// The workload whose run was asked for: the one that is read, or the generated one, for which nothing is read.
fn load_for<S: Source>(alloc: Global, asked: &Asked, src: &mut S) -> Result<Workload, LoadError>
    requires range { InRange asked.now }
    requires asked { judges (Some asked.now) ≡ false }
    ensures load { IfOk result (λ load. IsLoadOf asked.now (S.left src.old) load) }
    ensures formed { IfOk result WellFormed }
    ensures workload { IfOk result (λ load. HasRead (Some asked.now) (S.left src.old)) }
    ensures none { IfErr result (HasNoWorkload (Some asked.now) (S.left src.old) (S.faults src.old) (S.faults src.new)) }
    ensures clean { reads_workload (Some asked.now) ≡ true
        → HoldsBut (ReadsClean (S.faults src.old) (S.faults src.new) (S.left src.old) (S.left src.new)) result }
    ensures whole { reads_workload (Some asked.now) ≡ true
        → IfOk result (λ load. IfSome (S.left src.old) (λ bytes. IsAtEnd (S.left src.new))) }
    ensures unread { reads_workload (Some asked.now) ≡ false
        → (S.left src.new ≡ S.left src.old) × (S.faults src.new ≡ S.faults src.old) }
    ensures taken { reads_workload (Some asked.now) ≡ true → TakesAtMost 1048577 (S.left src.old) (S.left src.new) }
    ensures faultless { (IsErrOf result LoadError.Read → ⊥) → S.faults src.new ≡ S.faults src.old }
    ensures later { S.faults src.old ≤ S.faults src.new }
{
    match asked {
        Asked::Report | Asked::Journal => read_workload(alloc, src),
        Asked::Generated { tasks, workers } => generated_load(alloc, *tasks, *workers),
        Asked::Check => unreachable!(),
    }
}

/// How the command ends where there is no workload to run.
fn without_load(error: LoadError) -> End
    ensures { result ≡ without_load error }
{
    match error {
        LoadError::Memory => End::Memory,
        LoadError::Read => End::ReadFault,
        LoadError::TooLong => End::TooLong,
        LoadError::Refused { line, cause } => End::Refused(line, cause),
    }
}

/// How the command ends where there is no journal of a run.
fn without_run(reason: NoRun) -> End
    ensures { result ≡ without_run reason }
{
    match reason {
        NoRun::Refused => End::NoThread,
        NoRun::Spent(spent) => End::Spent(spent),
        NoRun::Memory => End::Memory,
    }
}

/// Writes the output of a run, and tells how the command ends with that.
fn write_output<W: Sink>(out: &mut W, journal: RunJournal, text: &[u8]) -> End
    ensures writes { WritesOutput (W.faults out.old) (W.faults out.new) (W.held out.old) (W.held out.new) text.now journal result }
    ensures later { W.faults out.old ≤ W.faults out.new }
{
    match write_all(out, text) {
        Ok(()) => End::Done(journal),
        Err(_) => End::WriteFault(journal),
    }
}

/// Reads or makes the workload, makes its run and writes the output.
fn carry_out<R: Threads + Wait + Sync, S: Source, W: Sink, A: ActionSource, B: Beside>(
    rt: &R,
    alloc: Global,
    asked: &Asked,
    src: &mut S,
    out: &mut W,
    acts: &mut A,
    beside: &mut B,
) -> End
    requires range { InRange asked.now }
    requires asked { judges (Some asked.now) ≡ false }
    ensures comes { ComesTo (Some asked.now) (S.left src.old) (S.left src.new)
        (record { reads = S.faults src.old; writes = W.faults out.old; threads = B.refusals beside.old; held = W.held out.old })
        (record { reads = S.faults src.new; writes = W.faults out.new; threads = B.refusals beside.new; held = W.held out.new }) result }
    ensures idle { (judges (Some asked.now) ≡ true) ⊎ StartsNothing (status_of result)
        → (acts.new ≡ acts.old) × (beside.new ≡ beside.old) }
{
    let load = match load_for(alloc, asked, src) {
        Ok(load) => load,
        Err(error) => return without_load(error),
    };
    let (journal, text) = match run_and_output(rt, alloc, asked, &load, acts, beside) {
        Ok(both) => both,
        Err(reason) => return without_run(reason),
    };
    write_output(out, journal, &text)
}

/// Carries out what the words ask for, up to its end.
fn end_of<R: Threads + Wait + Sync, S: Source, W: Sink, A: ActionSource, B: Beside>(
    rt: &R,
    alloc: Global,
    words: &[&str],
    src: &mut S,
    out: &mut W,
    acts: &mut A,
    beside: &mut B,
) -> End
    ensures comes { ComesTo (asked_by_words (texts words.now)) (S.left src.old) (S.left src.new)
        (record { reads = S.faults src.old; writes = W.faults out.old; threads = B.refusals beside.old; held = W.held out.old })
        (record { reads = S.faults src.new; writes = W.faults out.new; threads = B.refusals beside.new; held = W.held out.new }) result }
    ensures idle { (judges (asked_by_words (texts words.now)) ≡ true) ⊎ StartsNothing (status_of result)
        → (acts.new ≡ acts.old) × (beside.new ≡ beside.old) }
{
    let Some(asked) = asked_of(words) else {
        return End::Usage;
    };
    match asked {
        Asked::Check => check_input(alloc, src, out),
        Asked::Report | Asked::Journal | Asked::Generated { .. } => {
            carry_out(rt, alloc, &asked, src, out, acts, beside)
        }
    }
}

/// The command: carries out what its words ask for, and answers the status of the process, 0 or 2
/// to 9.
///
/// Asked by `run` it reads a workload from `src`, carries it out with threads that `beside` starts,
/// and writes its report to `out`; by `run --journal` it writes the text of the run's journal
/// behind the report. Asked by `gen N` or `gen N W` it reads nothing, carries out the generated
/// workload of N tasks, 1 to 19,000, with W workers, 1 to 16, and writes the summary of its run.
/// Asked by `check` it reads a workload and behind it the text of a journal, together at most
/// 67,108,864 bytes, makes no run, and writes the verdict on the journal: `yes`, `no: illegal
/// entry N` or `no: not a run`. The journal begins with the first line that begins with
/// `mtapi-journal `. The whole output is made before its first byte is written.
///
/// A refusal or a fault is said on `err`; a fault of `err` changes nothing.
///
/// # Errors
///
/// - `2`: the words are none of the command.
/// - `3`: the input is no workload; of `check`, it is too long, or no workload stands before the
///   journal, or what stands behind it is no journal, looked for in this order.
/// - `4`: a read failed.
/// - `5`: a write failed. A prefix of the output was written; with the other ones nothing was.
/// - `6`: there was no memory.
/// - `7`: a thread was refused.
/// - `8`: the turns of the run are used up.
/// - `9`: the verdict on the journal isn't yes. It was written.
pub fn command<R: Threads + Wait + Sync, S: Source, W: Sink, E: Sink, A: ActionSource, B: Beside>(
    rt: &R,
    alloc: Global,
    words: &[&str],
    src: &mut S,
    out: &mut W,
    err: &mut E,
    acts: &mut A,
    beside: &mut B,
) -> Outcome
    // The headline. Where a run finished, the journal is that of a run of the workload that was asked for, which is the one that the
    // bytes read are, or the generated one; and what was written is the output defined for that journal: all of it with the status 0,
    // and a prefix of it with 5.
    ensures headline { result.status ≡ 0
        → IfSome result.journal (λ journal.
        RanWorkload (asked_by_words (texts words.now)) (S.left src.old) journal (Appends (W.held out.old) (W.held out.new))) }
    ensures headline_cut { result.status ≡ 5
        → IfSome result.journal (λ journal.
        RanWorkload (asked_by_words (texts words.now)) (S.left src.old) journal (AppendsFront (W.held out.old) (W.held out.new))) }

    // The journal of a run is written as text 2.
    ensures text_two { IfSome result.journal (λ journal. IsTextTwo (journal_text journal)) }

    // Of a settled workload the statements alone tell what is written, for every number of workers: its plain report; and of the generated
    // ones, which are settled, a summary that is the same for every number of workers.
    ensures settled { result.status ≡ 0
        → IfSome result.journal (λ journal.
        IsPlainOutput (asked_by_words (texts words.now)) (S.left src.old) journal (Appends (W.held out.old) (W.held out.new))) }
    ensures settled_cut { result.status ≡ 5
        → IfSome result.journal (λ journal.
        IsPlainOutput (asked_by_words (texts words.now)) (S.left src.old) journal (AppendsFront (W.held out.old) (W.held out.new))) }
    ensures journal { IsSome result.journal
        ↔ ((judges (asked_by_words (texts words.now)) ≡ false) × ((result.status ≡ 0) ⊎ (result.status ≡ 5))) }
    ensures spent { IsSome result.spent ↔ (result.status ≡ 8) }

    // Each status has its cause.
    ensures usage { (result.status ≡ 2) ↔ (asked_by_words (texts words.now) ≡ None) }
    ensures refused { judges (asked_by_words (texts words.now)) ≡ false → result.status ≡ 3
        → IfSome (S.left src.old) IsRefused }
    ensures refused_where { reads_workload (asked_by_words (texts words.now)) ≡ true → (Rose (S.faults src.old) (S.faults src.new) → ⊥)
        → IfSome (S.left src.old) (λ bytes. IsRefused bytes → (result.status ≡ 3) ⊎ (result.status ≡ 6)) }
    ensures reading { (result.status ≡ 3) ⊎ (result.status ≡ 4)
        → (reads_workload (asked_by_words (texts words.now)) ≡ true) ⊎ (judges (asked_by_words (texts words.now)) ≡ true) }
    ensures read_fault { result.status ≡ 4 → Rose (S.faults src.old) (S.faults src.new) }
    ensures write_fault { result.status ≡ 5 → Rose (W.faults out.old) (W.faults out.new) }
    ensures no_thread { result.status ≡ 7 → Rose (B.refusals beside.old) (B.refusals beside.new) }
    ensures all_threads { (result.status ≡ 7 → ⊥) → B.refusals beside.new ≡ B.refusals beside.old }
    ensures turns_spent { IfSome result.spent (λ shown. 2 ^ 62 ≤ shown) }

    // Nothing is written with another status.
    ensures nothing { (result.status ≡ 0 → ⊥) → (result.status ≡ 5 → ⊥) → (result.status ≡ 9 → ⊥)
        → W.held out.new ≡ W.held out.old }

    // A workload, without a fault and with a thread for everyone, ends with 0, with 6 when out of memory, or with turns that are used up.
    ensures complete { reads_workload (asked_by_words (texts words.now)) ≡ true → (Rose (S.faults src.old) (S.faults src.new) → ⊥)
        → (Rose (W.faults out.old) (W.faults out.new) → ⊥)
        → (Rose (B.refusals beside.old) (B.refusals beside.new) → ⊥)
        → IfSome (S.left src.old) (λ bytes. IsWorkload bytes → (result.status ≡ 0) ⊎ (result.status ≡ 6) ⊎ (result.status ≡ 8)) }
    ensures complete_generated { is_some (asked_by_words (texts words.now)) ≡ true
        → reads_workload (asked_by_words (texts words.now)) ≡ false
        → judges (asked_by_words (texts words.now)) ≡ false → (Rose (W.faults out.old) (W.faults out.new) → ⊥) → (Rose (B.refusals beside.old) (B.refusals beside.new) → ⊥)
        → (result.status ≡ 0) ⊎ (result.status ≡ 6) ⊎ (result.status ≡ 8) }

    // A journal that is judged. With 0 and with 9 the verdict on it was written: yes, and another one; with 5 a prefix of it.
    ensures check_yes { judges (asked_by_words (texts words.now)) ≡ true → result.status ≡ 0
        → IsJudged (S.left src.old) Yes × Appends (W.held out.old) (W.held out.new) (verdict_line Yes) }
    ensures check_no { judges (asked_by_words (texts words.now)) ≡ true → result.status ≡ 9
        → (v : Verdict) × (v ≡ Yes → ⊥) × IsJudged (S.left src.old) v × Appends (W.held out.old) (W.held out.new) (verdict_line v) }
    ensures check_cut { judges (asked_by_words (texts words.now)) ≡ true → result.status ≡ 5
        → (v : Verdict) × IsJudged (S.left src.old) v × AppendsFront (W.held out.old) (W.held out.new) (verdict_line v) }
    ensures check_nine { result.status ≡ 9 → judges (asked_by_words (texts words.now)) ≡ true }

    // What is refused in place of being judged.
    ensures check_refused { judges (asked_by_words (texts words.now)) ≡ true → result.status ≡ 3
        → IfSome (S.left src.old) IsRefusedInput }
    ensures check_refused_where { judges (asked_by_words (texts words.now)) ≡ true
        → (Rose (S.faults src.old) (S.faults src.new) → ⊥)
        → IfSome (S.left src.old) (λ bytes. IsRefusedInput bytes → (result.status ≡ 3) ⊎ (result.status ≡ 6)) }

    // Without a fault it ends with 0, with 9, with 3, or with 6 when out of memory; and but for 6 the input alone tells with which.
    ensures check_complete { judges (asked_by_words (texts words.now)) ≡ true
        → (Rose (S.faults src.old) (S.faults src.new) → ⊥)
        → (Rose (W.faults out.old) (W.faults out.new) → ⊥)
        → (result.status ≡ 0) ⊎ (result.status ≡ 3) ⊎ (result.status ≡ 6) ⊎ (result.status ≡ 9) }
    ensures check_decides { judges (asked_by_words (texts words.now)) ≡ true
        → (Rose (S.faults src.old) (S.faults src.new) → ⊥)
        → (Rose (W.faults out.old) (W.faults out.new) → ⊥)
        → IfSome (S.left src.old) (λ bytes. (load : Workload) (j : Journal) (v : Verdict) → IsInput bytes load j → IsVerdict load j v
        → (result.status ≡ verdict_status v) ⊎ (result.status ≡ 6)) }

    // The status, the journal, what was written and what was said are those of one end of the command; and no more is read than it takes.
    ensures ended { HasEnded (asked_by_words (texts words.now))
        (record { left = S.left src.old; reads = S.faults src.old; writes = W.faults out.old; held = W.held out.old; threads = B.refusals beside.old; says = E.faults err.old; said = E.held err.old })
        (record { left = S.left src.new; reads = S.faults src.new; writes = W.faults out.new; held = W.held out.new; threads = B.refusals beside.new; says = E.faults err.new; said = E.held err.new })
        result }
    ensures read { IsReadFor (asked_by_words (texts words.now)) (S.left src.old) (S.left src.new) (S.faults src.old) (S.faults src.new) result.status result.journal }

    // Where no run is made, no thread is asked for, and no action.
    ensures idle { (judges (asked_by_words (texts words.now)) ≡ true) ⊎ StartsNothing result.status
        → (acts.new ≡ acts.old) × (beside.new ≡ beside.old) }
    ensures later { (S.faults src.old ≤ S.faults src.new) × (W.faults out.old ≤ W.faults out.new)
        × (E.faults err.old ≤ E.faults err.new) }
{
    let end = end_of(rt, alloc, words, src, out, acts, beside);
    tell(alloc, end, err)
}
