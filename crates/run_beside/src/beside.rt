//! A job runs beside the calling thread.
ghost use Rattle.std.specs.Prelude.{◌≡◌, ℕ, ◌+◌, ◌≤◌, Bool, true, not, IfOk, IfErr, IsErr};
ghost use Rattle.std.specs.Bool.{OnTrue, OnFalse};
ghost use Rattle.run_beside.specs.Pairs.{HasRisen, IsOutcome, MayRun, Ran};

use std::snapshot::Snapshot;
use std::sync::Wait;
use std::sync::atomic::{AtomicBool, Ordering};
use std::thread;
use std::thread::{Promise, Threads as StartsThreads};

/// What a thread of its own does.
pub trait Job: Send + Drop {
    type Done: Send + Drop;

    /// What the result keeps.
    ghost promise: { Self → Self.Done → Type 0 };

    fn go<R: Wait>(self, rt: &R) -> Self::Done
        ensures { promise self result };
}

/// That the system had no thread for a pair. `pair` alone makes one, so that no other call raises the count for that.
#[derive(Drop)]
pub struct ThreadRefused {
    only_by_pair: (),
}

/// Says which pairs are refused, and counts them.
pub trait Beside {
    // How many pairs were refused.
    ghost refusals: { Self → ℕ };

    // Which of the pairs to come it refuses. The next one is 0.
    ghost refuses: { Self → ℕ → Bool };

    /// Whether the next pair may be made. Where not, it is counted as refused.
    fn admits(&mut self) -> bool
        ensures decided { result ≡ not (refuses self.old 0) }
        ensures follows { (n : ℕ) → refuses self.new n ≡ refuses self.old (n + 1) }
        ensures grows { refusals self.old ≤ refusals self.new }
        ensures stays { OnTrue result (refusals self.new ≡ refusals self.old) }
        ensures refused { OnFalse result (HasRisen (refusals self.old) (refusals self.new)) };

    /// Counts a pair for which the system had no thread.
    fn count_refusal(&mut self, refused: ThreadRefused)
        ensures same { (n : ℕ) → refuses self.new n ≡ refuses self.old n }
        ensures grows { refusals self.old ≤ refusals self.new }
        ensures rose { HasRisen (refusals self.old) (refusals self.new) };
}

/// What the closure of a job's thread promises: the result of the job, or the job itself, unrun.
#[derive(Drop)]
struct Kept<A: Job>(Snapshot<A>);

impl<A: Job> Promise<Result<A::Done, A>> for Kept<A> {
    ghost use Rattle.run_beside.specs.Pairs.{IsOutcome};

    ghost kept_by = { λ p r. IsOutcome A.promise p.0.value r };
}

// The result of a job that its thread was to run. If that gave it back unrun, it is run here.
fn result_of<R: Wait, A: Job>(rt: &R, outcome: Result<A::Done, A>) -> A::Done
    ensures { (a : A) → IsOutcome A.promise a outcome → A.promise a result }
{
    match outcome {
        Ok(done) => done,
        Err(a) => a.go(rt),
    }
}

/// Runs `a` in a thread of its own and `b` with `carry` in this one, and gives both results.
///
/// Where no thread is had, neither is run: it gives `a`, `carry` and `b` back, and `beside` has counted
/// a refusal. Where both are run, it has counted none but those of `b`.
pub fn pair<
    B: Beside,
    R: StartsThreads + Wait + Sync,
    A: Job,
    C: Drop,
    T,
    F: FnOnce(&mut B, C) -> T,
>(beside: &mut B, rt: &R, a: A, carry: C, b: F) -> Result<(A::Done, T), (A, C, F)>
    requires { MayRun F.FnOnce b carry }
    ensures done { IfOk result (λ r. A.promise a r.0) }
    ensures planned { B.refuses beside.old 0 ≡ true → IsErr result }
    ensures ran { IfOk result (λ r. Ran F.FnOnce B.refusals b carry (B.refusals beside.old) r.1 (B.refusals beside.new)) }
    ensures unrun { IfErr result (λ e. e.0 ≡ a) }
    ensures refused { IfErr result (λ e. HasRisen (B.refusals beside.old) (B.refusals beside.new) × (e.1 ≡ carry) × (e.2 ≡ b)) }
{
    if !beside.admits() {
        return Err((a, carry, b));
    }
    // Whether the closure of the thread is to run the job: where no thread was had, it gives it back.
    let runs = AtomicBool::new(true);
    let runs = &runs;
    let (back, outcome) = thread::scope(
        thread::scope_env(),
        rt,
        move |scope| -> (&mut B, Result<(A::Done, T), (A, C, F)>)
            requires { MayRun F.FnOnce b carry }
            ensures same { result.0.ghost_name ≡ beside.entry.ghost_name }
            ensures done { IfOk result.1 (λ r. A.promise a r.0) }
            ensures ran { IfOk result.1 (λ r. Ran F.FnOnce B.refusals b carry (B.refusals beside.entry.now) r.1 (B.refusals result.0.now)) }
            ensures unrun { IfErr result.1 (λ e. e.0 ≡ a) }
            ensures refused { IfErr result.1 (λ e. HasRisen (B.refusals beside.entry.now) (B.refusals result.0.now) × (e.1 ≡ carry) × (e.2 ≡ b)) }
        {
            let promise = Kept(Snapshot::of(&a));
            let job = move || -> Result<A::Done, A>
                ensures { IsOutcome A.promise a result }
            {
                if runs.load(Ordering::SeqCst) {
                    Ok(a.go(rt))
                } else {
                    Err(a)
                }
            };
            match scope.spawn_with(promise, job) {
                Ok(child) => {
                    let t = b(&mut *beside, carry);
                    (beside, Ok((result_of(rt, child.join(rt)), t)))
                }
                Err(refused) => {
                    runs.store(false, Ordering::SeqCst);
                    match (refused.value)() {
                        Err(a) => {
                            beside.count_refusal(ThreadRefused { only_by_pair: () });
                            (beside, Err((a, carry, b)))
                        }
                        Ok(done) => {
                            let t = b(&mut *beside, carry);
                            (beside, Ok((done, t)))
                        }
                    }
                }
            }
        },
    );
    // Reading it here tells what `beside` is at the end.
    let _now = &*back;
    outcome
}
