//! Work of your own on plain integers, on the workers of a node: no action of the runtime is named, and no clause is owed.
//!
//! [`Work`] says what is done with the numbers of a task. [`PlainWork`] makes a node's sets of actions of it.
#![tactic(auto)]

ghost use Rattle.std.specs.Prelude.{◌≡◌, ◌↔◌, IsTrue, true, take};
ghost use Rattle.action_fn.specs.Answers.{answer_of, is_pure};

use action_fn::{ActEnd, ActionSet, ActionSource, Finished, answer_of};
use mtapi_values::{Args, Kind};
use std::sync::Wait;

/// What a worker does with the numbers of a task.
pub trait Work: Drop {
    /// Works on the numbers of a task of kind `echo`, at most 16, on the thread of a worker. It may wait. The node can't end before it
    /// has returned.
    fn work<R: Wait>(&mut self, rt: &R, numbers: &[i64]);
}

/// The actions of a worker that does this work: it works on the numbers of a task of kind `echo`, and answers what each kind answers.
///
/// The answer isn't the work's to give: the history of a node is legal only with that of the kind, and for `echo` this is the numbers
/// themselves. What comes of the work is what it keeps, in itself or behind a reference that it holds.
///
/// It is also where the workers get theirs. Each begins with a copy of the work, and the sets that the node gives back have what
/// became of the copies.
#[derive(Drop)]
pub struct PlainWork<W: Work> {
    /// The work.
    pub work: W,
}

impl<W: Work> ActionSet for PlainWork<W> {
    fn run<R: Wait>(&mut self, rt: &R, kind: Kind, args: Args) -> Finished {
        if let Kind::Echo = kind {
            self.work.work(rt, args.as_slice());
        }
        let end = answer_of(kind, &args);
        Finished::new(kind, args, end)
    }
}

impl<W: Work + Copy + Send> ActionSource for PlainWork<W> {
    type Set = PlainWork<W>;

    fn for_worker(&mut self, _worker: u32) -> PlainWork<W> {
        PlainWork { work: self.work }
    }
}

/// The arguments of a task with these numbers, of which the first 16 are taken.
pub fn args_of(numbers: &[i64]) -> Args
    ensures { result ≡ take 16 numbers.now }
{
    let mut args = Args::new();
    for number in numbers {
        if !args.push(*number) {
            break;
        }
    }
    args
}

#[tactic(auto, using(crate::proofs::Same::same_numbers))]
fn are_same(a: &ActEnd, b: &ActEnd) -> bool
    ensures { IsTrue result ↔ a.now ≡ b.now }
{
    match (a, b) {
        (ActEnd::Done(these), ActEnd::Done(those)) => these == those,
        (ActEnd::Fails(this), ActEnd::Fails(that)) => this == that,
        _ => false,
    }
}

/// Puts an answer beside what it answers, as `Finished::new` does, for a set of actions of your own: it looks whether the answer is the
/// kind's own, so that another one stops also a run of which nothing was proved.
pub fn checked(kind: Kind, args: Args, end: ActEnd) -> Finished
    requires pure { is_pure kind ≡ true }
    requires answer { end ≡ answer_of kind args }
    ensures { result ≡ record { kind = kind; args = args; end = end } }
{
    if !are_same(&end, &answer_of(kind, &args)) {
        unreachable!("not the answer of this kind")
    }
    Finished::new(kind, args, end)
}
