//! Arguments and answers in little room.

ghost use Rattle.std.specs.Prelude.{◌≡◌, [], ◌∷◌, IfSome, true};
ghost use Rattle.action_fn.specs.Answers.{is_pure};
ghost use Rattle.action_fn.specs.declared.finished.ActEnd.TheVariants.{Done};
ghost use Rattle.node_journals.specs.Few.{few_numbers, few_end};

use action_fn::{ActEnd, Finished};
use mtapi_values::{Args, Kind, MtapiStatus};
use std::marker::Model;

/// A list of at most two numbers.
#[derive(Clone, Copy, Drop)]
pub enum FewArgs {
    /// None.
    Nothing,
    /// One.
    One(i64),
    /// Two.
    Two(i64, i64),
}

impl FewArgs {
    /// The same list. None where it has more than two numbers.
    pub fn of(args: &Args) -> Option<FewArgs>
        ensures { IfSome result (λ few. few_numbers few ≡ args.now) }
    {
        match args.as_slice() {
            [] => Some(FewArgs::Nothing),
            [first] => Some(FewArgs::One(*first)),
            [first, second] => Some(FewArgs::Two(*first, *second)),
            _ => None,
        }
    }

    /// The list in full. It takes no memory.
    pub fn full(&self) -> Args
        ensures { result ≡ few_numbers self.now }
    {
        let mut args = Args::new();
        match self {
            FewArgs::Nothing => {}
            FewArgs::One(first) => {
                args.push(*first);
            }
            FewArgs::Two(first, second) => {
                args.push(*first);
                args.push(*second);
            }
        }
        args
    }
}

// An answer of one number, or a failure.
#[derive(Clone, Copy, Drop)]
enum FewEnd {
    Number(i64),
    Fails(MtapiStatus),
}

// None where the answer has another count of numbers.
fn few_end_of(end: &ActEnd) -> Option<FewEnd>
    ensures { IfSome result (λ few. few_end few ≡ end.now) }
{
    match end {
        ActEnd::Done(numbers) => match numbers.as_slice() {
            [number] => Some(FewEnd::Number(*number)),
            _ => None,
        },
        ActEnd::Fails(status) => Some(FewEnd::Fails(*status)),
    }
}

impl FewEnd {
    fn full(&self) -> ActEnd
        ensures { result ≡ few_end self.now }
    {
        match self {
            FewEnd::Number(number) => {
                let mut numbers = Args::new();
                numbers.push(*number);
                ActEnd::Done(numbers)
            }
            FewEnd::Fails(status) => ActEnd::Fails(*status),
        }
    }
}

/// A pure kind, two arguments at most, and the answer of this kind to them, which is one number or a failure.
#[derive(Drop)]
pub struct FewFinished {
    kind: Kind,
    args: FewArgs,
    end: FewEnd,
}

impl Model for FewFinished {
    ghost use Rattle.std.specs.Prelude.{◌≡◌, true};
    ghost use Rattle.action_fn.specs.Answers.{Answered, answer_of, is_pure};
    ghost use Rattle.node_journals.specs.Few.{few_numbers, few_end};

    ghost Value = { Answered };

    ghost view = { λ f. record { kind = f.kind; args = few_numbers f.args; end = few_end f.end } };

    ghost invariant = { λ f. (is_pure f.kind ≡ true) × (few_end f.end ≡ answer_of f.kind (few_numbers f.args)) };
}

impl FewFinished {
    /// The same. None where there are more than two arguments, or another count of numbers than one is answered.
    pub fn of(done: &Finished) -> Option<FewFinished>
        ensures { IfSome result (λ few. few ≡ done.now) }
    {
        let kind = done.kind();
        let end = done.end();
        match (FewArgs::of(done.args()), few_end_of(&end)) {
            (Some(args), Some(end)) => Some(FewFinished { kind, args, end }),
            _ => None,
        }
    }

    /// The same in full. It takes no memory.
    pub fn full(&self) -> Finished
        ensures { result ≡ self.now }
    {
        Finished::new(self.kind, self.args.full(), self.end.full())
    }

    /// The number that is answered. None where it fails.
    pub fn number(&self) -> Option<i64>
        ensures { IfSome result (λ number. self.now.end ≡ Done (number ∷ [])) }
    {
        match self.end {
            FewEnd::Number(number) => Some(number),
            FewEnd::Fails(_) => None,
        }
    }
}
