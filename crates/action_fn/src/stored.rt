//! Functions that are stored beside what they answer.

ghost use Rattle.std.specs.Prelude.{◌≡◌, true};
ghost use Rattle.action_fn.specs.Answers.{answer_of, is_pure};

use crate::finished::{ActEnd, Finished};
use mtapi_values::{Args, Kind};

/// A function over argument lists.
pub type ActFn = fn(&Args) -> ActEnd;

/// A function pointer beside the fact that it answers a pure kind on every list.
#[derive(Drop)]
pub struct StoredFn {
    /// The kind that the function answers.
    pub kind: Kind,
    run: ActFn,
    ghost pure: { is_pure kind ≡ true },
    ghost callable: { ActFn.IsAlwaysCallable run },
    ghost answers: { (args : _) (end : _) → ActFn.post run args end → end ≡ answer_of kind args.now },
}

impl StoredFn {
    /// Stores a function that answers this kind on every list.
    pub fn new(kind: Kind, f: fn(&Args) -> ActEnd) -> StoredFn
        requires pure { is_pure kind ≡ true }
        requires callable { ActFn.IsAlwaysCallable f }
        requires answers { (args : _) (end : _) → ActFn.post f args end → end ≡ answer_of kind args.now }
        ensures { result.kind ≡ kind }
    {
        StoredFn { kind, run: f }
    }

    /// The kind that the function answers.
    pub fn kind(&self) -> Kind
        ensures value { result ≡ self.now.kind }
        ensures pure { is_pure result ≡ true }
    {
        self.kind
    }

    /// Calls the function. It takes no memory.
    pub fn call(&self, args: Args) -> Finished
        ensures kind { result.kind ≡ self.now.kind }
        ensures args { result.args ≡ args }
    {
        let end = (self.run)(&args);
        Finished::new(self.kind, args, end)
    }

    /// The same function again.
    pub fn again(&self) -> StoredFn
        ensures { result.kind ≡ self.now.kind }
    {
        StoredFn {
            kind: self.kind,
            run: self.run,
        }
    }
}
