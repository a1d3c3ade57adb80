//! The kinds of action, each with its word.

ghost use Rattle.std.specs.Prelude.{◌≡◌, ◌≢◌, ◌↔◌, Some, IsNone};
ghost use Rattle.mtapi_values.specs.declared.kinds.Kind.{Kind};
ghost use Rattle.mtapi_values.specs.Kinds.{kind_word, kind_named};

use crate::names::{Named, value_named};

/// What an action does. The first eight kinds are pure: their arguments alone settle the answer. `Watch` and `Tally` are not.
#[derive(Clone, Copy, Debug, Drop, PartialEq, Eq)]
pub enum Kind {
    /// The sum.
    Add,
    /// The product.
    Mul,
    /// The greatest argument.
    Max,
    /// The quotient of two numbers, cut toward zero.
    Div,
    /// The greatest common divisor of two numbers.
    Gcd,
    /// The arguments as they are.
    Echo,
    /// The sum of the numbers from 1 to the argument.
    Triangle,
    /// Always fails.
    Fail,
    /// Looks again and again whether cancelling was asked for.
    Watch,
    /// Adds a number to a cell of a segment, under a mutex.
    Tally,
}

/// Each kind once.
const ALL_KINDS: [Kind; 10] = [
    Kind::Add,
    Kind::Mul,
    Kind::Max,
    Kind::Div,
    Kind::Gcd,
    Kind::Echo,
    Kind::Triangle,
    Kind::Fail,
    Kind::Watch,
    Kind::Tally,
];

impl Kind {
    /// The kind's word. No two kinds share one.
    #[tactic(auto, using(crate::proofs::NameLemmas::one_name, crate::proofs::ValueTables::kind_finds_each))]
    pub fn word(self) -> &'static str
        ensures value { result.now ≡ kind_word self }
        ensures alone { (other : Kind) → kind_word other ≡ result.now → other ≡ self }
    {
        self.text()
    }

    // The same, by its table.
    fn text(self) -> &'static str
        ensures { result.now ≡ kind_word self }
    {
        match self {
            Kind::Add => "add",
            Kind::Mul => "mul",
            Kind::Max => "max",
            Kind::Div => "div",
            Kind::Gcd => "gcd",
            Kind::Echo => "echo",
            Kind::Triangle => "triangle",
            Kind::Fail => "fail",
            Kind::Watch => "watch",
            Kind::Tally => "tally",
        }
    }

    /// The kind with this word.
    ///
    /// # Errors
    ///
    /// - `None`: no kind has the word.
    pub fn from_word(text: &str) -> Option<Kind>
        ensures value { result ≡ kind_named text.now }
        ensures known { (kind : Kind) → (result ≡ Some kind) ↔ (text.now ≡ kind_word kind) }
        ensures unknown { IsNone result ↔ ((kind : Kind) → text.now ≢ kind_word kind) }
    {
        value_named(&ALL_KINDS, text)
    }
}

impl Named for Kind {
    ghost named = { kind_word };

    fn name_of(&self) -> &'static str {
        self.word()
    }
}
