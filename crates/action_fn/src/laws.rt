//! What follows from the definitions alone.

ghost use Rattle.std.specs.Int.{IsGcd};
ghost use Rattle.action_fn.specs.Answers.{gcd};
ghost use Rattle.action_fn.specs.Worked.{WorkedAnswers};

/// What the definition calls the greatest common divisor divides both numbers, and each number that divides both divides it.
pub fn law_gcd(a: u64, b: u64)
    ensures { IsGcd a b (gcd a b) }
{}

/// What each pure kind answers, on worked rows.
pub fn worked_answers()
    ensures { WorkedAnswers }
{}
