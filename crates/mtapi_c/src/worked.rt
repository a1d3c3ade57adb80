//! Worked rows of what C is told. The function does nothing: its contract is the rows.

ghost use Rattle.mtapi_c.specs.Worked.{WorkedExports};

/// What C is told of replies, the settings that are out of range, and numbers in memory.
#[tactic(auto, unfolding(action_fn::specs::Answers::answer_of))]
pub fn worked_calls()
    ensures { WorkedExports }
{}
