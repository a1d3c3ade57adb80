//! Worked rows of the values. The function does nothing: its contract is the rows.

ghost use Rattle.mtapi_values.specs.Worked.{WorkedValues};

/// Each table with its numbers, words and ranges, and what calls on attributes answer.
#[tactic(auto, unfolding(crate::specs::Kinds::kind_named))]
pub fn worked_values()
    ensures { WorkedValues }
{}
