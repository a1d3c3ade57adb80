//! Worked rows. The function does nothing: its contract is the rows.

ghost use Rattle.nested_pieces.specs.Worked.{WorkedRounds, WorkedWorks};

/// What pieces, results and numbers a work has, and what entries nested rounds have.
pub fn worked_nested()
    ensures works { WorkedWorks }
    ensures rounds { WorkedRounds }
{}
