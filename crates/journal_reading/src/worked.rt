//! Worked rows of how a program ends. The function does nothing: its contract is the rows.

ghost use Rattle.journal_reading.specs.Worked.{WorkedShowEnds};

/// The status and the message of each end, for either program.
pub fn worked_ends()
    ensures { WorkedShowEnds }
{}
