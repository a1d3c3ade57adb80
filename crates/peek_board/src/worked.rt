//! Worked rows of a board. The function does nothing: its contract is the rows.

ghost use Rattle.peek_board.specs.Worked.{WorkedSlotNumbers};

/// The numbers by which a board says how tasks ended, what a seat hears, and what seats that come back have told.
pub fn worked_numbers()
    ensures { WorkedSlotNumbers }
{}
