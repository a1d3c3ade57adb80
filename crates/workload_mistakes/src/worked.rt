//! Worked rows of what is told of mistakes. The function does nothing: its contract is the rows.

ghost use Rattle.workload_mistakes.specs.Worked.{WorkedMistakes};

/// In which order mistakes are told, what the page says of them, what is read in place of a faulty line, how an explanation ends, and
/// where it ends early.
pub fn worked_mistakes()
    ensures { WorkedMistakes }
{}
