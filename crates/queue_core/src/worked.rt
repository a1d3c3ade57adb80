ghost use Rattle.queue_core.specs.Worked.{WorkedPuts};

/// Worked rows of the tasks of a queue: which puts are refused, and which task is the head. The function does nothing: its contract is
/// the rows.
pub fn worked_puts()
    ensures { WorkedPuts }
{}
