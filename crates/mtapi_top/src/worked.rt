//! Worked rows of how the command ends. The function does nothing: its contract is the rows.

ghost use Rattle.node_journals.specs.declared.entries.Journal.{Journal};
ghost use Rattle.mtapi_top.specs.Worked.{WorkedEnds};

/// The status and the message of each end, and what shows it.
pub fn worked_ends()
    ensures { (j : Journal) → WorkedEnds j }
{}
