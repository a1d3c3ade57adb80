ghost use Rattle.group_core.specs.Worked.{WorkedMembers};

/// Worked rows of the members of a group: in which order they are handed out. The function does nothing: its contract is the rows.
pub fn worked_members()
    ensures { WorkedMembers }
{}
