//! Worked pools of a node.

ghost use Rattle.node_core.specs.Worked.{WorkedAgreement};

/// Pools that agree with no list of objects: one whose empty slot would issue a handle again, and one that doesn't retire the slot of
/// a last handle. The function does nothing: its contract is that they are refused.
pub fn worked_agreement()
    ensures { WorkedAgreement }
{}
