//! Worked rows of the objects. The function does nothing: its contract is the rows.

ghost use Rattle.mtapi_objects.specs.Worked.{WorkedObjects};

/// What calls on one object are refused for and what they leave, kind by kind.
#[tactic(auto, unfolding(crate::specs::Actions::has_worker, crate::specs::Tasks::end_each, crate::specs::Groups::endings))]
pub fn worked_objects()
    ensures { WorkedObjects }
{}
