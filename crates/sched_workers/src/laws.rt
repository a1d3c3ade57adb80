//! What the contracts of callers say, by worked calls.

ghost use Rattle.sched_workers.specs.Worked.{WorkedAttributes};

/// The op that a call with attributes asks for, by worked attributes.
pub fn worked_attributes()
    ensures { WorkedAttributes }
{}
