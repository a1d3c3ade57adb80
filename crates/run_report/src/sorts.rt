//! What the report says of a statement.
ghost use Rattle.std.specs.Prelude.{◌≡◌};
ghost use Rattle.run_report.specs.Calls.{shown_of};

use workload_file::Deed;

/// What the report says of a statement.
#[derive(Clone, Copy, Debug, Drop, PartialEq, Eq)]
pub enum Shown {
    /// What became of its task.
    Task,
    /// Nothing.
    Nothing,
    /// The number that it answered, or its status.
    Number,
    /// The task that it was given, or its status.
    Given,
    /// Its status, where it answered one.
    Status,
}

/// What the report says of a statement that does this.
#[tactic(auto, unfolding(crate::specs::Calls::shown_of))]
pub fn shown_of(deed: &Deed) -> Shown
    ensures { result ≡ shown_of deed.now }
{
    match deed {
        Deed::Begin => Shown::Nothing,
        Deed::Start { .. } | Deed::Enqueue { .. } => Shown::Task,
        Deed::Lock { .. } | Deed::Read { .. } => Shown::Number,
        Deed::WaitAny { .. } => Shown::Given,
        _ => Shown::Status,
    }
}
