//! What is read of the statements of a part.
ghost use Rattle.std.specs.Prelude.{◌≡◌};
ghost use Rattle.workload_runs.specs.Parts.{has_begin};

use workload_file::Statement;

/// Whether one of the statements is `begin`.
#[tactic(auto, unfolding(crate::specs::Parts::has_begin))]
pub fn has_begin(statements: &[Statement]) -> bool
    ensures { result ≡ has_begin statements.now }
{
    workload_file::has_begin(statements)
}
