//! Whether an op is the one that a statement asks for.
ghost use Rattle.std.specs.Prelude.{◌≡◌, IsTrue};
ghost use Rattle.run_check.specs.Same.{IsStated};

use mtapi_machine::Op;

/// Whether an op is this one, which a statement asks for.
pub fn same_op(op: &Op, asked: &Op) -> bool
    ensures same { IsTrue result → op.now ≡ asked.now }
    ensures other { IsStated asked.now → op.now ≡ asked.now → IsTrue result }
{
    match asked {
        // No statement asks for what a worker hands in.
        Op::Finish { .. } => false,
        _ => op == asked,
    }
}
