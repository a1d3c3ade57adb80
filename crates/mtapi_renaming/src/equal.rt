//! Whether two replies are the same.

ghost use Rattle.std.specs.Prelude.{◌≡◌};
ghost use Rattle.std.specs.Bool.{Decides};

use mtapi_machine::Reply;

/// Whether two replies are the same.
pub fn same_reply(a: &Reply, b: &Reply) -> bool
    ensures { Decides result (a.now ≡ b.now) }
{
    a == b
}
