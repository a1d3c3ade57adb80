//! Marks for the seats of a node.

ghost use Rattle.std.specs.Prelude.{◌≡◌};
ghost use Rattle.mtapi_values.specs.Seats.{any_mark};

/// How many seats a node may have.
pub const SEATS: usize = 25;

/// Whether some seat is marked.
pub fn is_any(marks: &[bool]) -> bool
    ensures { result ≡ any_mark marks.now }
{
    for mark in marks {
        if *mark {
            return true;
        }
    }
    false
}
