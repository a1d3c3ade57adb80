//! The kinds of action by number.

ghost use Rattle.std.specs.Prelude.{◌≡◌, Some};
ghost use Rattle.mtapi_c.specs.Kinds.{number_of_kind, kind_with_number};

use mtapi_values::Kind;

/// The number of a kind, 1 to 10.
pub fn number_of_kind(kind: Kind) -> u32
    ensures value { result ≡ number_of_kind kind }
    ensures back { kind_with_number result ≡ Some kind }
{
    match kind {
        Kind::Add => 1,
        Kind::Mul => 2,
        Kind::Max => 3,
        Kind::Div => 4,
        Kind::Gcd => 5,
        Kind::Echo => 6,
        Kind::Triangle => 7,
        Kind::Fail => 8,
        Kind::Watch => 9,
        Kind::Tally => 10,
    }
}

/// The kind with this number.
///
/// # Errors
///
/// - `None`: no kind has the number.
pub fn kind_with_number(number: u32) -> Option<Kind>
    ensures { result ≡ kind_with_number number }
{
    match number {
        1 => Some(Kind::Add),
        2 => Some(Kind::Mul),
        3 => Some(Kind::Max),
        4 => Some(Kind::Div),
        5 => Some(Kind::Gcd),
        6 => Some(Kind::Echo),
        7 => Some(Kind::Triangle),
        8 => Some(Kind::Fail),
        9 => Some(Kind::Watch),
        10 => Some(Kind::Tally),
        _ => None,
    }
}
