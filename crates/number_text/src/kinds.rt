//! Kinds.
ghost use Rattle.std.specs.Prelude.{◌≡◌, ◌↔◌, Some};
ghost use Rattle.mtapi_values.specs.declared.kinds.Kind.{Kind};
ghost use Rattle.mtapi_values.specs.Kinds.{kind_word, kind_named};

use mtapi_values::Kind;
use std::str;

/// The kind whose word a text is: the inverse of `Kind::word`.
///
/// # Errors
///
/// - `None`: no kind has the word. A text that isn't UTF-8 is the word of none.
pub fn kind_of(text: &[u8]) -> Option<Kind>
    ensures value { result ≡ kind_named text.now }
    ensures inverse { (kind : Kind) → (result ≡ Some kind) ↔ (text.now ≡ kind_word kind) }
{
    match str::from_utf8(text) {
        Ok(word) => Kind::from_word(word),
        Err(_) => None,
    }
}
