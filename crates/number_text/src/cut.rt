//! Texts cut at a byte.
ghost use Rattle.std.specs.Prelude.{◌≡◌, ◌==◌, ◌<◌, ◌∷◌, [], length, position, IfSome, IfNone};
ghost use Rattle.std.specs.List.{before_first, after_first};
ghost use Rattle.number_text.specs.Lists.{between, pieces_of};

use memchr::memchr;

/// Below so many bytes a search by vectors costs more than a look at each byte.
const FEW: usize = 64;

/// The first place of a byte in a long text. It stands apart, so that a cut of a short one is put in where it is asked for.
#[inline(never)]
#[tactic(auto, using(crate::proofs::Pieces::first_place))]
fn far_place(text: &[u8], byte: u8) -> Option<usize>
    ensures { result ≡ position (λ b. b == byte) text.now }
{
    memchr(byte, text)
}

/// The first place of a byte.
#[inline]
fn place_of(text: &[u8], byte: u8) -> Option<usize>
    ensures { result ≡ position (λ b. b == byte) text.now }
{
    if text.len() < FEW {
        text.iter().position(|b| *b == byte)
    } else {
        far_place(text, byte)
    }
}

/// The text before the first such byte, and the text after it where it stands.
#[inline]
pub fn cut_at(text: &[u8], byte: u8) -> (&[u8], Option<&[u8]>)
    ensures prefix { result.0.now ≡ before_first (λ b. b == byte) text.now }
    ensures parts { between byte text.now ≡ result.0.now ∷ pieces_of byte result.1 }
    ensures back { IfSome result.1 (λ rest. rest.now ≡ after_first (λ b. b == byte) text.now) }
    ensures none { IfNone result.1 (after_first (λ b. b == byte) text.now ≡ []) }
    ensures shorter { IfSome result.1 (λ rest. length rest.now < length text.now) }
{
    match place_of(text, byte) {
        Some(at) => (&text[..at], Some(&text[at + 1..])),
        None => (text, None),
    }
}
