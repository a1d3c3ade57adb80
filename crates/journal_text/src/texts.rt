//! The words of a line, taken one after the other.
ghost use Rattle.std.specs.Prelude.{◌≡◌, ◌∷◌, ◌++◌, [], IfSome, IfNone, OnOk};
ghost use Rattle.number_text.specs.Lists.{pieces_of, led};

use number_text::cut_at;
use std::alloc::AllocError;

/// The first word of what is left of a line, and what is left behind it.
pub fn next_word(left: Option<&[u8]>) -> Option<(&[u8], Option<&[u8]>)>
    ensures word { IfSome result (λ x. pieces_of 32 left.entry ≡ x.0.now ∷ pieces_of 32 x.1) }
    ensures none { IfNone result (pieces_of 32 left.entry ≡ []) }
{
    Some(cut_at(left?, b' '))
}

/// Appends a word, behind a space.
pub fn push_word(out: &mut Vec<u8>, word: &[u8]) -> Result<(), AllocError>
    ensures { OnOk result (out.new.items ≡ out.old.items ++ led 32 (word.now ∷ [])) }
{
    out.push(b' ')?;
    out.extend_from_slice(word)
}
