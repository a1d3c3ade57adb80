//! Words of a line.
ghost use Rattle.std.specs.Prelude.{◌≡◌, OnOk};
ghost use Rattle.workload_file.specs.Cuts.{words_of};
ghost use Rattle.workload_file.specs.Texts.{texts_of_words};

use number_text::cut_at;
use std::alloc::AllocError;

/// Makes a list the words of a line. The list keeps its memory from line to line.
#[tactic(auto, unfolding(crate::specs::Cuts::words_of), using(crate::proofs::Phrases::texts_push))]
pub fn words_of<'a>(words: &mut Vec<&'a [u8]>, line: &'a [u8]) -> Result<(), AllocError>
    ensures { OnOk result (texts_of_words words.new.items ≡ words_of line.now) }
{
    words.clear();
    let mut left = Some(line);
    'cutting: while let Some(text) = left {
        let (word, rest) = cut_at(text, b' ');
        if !word.is_empty() {
            words.push(word)?;
        }
        left = rest;
    }
    Ok(())
}
