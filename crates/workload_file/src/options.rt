//! The options of a statement: the words `key=value` behind its name.
ghost use Rattle.std.specs.Prelude.{◌≡◌, [], true, Some, None, IfOk, IfSome, map, is_some, if◌then◌else◌};
ghost use Rattle.std.specs.Option.{option_copied};
ghost use Rattle.std.specs.List.{list_all};
ghost use Rattle.workload_file.specs.Texts.{texts_of_words};
ghost use Rattle.workload_file.specs.Table.{fields, key_text};
ghost use Rattle.workload_file.specs.Options.{value_of, is_known, opens, has_twice};
ghost use Rattle.workload_file.specs.Steps.{texts_in, IsOptionAt};

use crate::table::{Field, Key, Word};
use std::alloc::AllocError;

/// The value that a word gives, where it is this key, `=` and a value. Where another key stands, the byte behind as many bytes as
/// this key has is seldom `=`, so that keys are seldom compared.
#[tactic(auto, using(crate::proofs::Placed::shut_short, crate::proofs::Placed::shut_byte, crate::proofs::Placed::shut_key, crate::proofs::Placed::opens_key))]
fn value_behind<'a>(word: &'a [u8], key: Key) -> Option<&'a [u8]>
    ensures { option_copied result ≡ (if opens word.now (key_text key) then Some (value_of word.now) else None) }
{
    let text = key.text();
    let end = text.len();
    if word.len() <= end {
        return None;
    }
    if word[end] != b'=' {
        return None;
    }
    if &word[..end] != text {
        return None;
    }
    Some(&word[end + 1..])
}

/// The place of the option that a word gives, and the value.
#[tactic(auto, using(crate::proofs::Placed::opened, crate::proofs::Placed::not_opened))]
fn option_in<'a>(fields: &[Field], word: &'a [u8]) -> Option<(usize, &'a [u8])>
    ensures known { is_some result ≡ is_known fields.now word.now }
    ensures place { IfSome result (λ option. IsOptionAt fields.now word.now option.0) }
    ensures value { IfSome result (λ option. option.1.now ≡ value_of word.now) }
{
    for (place, field) in fields.iter().enumerate() {
        if let Some(value) = value_behind(word, field.key) {
            return Some((place, value));
        }
    }
    None
}

/// Whether words are options of a statement, and whether two give one option.
#[derive(Clone, Copy)]
pub struct Placed {
    pub known: bool,
    pub twice: bool,
}

/// Puts what each word gives at the place of its option, the last word first.
#[rattlefmt::skip]
fn place_each<'a>(given: &mut Vec<Option<&'a [u8]>>, word: Word, words: &[&'a [u8]]) -> Placed
    requires { map option_copied given.old.items ≡ texts_in (fields word) [] }
    ensures known { result.known ≡ list_all (is_known (fields word)) (texts_of_words words.now) }
    ensures twice { result.known ≡ true → result.twice ≡ has_twice (texts_of_words words.now) }
    ensures given { result.known ≡ true → map option_copied given.new.items ≡ texts_in (fields word) (texts_of_words words.now) }
{
    let fields = word.fields();
    let mut twice = false;
    'words: for at in (0..words.len()).rev() {
        let Some((place, value)) = option_in(fields, words[at]) else {
            return Placed { known: false, twice };
        };
        twice = given[place].is_some() || twice;
        given[place] = Some(value);
    }
    Placed { known: true, twice }
}

/// The text of each option of a statement, in the order of the table. Each word is looked at once.
pub fn place_texts<'a>(
    given: &mut Vec<Option<&'a [u8]>>,
    word: Word,
    words: &[&'a [u8]],
) -> Result<Placed, AllocError>
    ensures known { IfOk result (λ placed. placed.known ≡ list_all (is_known (fields word)) (texts_of_words words.now)) }
    ensures twice { IfOk result (λ placed. placed.known ≡ true → placed.twice ≡ has_twice (texts_of_words words.now)) }
    ensures given { IfOk result (λ placed. placed.known ≡ true
        → map option_copied given.new.items ≡ texts_in (fields word) (texts_of_words words.now)) }
{
    given.clear();
    given.resize(word.fields().len(), None)?;
    Ok(place_each(given, word, words))
}
