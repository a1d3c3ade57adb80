//! What a line adds, or the first cause that it meets.
ghost use Rattle.std.specs.Prelude.{◌≡◌, ◌<◌, ◌∷◌, ◌&&◌, not, false, List, ℕ, length, Some, None, IfOk, OnOk};
ghost use Rattle.std.specs.List.{list_any, list_all, find};
ghost use Rattle.workload_file.specs.Texts.{texts_of_words};
ghost use Rattle.workload_file.specs.Values.{is_name};
ghost use Rattle.workload_file.specs.Table.{naming, fields};
ghost use Rattle.workload_file.specs.Names.{has_second, name_in, options_in, use_in, is_unbound};
ghost use Rattle.workload_file.specs.Changes.{is_bad, is_missing, names_nothing, values_in, bound_name, change_with, change_of};
ghost use Rattle.workload_file.specs.Faulty.{is_printable, is_comment, is_faulty, statement_causes, word_causes, words_meet};
ghost use Rattle.workload_file.specs.Reading.{words_say, line_adds, Gives};
ghost use Rattle.workload_file.specs.Steps.{late_causes, unless_met};
ghost use Rattle.workload_file.specs.Indexed.{IsReader, found_name, said_then, with_name};

use crate::changes::with_change;
use crate::cut::words_of;
use crate::deeds::{deed_with, settings_with};
use crate::faults::{Cause, Fault, LineError};
use crate::given::read_values;
use crate::name::{Name, is_name};
use crate::names::{
    has_second, is_misplaced, is_ninth_caller, name_in, options_in, take_name, use_in,
};
use crate::options::place_texts;
use crate::reading::{LineEffect, Lists, Reader};
use crate::table::{Naming, Word};
use crate::values::OptionValue;
use crate::workload::Statement;
use std::alloc::{AllocError, Global};

fn any_bad(values: &[OptionValue]) -> bool
    ensures { result ≡ list_any is_bad values.now }
{
    values.iter().any(|v| matches!(v, OptionValue::Bad))
}

fn any_missing(values: &[OptionValue]) -> bool
    ensures { result ≡ list_any is_missing values.now }
{
    values.iter().any(|v| matches!(v, OptionValue::Missing))
}

fn any_unbound(values: &[OptionValue]) -> bool
    ensures { result ≡ list_any names_nothing values.now }
{
    values.iter().any(|v| matches!(v, OptionValue::Unbound))
}

fn is_unbound(naming: Naming, place: Option<u32>) -> bool
    ensures { result ≡ is_unbound naming place }
{
    matches!(naming, Naming::Uses(_)) && place.is_none()
}

macro_rules! met {
    ($($test:expr => $cause:ident),*) => {$(if $test { return Ok(Some(Cause::$cause)); })*};
}

/// The first of the causes that a statement meets by its values and its names. With none, the name that it binds is bound.
#[rattlefmt::skip]
#[tactic(auto, unfolding(crate::specs::Faulty::is_faulty))]
fn late_met(r: &mut Reader, word: Word, name: &[u8], options: &[&[u8]], place: Option<u32>, values: &[OptionValue]) -> Result<Option<Cause>, AllocError>
    requires reader { IsReader r.old }
    requires place { place ≡ use_in r.old.said.current.statements (naming word) name.now }
    requires values { values.now ≡ values_in r.old.said.current.statements (texts_of_words options.now) (fields word) }
    requires named { (has_second (naming word) && not (is_name name.now)) ≡ false }
    ensures value { IfOk result (λ met.
        met ≡ find (is_faulty r.old.said word name.now (texts_of_words options.now)) late_causes) }
    ensures said { OnOk result (r.new.said ≡ r.old.said) }
    ensures bound { IfOk result (λ met. met ≡ None → (other : List ℕ)
        → found_name r.new.names other ≡ with_name (bound_name (naming word) name.now) (length r.old.said.current.statements) (found_name r.old.names) other) }
{
    met!(any_bad(values) => BadValue, any_missing(values) => OptionMissing);
    let free = take_name(r, word.naming(), name)?;
    met!(!free => NameTaken, is_unbound(word.naming(), place) || any_unbound(values) => NameUnknown);
    Ok(None)
}

/// The first of the causes of a statement that it meets. With none, the list has what its options give, and its name is bound.
#[rattlefmt::skip]
#[tactic(auto, unfolding(crate::specs::Faulty::is_faulty))]
fn first_met<'a>(r: &mut Reader, given: &mut Vec<Option<&'a [u8]>>, values: &mut Vec<OptionValue>, word: Word, name: &[u8], options: &[&'a [u8]], place: Option<u32>) -> Result<Option<Cause>, AllocError>
    requires reader { IsReader r.old }
    requires place { place ≡ use_in r.old.said.current.statements (naming word) name.now }
    ensures value { IfOk result (λ met.
        met ≡ find (is_faulty r.old.said word name.now (texts_of_words options.now)) statement_causes) }
    ensures few { IfOk result (λ met. met ≡ None → r.old.said.count < 20000) }
    ensures named { IfOk result (λ met. met ≡ None → (has_second (naming word) && not (is_name name.now)) ≡ false) }
    ensures values { IfOk result (λ met. met ≡ None
        → values.new.items ≡ values_in r.old.said.current.statements (texts_of_words options.now) (fields word)) }
    ensures said { OnOk result (r.new.said ≡ r.old.said) }
    ensures bound { IfOk result (λ met. met ≡ None → (other : List ℕ)
        → found_name r.new.names other ≡ with_name (bound_name (naming word) name.now) (length r.old.said.current.statements) (found_name r.old.names) other) }
{
    met!(20_000 <= r.said.count => TooManyStatements, is_ninth_caller(r, word) => TooManyCallers, is_misplaced(r, word) => Misplaced);
    met!(has_second(word.naming()) && !is_name(name) => BadName);
    let placed = place_texts(given, word, options)?;
    met!(!placed.known => UnknownOption, placed.twice => OptionTwice);
    read_values(values, r, word.fields(), given)?;
    late_met(r, word, name, options, place, values)
}

fn bound_name(naming: Naming, name: &[u8]) -> Option<Name>
    requires { (has_second naming && not (is_name name.now)) ≡ false }
    ensures { result ≡ bound_name naming name.now }
{
    match naming {
        Naming::Binds(_) => Some(Name::known(name)),
        Naming::Bare | Naming::Caller | Naming::Uses(_) => None,
    }
}

/// What a statement without a fault adds.
#[tactic(auto, unfolding(crate::specs::Changes::change_with, crate::specs::Table::statement_row))]
fn change_with(
    line: u64,
    word: Word,
    name: &[u8],
    place: Option<u32>,
    values: &[OptionValue],
) -> LineEffect
    requires { (has_second (naming word) && not (is_name name.now)) ≡ false }
    ensures { result ≡ change_with line word name.now place values.now }
{
    match word {
        Word::Node => LineEffect::Node(settings_with(values)),
        Word::Caller => LineEffect::Caller(Name::known(name)),
        _ => LineEffect::Statement(Statement {
            line,
            name: bound_name(word.naming(), name),
            deed: deed_with(word, place.unwrap_or(0), values),
        }),
    }
}

macro_rules! refused {
    ($line:ident $cause:expr) => { Err(LineError::Refused(Fault { line: $line, cause: $cause })) };
}

/// What a statement adds, unless it meets a cause.
fn add_statement<'a>(
    alloc: Global,
    r: &mut Reader,
    given: &mut Vec<Option<&'a [u8]>>,
    values: &mut Vec<OptionValue>,
    line: u64,
    word: Word,
    rest: &[&'a [u8]],
) -> Result<(), LineError>
    requires { IsReader r.old }
    ensures value { let name = name_in (naming word) (texts_of_words rest.now) in let options = options_in (naming word) (texts_of_words rest.now) in Gives (said_then result r.new.said) (unless_met r.old.said line (find (is_faulty r.old.said word name options) statement_causes) (Some (change_of r.old.said line word name options))) }
    ensures reader { OnOk result (IsReader r.new) }
{
    let name = name_in(word.naming(), rest);
    let options = options_in(word.naming(), rest);
    let place = use_in(r, word.naming(), name);
    match first_met(r, given, values, word, name, options, place)? {
        Some(cause) => refused!(line cause),
        None => {
            with_change(alloc, r, line, change_with(line, word, name, place, values))?;
            Ok(())
        }
    }
}

/// What words add, unless they meet a cause.
#[tactic(auto, using(crate::proofs::Placed::none_adds, crate::proofs::Placed::comment_adds))]
fn add_words<'a>(
    alloc: Global,
    r: &mut Reader,
    given: &mut Vec<Option<&'a [u8]>>,
    values: &mut Vec<OptionValue>,
    line: u64,
    words: &[&'a [u8]],
) -> Result<(), LineError>
    requires { IsReader r.old }
    ensures value { Gives (said_then result r.new.said) (unless_met r.old.said line (find (words_meet r.old.said (texts_of_words words.now)) word_causes) (words_say r.old.said line (texts_of_words words.now))) }
    ensures reader { OnOk result (IsReader r.new) }
{
    match words {
        [] => Ok(()),
        [first, rest @ ..] => {
            if is_comment(first) {
                return Ok(());
            }
            match Word::from_text(first) {
                Some(word) => add_statement(alloc, r, given, values, line, word, rest),
                None => refused!(line Cause::UnknownWord),
            }
        }
    }
}

fn is_comment(first: &[u8]) -> bool
    ensures { result ≡ is_comment first.now }
{
    match first {
        [b'#', ..] => true,
        _ => false,
    }
}

fn all_printable(text: &[u8]) -> bool
    ensures { result ≡ list_all is_printable text.now }
{
    // Each byte is looked at, whatever those before it are, so that vectors serve.
    let mut printable = true;
    for b in text {
        printable &= 32 <= *b && *b <= 126;
    }
    printable
}

/// The workload so far with a line, or the first cause that the line meets.
#[tactic(auto, unfolding(crate::specs::Reading::line_adds, crate::specs::Reading::line_gives))]
pub fn add_line<'a>(
    alloc: Global,
    r: &mut Reader,
    lists: &mut Lists<'a>,
    line: u64,
    text: &'a [u8],
) -> Result<(), LineError>
    requires { IsReader r.old }
    ensures value { Gives (said_then result r.new.said) (line_adds r.old.said line text.now) }
    ensures reader { OnOk result (IsReader r.new) }
{
    if 512 < text.len() {
        return refused!(line Cause::LineTooLong);
    }
    if !all_printable(text) {
        return refused!(line Cause::BadByte);
    }
    words_of(&mut lists.words, text)?;
    add_words(
        alloc,
        r,
        &mut lists.given,
        &mut lists.values,
        line,
        &lists.words,
    )
}
