//! The canonical text of a workload: values and options.
ghost use Rattle.std.specs.Prelude.{◌≡◌, ◌++◌, ◌∷◌, [], List, ℕ, OnOk, length, Option, Some};
ghost use Rattle.workload_file.specs.Written.{timeout_text, name_of, name_at, value_text, is_usual, is_number, is_default, option_words, options_words};
ghost use Rattle.number_text.specs.Lists.{led};
ghost use Rattle.workload_file.specs.Reading.{name_text};

use crate::name::Name;
use crate::table::{Absent, Field};
use crate::values::OptionValue;
use crate::workload::Statement;
use mtapi_values::Timeout;
use number_text::{push_cores, push_list, push_number, push_whole};
use std::alloc::{AllocError, Global};

#[tactic(auto, unfolding(crate::specs::Written::timeout_text))]
fn push_timeout(alloc: Global, out: &mut Vec<u8>, timeout: Timeout) -> Result<(), AllocError>
    ensures { OnOk result (out.new.items ≡ out.old.items ++ timeout_text timeout) }
{
    match timeout {
        Timeout::NoWait => out.extend_from_slice(b"nowait"),
        Timeout::Infinite => out.extend_from_slice(b"inf"),
        Timeout::Looks(looks) => push_number(alloc, out, u64::from(looks)),
    }
}

/// The text of a name that may be absent.
pub fn text_of_name(name: &Option<Name>) -> &[u8]
    ensures { result.now ≡ name_text name.now }
{
    match name {
        Some(n) => n.as_slice(),
        None => &[],
    }
}

/// The name that the statement at a place binds.
pub fn name_at(before: &[Statement], place: u32) -> &[u8]
    ensures { result.now ≡ name_at before.now (Some place) }
{
    match before.get(place as usize) {
        Some(statement) => text_of_name(&statement.name),
        None => &[],
    }
}

#[tactic(auto, unfolding(crate::specs::Written::value_text))]
fn push_value(
    alloc: Global,
    out: &mut Vec<u8>,
    before: &[Statement],
    value: &OptionValue,
) -> Result<(), AllocError>
    ensures { OnOk result (out.new.items ≡ out.old.items ++ value_text before.now value.now) }
{
    match value {
        OptionValue::Number(n) => push_number(alloc, out, u64::from(*n)),
        OptionValue::Whole(z) => push_whole(alloc, out, *z),
        OptionValue::Args(args) => push_list(alloc, out, args.as_slice()),
        OptionValue::Cores(mask) => push_cores(alloc, out, mask.0),
        OptionValue::Kind(kind) => out.extend_from_slice(kind.word().as_bytes()),
        OptionValue::Flag(true) => out.extend_from_slice(b"yes"),
        OptionValue::Flag(false) => out.extend_from_slice(b"no"),
        OptionValue::Mode(true) => out.extend_from_slice(b"writer"),
        OptionValue::Mode(false) => out.extend_from_slice(b"reader"),
        OptionValue::Timeout(timeout) => push_timeout(alloc, out, *timeout),
        OptionValue::Place(Some(place)) => out.extend_from_slice(name_at(before, *place)),
        OptionValue::Place(None) | OptionValue::Bad | OptionValue::Missing | OptionValue::Unbound =>
            Ok(()),
    }
}

fn is_usual(value: &OptionValue) -> bool
    ensures { result ≡ is_usual value.now }
{
    match value {
        OptionValue::Args(args) => args.as_slice().is_empty(),
        OptionValue::Cores(mask) => mask.0 == u64::MAX,
        OptionValue::Flag(b) => !*b,
        OptionValue::Place(place) => place.is_none(),
        _ => false,
    }
}

fn is_number(n: u32, value: &OptionValue) -> bool
    ensures { result ≡ is_number n value.now }
{
    match value {
        OptionValue::Number(m) => *m == n,
        _ => false,
    }
}

/// Whether it is the value that the absent option gives.
#[tactic(auto, unfolding(crate::specs::Written::is_default))]
fn is_default(absent: Absent, value: &OptionValue) -> bool
    ensures { result ≡ is_default absent value.now }
{
    match absent {
        Absent::Refused => false,
        Absent::Usual => is_usual(value),
        Absent::Number(n) => is_number(n, value),
    }
}

fn push_option(
    alloc: Global,
    out: &mut Vec<u8>,
    before: &[Statement],
    field: Field,
    value: &OptionValue,
) -> Result<(), AllocError>
    ensures { OnOk result (out.new.items ≡ out.old.items ++ led 32 (option_words before.now field value.now)) }
{
    if is_default(field.absent, value) {
        return Ok(());
    }
    out.push(b' ')?;
    out.extend_from_slice(field.key.text())?;
    out.push(b'=')?;
    push_value(alloc, out, before, value)
}

/// The options that don't have their defaults, each behind a space.
#[tactic(auto, unfolding(crate::specs::Written::options_words), using(number_text::proofs::Pieces::led_append))]
pub fn push_options(
    alloc: Global,
    out: &mut Vec<u8>,
    before: &[Statement],
    fields: &[Field],
    values: &[OptionValue],
) -> Result<(), AllocError>
    ensures { OnOk result (out.new.items ≡ out.old.items ++ led 32 (options_words before.now fields.now values.now)) }
{
    match fields {
        [] => Ok(()),
        [field, fields @ ..] => match values {
            [] => Ok(()),
            [value, values @ ..] => {
                push_option(alloc, out, before, *field, value)?;
                push_options(alloc, out, before, fields, values)
            }
        },
    }
}
