//! What the options of a statement give.
ghost use Rattle.std.specs.Prelude.{◌≡◌, ◌≢◌, ◌++◌, ◌∷◌, [], map, OnOk, if◌then◌else◌};
ghost use Rattle.std.specs.Option.{option_copied};
ghost use Rattle.number_text.specs.Lists.{list_of};
ghost use Rattle.workload_file.specs.declared.table.OptionShape.TheVariants as shapes;
ghost use Rattle.workload_file.specs.declared.values.OptionValue.TheVariants as given;
ghost use Rattle.workload_file.specs.Values.{is_name};
ghost use Rattle.workload_file.specs.Names.{place_of};
ghost use Rattle.workload_file.specs.Changes.{or_bad, or_unbound, value_given, value_absent, option_value_at};
ghost use Rattle.workload_file.specs.Steps.{values_of};
ghost use Rattle.workload_file.specs.Indexed.{IsReader};

use crate::name::is_name;
use crate::names::place_of;
use crate::numbers::{cores_of, flag_of, mode_of, number_within, timeout_of};
use crate::reading::Reader;
use crate::table::{Absent, Field, OptionShape, Sort};
use crate::values::OptionValue;
use mtapi_values::{Args, Mask};
use number_text::{kind_of, list_of, whole};
use std::alloc::AllocError;

/// The place at which a name was bound to such a thing.
fn named(r: &Reader, sort: Sort, text: &[u8]) -> OptionValue
    requires { IsReader r.now }
    ensures { result ≡ (if is_name text.now then or_unbound (place_of sort text.now r.now.said.current.statements) else given.Bad) }
{
    if !is_name(text) {
        return OptionValue::Bad;
    }
    match place_of(r, sort, text) {
        Some(place) => OptionValue::Place(Some(place)),
        None => OptionValue::Unbound,
    }
}

/// What a text of numbers gives. It stands apart, since no other value is as large: those are moved in few steps.
fn numbers_given(text: &[u8]) -> OptionValue
    ensures { result ≡ or_bad given.Args (list_of text.now) }
{
    match list_of(text) {
        Some(args) => OptionValue::Args(args),
        None => OptionValue::Bad,
    }
}

/// What a text gives, by the shape of its option, where it isn't one of numbers.
#[tactic(auto, unfolding(crate::specs::Changes::value_given))]
fn value_given(r: &Reader, shape: OptionShape, text: &[u8]) -> OptionValue
    requires reader { IsReader r.now }
    requires other { shape ≢ shapes.Args }
    ensures { result ≡ value_given r.now.said.current.statements shape text.now }
{
    match shape {
        OptionShape::Number(low, high) => {
            number_within(low, high, text).map_or(OptionValue::Bad, OptionValue::Number)
        }
        OptionShape::Whole => whole(text).map_or(OptionValue::Bad, OptionValue::Whole),
        OptionShape::Args => unreachable!(),
        OptionShape::Cores => cores_of(text).map_or(OptionValue::Bad, OptionValue::Cores),
        OptionShape::Kind => kind_of(text).map_or(OptionValue::Bad, OptionValue::Kind),
        OptionShape::Flag => flag_of(text).map_or(OptionValue::Bad, OptionValue::Flag),
        OptionShape::Mode => mode_of(text).map_or(OptionValue::Bad, OptionValue::Mode),
        OptionShape::Timeout => timeout_of(text).map_or(OptionValue::Bad, OptionValue::Timeout),
        OptionShape::Named(sort) => named(r, sort, text),
    }
}

/// What an absent option gives.
#[tactic(auto, unfolding(crate::specs::Changes::value_absent))]
fn value_absent(absent: Absent, shape: OptionShape) -> OptionValue
    ensures { result ≡ value_absent absent shape }
{
    match absent {
        Absent::Refused => OptionValue::Missing,
        Absent::Number(n) => OptionValue::Number(n),
        Absent::Usual => match shape {
            OptionShape::Args => OptionValue::Args(Args::new()),
            OptionShape::Cores => OptionValue::Cores(Mask(u64::MAX)),
            OptionShape::Flag => OptionValue::Flag(false),
            OptionShape::Named(_) => OptionValue::Place(None),
            OptionShape::Number(_, _)
            | OptionShape::Whole
            | OptionShape::Kind
            | OptionShape::Mode
            | OptionShape::Timeout => OptionValue::Missing,
        },
    }
}

#[tactic(auto, unfolding(crate::specs::Changes::value_given))]
fn push_value(
    values: &mut Vec<OptionValue>,
    r: &Reader,
    field: Field,
    text: Option<&[u8]>,
) -> Result<(), AllocError>
    requires { IsReader r.now }
    ensures { OnOk result (values.new.items ≡ values.old.items ++ option_value_at r.now.said.current.statements field (option_copied text.entry) ∷ []) }
{
    match text {
        Some(text) => match field.shape {
            OptionShape::Args => values.push(numbers_given(text))?,
            shape => values.push(value_given(r, shape, text))?,
        },
        None => values.push(value_absent(field.absent, field.shape))?,
    }
    Ok(())
}

fn add_values(
    values: &mut Vec<OptionValue>,
    r: &Reader,
    fields: &[Field],
    given: &[Option<&[u8]>],
) -> Result<(), AllocError>
    requires { IsReader r.now }
    ensures { OnOk result (values.new.items ≡ values.old.items ++ values_of r.now.said.current.statements fields.now (map option_copied given.now)) }
{
    match fields {
        [] => Ok(()),
        [field, fields @ ..] => match given {
            [] => Ok(()),
            [text, given @ ..] => {
                push_value(values, r, *field, *text)?;
                add_values(values, r, fields, given)
            }
        },
    }
}

/// What options of these texts give, in the order of the table. Each text is read once, and the list keeps its memory.
pub fn read_values(
    values: &mut Vec<OptionValue>,
    r: &Reader,
    fields: &[Field],
    given: &[Option<&[u8]>],
) -> Result<(), AllocError>
    requires { IsReader r.now }
    ensures { OnOk result (values.new.items ≡ values_of r.now.said.current.statements fields.now (map option_copied given.now)) }
{
    values.clear();
    add_values(values, r, fields, given)
}
