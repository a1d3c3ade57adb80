//! The values of fields as words.
ghost use Rattle.std.specs.Prelude.{◌≡◌, ◌++◌, OnOk, IfOk, Some, None, option_map};
ghost use Rattle.number_text.specs.{Numbers.number_within, Lists.led, Lists.pieces_of};
ghost use Rattle.journal_text.specs.Values.{flag_text, args_text, group_text, end_words, status_name, value_words, values_words, mtapi_of, mrapi_of, status_of_word, status_from, args_of, group_of, completed_of, failed_of, end_of_words, word_value, value_of_words, values_onto};
ghost use Rattle.journal_text.specs.Found.{left_texts, GivesRead};

use crate::faults::LineError;
use crate::handles::{handle_of, push_handle};
use crate::texts::{next_word, push_word};
use mtapi_values::{Args, Kind, Layout, Mask, MrapiStatus, MtapiStatus, TaskEnd};
use number_text::{
    kind_of, list_of, number, number_within, push_list, push_number, push_whole, whole,
};
use std::alloc::{AllocError, Global};
use std::str;

/// A status of either part.
#[derive(Clone, Copy, PartialEq, Eq, Debug, Drop)]
pub enum Status {
    Mtapi(MtapiStatus),
    Mrapi(MrapiStatus),
}

/// What a field looks like.
#[derive(Clone, Copy, PartialEq, Eq, Debug)]
pub enum Shape {
    /// A number of 32 bits.
    Number,
    /// A number of 64 bits, with sign.
    Whole,
    /// 1 or 0.
    Flag,
    /// The word of a kind.
    Kind,
    /// A mask as a number of 64 bits.
    Cores,
    /// Numbers with commas, or `-`.
    Args,
    /// A handle.
    Handle,
    /// A handle, or `-`.
    Group,
    /// The end of a task, in one or two words.
    End,
    /// The name of a status.
    Status,
}

/// The value of a field.
#[derive(Drop)]
pub enum Value {
    Number(u32),
    Whole(i64),
    Flag(bool),
    Kind(Kind),
    Cores(Mask),
    Args(Args),
    Handle(u64),
    Group(Option<u64>),
    End(TaskEnd),
    Status(Status),
}

// ---- written

/// A word, and the values of its fields.
pub fn spelled<W: Copy, const N: usize>(
    alloc: Global,
    word: W,
    values: [Value; N],
) -> Result<(W, Vec<Value>), AllocError>
    ensures word { IfOk result (λ x. x.0 ≡ word) }
    ensures values { IfOk result (λ x. x.1.items ≡ values.entry) }
{
    match Vec::from_array(alloc, values) {
        Ok(list) => Ok((word, list)),
        Err(_) => Err(AllocError),
    }
}

fn push_args(alloc: Global, out: &mut Vec<u8>, args: &[i64]) -> Result<(), AllocError>
    ensures { OnOk result (out.new.items ≡ out.old.items ++ args_text args.now) }
{
    if args.is_empty() {
        return Ok(out.push(b'-')?);
    }
    push_list(alloc, out, args)
}

fn push_group(
    alloc: Global,
    out: &mut Vec<u8>,
    layout: Layout,
    group: Option<u64>,
) -> Result<(), AllocError>
    ensures { OnOk result (out.new.items ≡ out.old.items ++ group_text layout group) }
{
    match group {
        None => Ok(out.push(b'-')?),
        Some(handle) => push_handle(alloc, out, layout, handle),
    }
}

fn push_end(alloc: Global, out: &mut Vec<u8>, end: &TaskEnd) -> Result<(), AllocError>
    ensures { OnOk result (out.new.items ≡ out.old.items ++ led 32 (end_words end.now)) }
{
    match end {
        TaskEnd::Completed(args) => {
            push_word(out, b"completed")?;
            out.push(b' ')?;
            push_args(alloc, out, args.as_slice())
        }
        TaskEnd::Cancelled => push_word(out, b"cancelled"),
        TaskEnd::Failed(status) => {
            push_word(out, b"error")?;
            push_word(out, status.name().as_bytes())
        }
    }
}

fn status_name(status: Status) -> &'static str
    ensures { result.now ≡ status_name status }
{
    match status {
        Status::Mtapi(status) => status.name(),
        Status::Mrapi(status) => status.name(),
    }
}

/// Appends the words of a value, each behind a space.
#[tactic(auto, unfolding(crate::specs::Values::value_words))]
fn push_value(
    alloc: Global,
    out: &mut Vec<u8>,
    layout: Layout,
    value: &Value,
) -> Result<(), AllocError>
    ensures { OnOk result (out.new.items ≡ out.old.items ++ led 32 (value_words layout value.now)) }
{
    if let Value::End(end) = value {
        return push_end(alloc, out, end);
    }
    out.push(b' ')?;
    match value {
        Value::Number(n) => push_number(alloc, out, u64::from(*n)),
        Value::Whole(z) => push_whole(alloc, out, *z),
        Value::Flag(true) => Ok(out.push(b'1')?),
        Value::Flag(false) => Ok(out.push(b'0')?),
        Value::Kind(kind) => out.extend_from_slice(kind.word().as_bytes()),
        Value::Cores(mask) => push_number(alloc, out, mask.0),
        Value::Args(args) => push_args(alloc, out, args.as_slice()),
        Value::Handle(handle) => push_handle(alloc, out, layout, *handle),
        Value::Group(group) => push_group(alloc, out, layout, *group),
        Value::End(_) => Ok(()),
        Value::Status(status) => out.extend_from_slice(status_name(*status).as_bytes()),
    }
}

/// Appends the words of values, each behind a space.
#[tactic(auto, using(number_text::proofs::Pieces::led_append, crate::proofs::Pieces::values_more))]
pub fn push_values(
    alloc: Global,
    out: &mut Vec<u8>,
    layout: Layout,
    values: &[Value],
) -> Result<(), AllocError>
    ensures { OnOk result (out.new.items ≡ out.old.items ++ led 32 (values_words layout values.now)) }
{
    match values {
        [] => Ok(()),
        [value, rest @ ..] => {
            push_value(alloc, out, layout, value)?;
            push_values(alloc, out, layout, rest)
        }
    }
}

// ---- read

fn mtapi_of(text: &[u8]) -> Option<MtapiStatus>
    ensures { result ≡ mtapi_of text.now }
{
    match str::from_utf8(text) {
        Ok(name) => MtapiStatus::from_name(name),
        Err(_) => None,
    }
}

fn mrapi_of(text: &[u8]) -> Option<MrapiStatus>
    ensures { result ≡ mrapi_of text.now }
{
    match str::from_utf8(text) {
        Ok(name) => MrapiStatus::from_name(name),
        Err(_) => None,
    }
}

#[tactic(auto, unfolding(crate::specs::Values::status_of_word))]
fn status_of(text: &[u8]) -> Option<Status>
    ensures { result ≡ status_of_word text.now }
{
    match mtapi_of(text) {
        Some(status) => Some(Status::Mtapi(status)),
        None => Some(Status::Mrapi(mrapi_of(text)?)),
    }
}

#[tactic(auto, unfolding(crate::specs::Values::args_of))]
fn args_of(text: &[u8]) -> Option<Args>
    ensures { result ≡ args_of text.now }
{
    if text == b"-".as_slice() {
        return Some(Args::new());
    }
    list_of(text)
}

#[tactic(auto, unfolding(crate::specs::Values::group_of))]
fn group_of(text: &[u8]) -> Option<Option<u64>>
    ensures { result ≡ group_of text.now }
{
    if text == b"-".as_slice() {
        return Some(None);
    }
    Some(Some(handle_of(text)?))
}

#[tactic(auto, unfolding(crate::specs::Values::completed_of))]
fn completed_of(left: Option<&[u8]>) -> Option<(TaskEnd, Option<&[u8]>)>
    ensures { left_texts result ≡ completed_of (pieces_of 32 left.entry) }
{
    let (word, left) = next_word(left)?;
    Some((TaskEnd::Completed(args_of(word)?), left))
}

#[tactic(auto, unfolding(crate::specs::Values::failed_of))]
fn failed_of(left: Option<&[u8]>) -> Option<(TaskEnd, Option<&[u8]>)>
    ensures { left_texts result ≡ failed_of (pieces_of 32 left.entry) }
{
    let (word, left) = next_word(left)?;
    Some((TaskEnd::Failed(mtapi_of(word)?), left))
}

#[tactic(auto, unfolding(crate::specs::Values::end_of_words))]
fn end_of<'a>(word: &[u8], left: Option<&'a [u8]>) -> Option<(TaskEnd, Option<&'a [u8]>)>
    ensures { left_texts result ≡ end_of_words word.now (pieces_of 32 left.entry) }
{
    if word == b"completed".as_slice() {
        return completed_of(left);
    }
    if word == b"error".as_slice() {
        return failed_of(left);
    }
    Some((TaskEnd::Cancelled, left))
}

/// A number of 32 bits.
fn small(text: &[u8]) -> Option<u32>
    ensures { result ≡ number_within 0 4294967295 text.now }
{
    Some(number_within(0, 4_294_967_295, text)? as u32)
}

/// The value of this shape that one word may be: what is written, and more.
#[tactic(auto, unfolding(crate::specs::Values::word_value))]
fn word_value(shape: Shape, word: &[u8]) -> Option<Value>
    ensures { result ≡ word_value shape word.now }
{
    match shape {
        Shape::Number => Some(Value::Number(small(word)?)),
        Shape::Whole => Some(Value::Whole(whole(word)?)),
        Shape::Flag => Some(Value::Flag(word == b"1".as_slice())),
        Shape::Kind => Some(Value::Kind(kind_of(word)?)),
        Shape::Cores => Some(Value::Cores(Mask(number(word)?))),
        Shape::Args => Some(Value::Args(args_of(word)?)),
        Shape::Handle => Some(Value::Handle(handle_of(word)?)),
        Shape::Group => Some(Value::Group(group_of(word)?)),
        Shape::End => None,
        Shape::Status => Some(Value::Status(status_of(word)?)),
    }
}

/// The value of this shape that words may begin with: what is written, and more.
#[tactic(auto, unfolding(crate::specs::Values::value_of_words))]
fn value_of(shape: Shape, left: Option<&[u8]>) -> Option<(Value, Option<&[u8]>)>
    ensures { left_texts result ≡ value_of_words shape (pieces_of 32 left.entry) }
{
    let (word, left) = next_word(left)?;
    match shape {
        Shape::End => match end_of(word, left) {
            Some((end, left)) => Some((Value::End(end), left)),
            None => None,
        },
        _ => Some((word_value(shape, word)?, left)),
    }
}

/// Values of these shapes, put behind those in front.
#[tactic(auto, unfolding(crate::specs::Values::values_onto))]
pub fn values_onto<'a>(
    prefix: Vec<Value>,
    shapes: &[Shape],
    left: Option<&'a [u8]>,
) -> Result<(Vec<Value>, Option<&'a [u8]>), LineError>
    ensures { GivesRead (λ x. (
      x.0.items,
      pieces_of 32 x.1,
    )) result (values_onto prefix.items shapes.now (pieces_of 32 left.entry)) }
{
    let mut prefix = prefix;
    match shapes {
        [] => Ok((prefix, left)),
        [shape, shapes @ ..] => match value_of(*shape, left) {
            Some((value, left)) => {
                prefix.push(value)?;
                values_onto(prefix, shapes, left)
            }
            None => Err(LineError::Outside),
        },
    }
}
