//! What the types of written values keep: said where they are written, so that the text is known to be read again.
ghost use Rattle.std.specs.Prelude.{FitsSigned, ◌<◌, ◌^◌};
ghost use Rattle.std.specs.{Int.w64, List.AllByRecursion};
ghost use Rattle.mtapi_values.specs.Attributes.{AreNodeSettings};
ghost use Rattle.mtapi_machine.specs.Legal.{IsHonest};
ghost use Rattle.journal_text.specs.Fits.{AreArgs, ValueFits};

use crate::values::Value;
use mtapi_machine::Op;
use mtapi_values::{Args, NodeAttr, TaskEnd};

fn are_whole(numbers: &[i64])
    ensures { AllByRecursion (FitsSigned w64) numbers.now }
{
    if let [first, rest @ ..] = numbers {
        let _number = *first;
        are_whole(rest);
    }
}

fn args_fit(args: &Args)
    ensures { AreArgs args.now }
{
    are_whole(args.as_slice());
}

fn end_fits(end: &TaskEnd)
    ensures { ValueFits (Value.End end.now) }
{
    if let TaskEnd::Completed(args) = end {
        args_fit(args);
    }
}

fn bits_fit(bits: u64)
    ensures { bits < 2 ^ 64 }
{}

fn value_fits(value: &Value)
    ensures { ValueFits value.now }
{
    match value {
        Value::Number(number) => {
            let _number = *number;
        }
        Value::Whole(number) => {
            let _number = *number;
        }
        Value::Cores(mask) => bits_fit(mask.0),
        Value::Args(args) => args_fit(args),
        Value::Handle(handle) | Value::Group(Some(handle)) => bits_fit(*handle),
        Value::End(end) => end_fits(end),
        Value::Flag(_) | Value::Kind(_) | Value::Group(None) | Value::Status(_) => {}
    }
}

/// Each value lies in the range of its type.
pub fn values_fit(values: &[Value])
    ensures { AllByRecursion ValueFits values.now }
{
    if let [value, rest @ ..] = values {
        value_fits(value);
        values_fit(rest);
    }
}

/// A `finish` has what its kind answers.
pub fn is_honest(op: &Op)
    ensures { IsHonest op.now }
{
    if let Op::Finish { done, .. } = op {
        let _kind = done.kind();
        let _args = done.args();
    }
}

/// Settings lie in their ranges.
pub fn settings_fit(settings: NodeAttr)
    ensures { AreNodeSettings settings }
{}
