//! The pure actions. None of them takes memory.

ghost use Rattle.std.specs.Prelude.{◌≡◌, true, Some, ◌∷◌, [], pos, ◌+ℤ◌, ◌*ℤ◌};
ghost use Rattle.std.specs.Int.{IsGcd};
ghost use Rattle.mtapi_values.specs.declared.kinds.Kind.TheVariants.{Add, Mul, Max, Div, Gcd, Echo, Triangle, Fail};
ghost use Rattle.action_fn.specs.Answers.{is_pure, answer_of, number_end, fold_fitting, greatest, quotient, gcd, fitting, triangle};

use crate::finished::{ActEnd, one_number};
use mtapi_values::{Args, Kind, MtapiStatus};

/// The sum, which fails where a partial sum leaves 64 bits.
#[tactic(auto, unfolding(crate::specs::Answers::answer_of))]
pub fn act_add(args: &Args) -> ActEnd
    ensures { result ≡ answer_of Add args.now }
{
    end_of(sum_from(0, args.as_slice()))
}

/// The product, which fails where a partial product leaves 64 bits.
#[tactic(auto, unfolding(crate::specs::Answers::answer_of))]
pub fn act_mul(args: &Args) -> ActEnd
    ensures { result ≡ answer_of Mul args.now }
{
    end_of(product_from(1, args.as_slice()))
}

/// The greatest of one argument or more.
#[tactic(auto, unfolding(crate::specs::Answers::answer_of))]
pub fn act_max(args: &Args) -> ActEnd
    ensures { result ≡ answer_of Max args.now }
{
    match args.as_slice() {
        [] => ActEnd::Fails(MtapiStatus::ErrArgSize),
        [first, rest @ ..] => end_of(Some(greatest_of(*first, rest))),
    }
}

/// The quotient of two arguments, cut toward zero. It fails for the divisor 0 and where the quotient leaves 64 bits.
#[tactic(auto, unfolding(crate::specs::Answers::answer_of))]
pub fn act_div(args: &Args) -> ActEnd
    ensures { result ≡ answer_of Div args.now }
{
    match args.as_slice() {
        [dividend, divisor] => end_of(quotient_of(*dividend, *divisor)),
        _ => ActEnd::Fails(MtapiStatus::ErrArgSize),
    }
}

/// The greatest common divisor of two arguments, which fails where it is 2^63.
#[tactic(auto, unfolding(crate::specs::Answers::answer_of))]
pub fn act_gcd(args: &Args) -> ActEnd
    ensures { result ≡ answer_of Gcd args.now }
{
    match args.as_slice() {
        [a, b] => end_of(signed(gcd_of(a.unsigned_abs(), b.unsigned_abs()))),
        _ => ActEnd::Fails(MtapiStatus::ErrArgSize),
    }
}

/// The arguments.
#[tactic(auto, unfolding(crate::specs::Answers::answer_of))]
pub fn act_echo(args: &Args) -> ActEnd
    ensures { result ≡ answer_of Echo args.now }
{
    ActEnd::Done(args.again())
}

/// The sum of the numbers from 1 to the argument, which fails where the argument isn't 0 to 1,000,000.
#[tactic(auto, unfolding(crate::specs::Answers::answer_of))]
pub fn act_triangle(args: &Args) -> ActEnd
    ensures { result ≡ answer_of Triangle args.now }
{
    match args.as_slice() {
        [n] => end_of(triangle_of(*n)),
        _ => ActEnd::Fails(MtapiStatus::ErrArgSize),
    }
}

/// Always fails.
#[tactic(auto, unfolding(crate::specs::Answers::answer_of))]
pub fn act_fail(_args: &Args) -> ActEnd
    ensures { result ≡ answer_of Fail _args.now }
{
    ActEnd::Fails(MtapiStatus::ErrActionFailed)
}

/// What the action of a pure kind answers.
pub fn answer_of(kind: Kind, args: &Args) -> ActEnd
    requires { is_pure kind ≡ true }
    ensures { result ≡ answer_of kind args.now }
{
    match kind {
        Kind::Add => act_add(args),
        Kind::Mul => act_mul(args),
        Kind::Max => act_max(args),
        Kind::Div => act_div(args),
        Kind::Gcd => act_gcd(args),
        Kind::Echo => act_echo(args),
        Kind::Triangle => act_triangle(args),
        Kind::Fail => act_fail(args),
        Kind::Watch | Kind::Tally => unreachable!(),
    }
}

/// One number, or a failure where there is none.
fn end_of(number: Option<i64>) -> ActEnd
    ensures { result ≡ number_end number }
{
    match number {
        Some(value) => one_number(value),
        None => ActEnd::Fails(MtapiStatus::ErrActionFailed),
    }
}

/// The sum from a number on, where each partial sum fits. It calls itself once for each value, of which there are at most 16.
fn sum_from(so_far: i64, values: &[i64]) -> Option<i64>
    ensures { result ≡ fold_fitting ◌+ℤ◌ so_far values.now }
{
    match values {
        [] => Some(so_far),
        [value, rest @ ..] => sum_from(plus(so_far, *value)?, rest),
    }
}

/// The product from a number on, where each partial product fits. It calls itself once for each value, of which there are at most 16.
fn product_from(so_far: i64, values: &[i64]) -> Option<i64>
    ensures { result ≡ fold_fitting ◌*ℤ◌ so_far values.now }
{
    match values {
        [] => Some(so_far),
        [value, rest @ ..] => product_from(times(so_far, *value)?, rest),
    }
}

/// The sum of two numbers, where it fits.
fn plus(a: i64, b: i64) -> Option<i64>
    ensures { result ≡ fitting (a +ℤ b) }
{
    a.checked_add(b)
}

/// The product of two numbers, where it fits.
fn times(a: i64, b: i64) -> Option<i64>
    ensures { result ≡ fitting (a *ℤ b) }
{
    a.checked_mul(b)
}

/// The greatest of a number and a list.
fn greatest_of(first: i64, rest: &[i64]) -> i64
    ensures { result ≡ greatest first rest.now }
{
    let mut so_far = first;
    for value in rest {
        so_far = so_far.max(*value);
    }
    so_far
}

/// The quotient cut toward zero, where there is one and it fits.
fn quotient_of(dividend: i64, divisor: i64) -> Option<i64>
    ensures { result ≡ quotient dividend divisor }
{
    dividend.checked_div(divisor)
}

/// The greatest common divisor by Euclid's rule, 0 for 0 and 0.
fn gcd_of(a: u64, b: u64) -> u64
    ensures value { result ≡ gcd a b }
    ensures greatest { IsGcd a b result }
{
    let (mut x, mut y) = (a, b);
    while y > 0 {
        (x, y) = (y, x % y);
    }
    x
}

/// The same number with a sign, where it fits.
fn signed(value: u64) -> Option<i64>
    ensures { result ≡ fitting (pos value) }
{
    i64::try_from(value).ok()
}

/// The sum of the numbers from 1 to n, where n is 0 to 1,000,000.
fn triangle_of(n: i64) -> Option<i64>
    ensures { result ≡ triangle n }
{
    if 0 <= n && n <= 1_000_000 {
        Some(n * (n + 1) / 2)
    } else {
        None
    }
}
