//! Numbers.
ghost use Rattle.std.specs.Prelude.{◌≡◌, ◌==◌, ◌&&◌, ◌||◌, not, ◌≤◌, ◌<◌, ◌^◌, ◌++◌, OnOk, nat_le, nat_lt, length, FitsSigned, drop, slice_index, pos, neg_ℤ, true, Some, None, IfSome, IfOk, string_bytes, if◌then◌else◌};
ghost use Rattle.std.specs.List.{list_all};
ghost use Rattle.std.specs.Int.{w64};
ghost use Rattle.std.specs.Char.{is_ascii_digit};
ghost use Rattle.std.specs.Str.Parse.{digits_value};
ghost use Rattle.std.specs.Fmt.{decimal, signed_decimal};
ghost use Rattle.number_text.specs.Numbers.{is_decimal, number, number_within, whole_number};

use itoa::Buffer;
use std::alloc::{AllocError, Global};

/// Whether a number may begin so: there is a byte, and a zero stands alone.
fn begins_number(text: &[u8]) -> bool
    ensures { result ≡ (nat_lt 0 (length text.now) && ((length text.now == 1) || not (slice_index text.now 0 == 48))) }
{
    !text.is_empty() && (text.len() == 1 || text[0] != b'0')
}

/// The number that digits write, where it is below 2^64: each byte is looked at once.
fn digits_number(text: &[u8]) -> Option<u64>
    ensures { result ≡ (if list_all is_ascii_digit text.now && nat_lt (digits_value 10 text.now) (2 ^ 64) then Some (digits_value 10 text.now) else None) }
{
    let mut number = 0u64;
    for byte in text {
        if !byte.is_ascii_digit() {
            return None;
        }
        let Some(tens) = number.checked_mul(10) else {
            return None;
        };
        let Some(next) = tens.checked_add(u64::from(*byte - b'0')) else {
            return None;
        };
        number = next;
    }
    Some(number)
}

/// The number that a text is.
///
/// # Errors
///
/// - `None`: the text is no number from 0 to 2^64 - 1, or isn't in the one spelling.
#[tactic(auto, unfolding(crate::specs::Numbers::number))]
pub fn number(text: &[u8]) -> Option<u64>
    ensures { result ≡ number text.now }
{
    if begins_number(text) {
        digits_number(text)
    } else {
        None
    }
}

/// The number from `low` to `high` that a text is.
///
/// # Errors
///
/// - `None`: the text is no number, isn't in the one spelling, or is below `low` or above `high`.
#[tactic(auto, unfolding(crate::specs::Numbers::number_within))]
pub fn number_within(low: u64, high: u64, text: &[u8]) -> Option<u64>
    ensures value { result ≡ number_within low high text.now }
    ensures within { IfSome result (λ n. (low ≤ n) × (n ≤ high)) }
{
    match number(text) {
        Some(n) if low <= n && n <= high => Some(n),
        _ => None,
    }
}

/// The number of i64 that a text without a minus is.
fn plain(text: &[u8]) -> Option<i64>
    ensures { result ≡ (if is_decimal text.now && nat_lt (digits_value 10 text.now) (2 ^ 63) then Some (pos (digits_value 10 text.now)) else None) }
{
    match number(text) {
        Some(n) => { if n < 1 << 63 { Some(n as i64) } else { None } }
        None => None,
    }
}

/// The number of i64 that a minus with these digits is.
fn negative(digits: &[u8]) -> Option<i64>
    ensures { result ≡ (if is_decimal digits.now && not (slice_index digits.now 0 == 48) && nat_le (digits_value 10 digits.now) (2 ^ 63) then Some (neg_ℤ (pos (digits_value 10 digits.now))) else None) }
{
    if digits.is_empty() || digits[0] == b'0' {
        return None;
    }
    match number(digits) {
        Some(n) => 0i64.checked_sub_unsigned(n),
        None => None,
    }
}

/// The number of i64 that a text is.
///
/// # Errors
///
/// - `None`: the text is no number from -2^63 to 2^63 - 1, or isn't in the one spelling.
#[tactic(auto, unfolding(crate::specs::Numbers::whole_number))]
pub fn whole(text: &[u8]) -> Option<i64>
    ensures value { result ≡ whole_number text.now }
    ensures fits { IfSome result (λ z. FitsSigned w64 z) }
{
    match text {
        [b'-', digits @ ..] => negative(digits),
        _ => plain(text),
    }
}

/// A number in decimal digits.
///
/// # Errors
///
/// - `AllocError`: memory ran out.
pub fn decimal_text(alloc: Global, number: u64) -> Result<String, AllocError>
    ensures { IfOk result (λ text. string_bytes text ≡ decimal number) }
{
    format!(in alloc; "{number}")
}

/// A number in decimal digits, with a minus where it is negative. It takes sums too that are too large for i64.
///
/// # Errors
///
/// - `AllocError`: memory ran out.
pub fn signed_text(alloc: Global, number: i128) -> Result<String, AllocError>
    ensures { IfOk result (λ text. string_bytes text ≡ signed_decimal number) }
{
    format!(in alloc; "{number}")
}

/// Appends a number.
///
/// # Errors
///
/// - `AllocError`: memory ran out.
pub fn push_number(alloc: Global, out: &mut Vec<u8>, number: u64) -> Result<(), AllocError>
    ensures { OnOk result (out.new.items ≡ out.old.items ++ decimal number) }
{
    let _ = alloc;
    let mut buffer = Buffer::new();
    out.extend_from_slice(buffer.format(number).as_bytes())
}

/// Appends a number of i64.
///
/// # Errors
///
/// - `AllocError`: memory ran out.
pub fn push_whole(alloc: Global, out: &mut Vec<u8>, number: i64) -> Result<(), AllocError>
    ensures { OnOk result (out.new.items ≡ out.old.items ++ signed_decimal number) }
{
    let _ = alloc;
    let mut buffer = Buffer::new();
    out.extend_from_slice(buffer.format(number).as_bytes())
}
