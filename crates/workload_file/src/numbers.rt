//! The values of options that are no list.
ghost use Rattle.std.specs.Prelude.{◌≡◌, ◌≤◌, IfSome, option_map};
ghost use Rattle.workload_file.specs.Values.{number_in_32, number_from_to, cores_of, timeout_of, flag_of, mode_of};

use mtapi_values::{Mask, Timeout};
use number_text::number_within as wide_within;

/// The number of u32 that a text is, in the one spelling.
#[tactic(auto, unfolding(crate::specs::Values::number_in_32))]
pub fn number(text: &[u8]) -> Option<u32>
    ensures { result ≡ number_in_32 text.now }
{
    let n = wide_within(0, 4_294_967_295, text)?;
    Some(n as u32)
}

/// The number from `low` to `high` that a text is, in the one spelling.
#[tactic(auto, unfolding(crate::specs::Values::number_from_to))]
pub fn number_within(low: u32, high: u32, text: &[u8]) -> Option<u32>
    ensures value { result ≡ number_from_to low high text.now }
    ensures within { IfSome result (λ n. (low ≤ n) × (n ≤ high)) }
{
    match number(text) {
        Some(n) if low <= n && n <= high => Some(n),
        _ => None,
    }
}

/// The timeout that a text is: `nowait`, `inf`, or the looks after the first, 0 to 1,000,000.
#[tactic(auto, unfolding(crate::specs::Values::timeout_of))]
pub fn timeout_of(text: &[u8]) -> Option<Timeout>
    ensures { result ≡ timeout_of text.now }
{
    if text == b"nowait".as_slice() {
        return Some(Timeout::NoWait);
    }
    if text == b"inf".as_slice() {
        return Some(Timeout::Infinite);
    }
    Some(Timeout::Looks(number_within(0, 1_000_000, text)?))
}

/// The flag that a text is: `yes` or `no`.
#[tactic(auto, unfolding(crate::specs::Values::flag_of))]
pub fn flag_of(text: &[u8]) -> Option<bool>
    ensures { result ≡ flag_of text.now }
{
    if text == b"yes".as_slice() {
        return Some(true);
    }
    if text == b"no".as_slice() {
        return Some(false);
    }
    None
}

/// Whether a text is `writer`; the other mode is `reader`.
#[tactic(auto, unfolding(crate::specs::Values::mode_of))]
pub fn mode_of(text: &[u8]) -> Option<bool>
    ensures { result ≡ mode_of text.now }
{
    if text == b"writer".as_slice() {
        return Some(true);
    }
    if text == b"reader".as_slice() {
        return Some(false);
    }
    None
}

/// The mask that a text is: `all`, or ascending cores from 0 to 63 with commas.
#[tactic(auto, unfolding(crate::specs::Values::cores_of))]
pub fn cores_of(text: &[u8]) -> Option<Mask>
    ensures { option_map (λ m. m.0) result ≡ cores_of text.now }
{
    if text == b"all".as_slice() {
        return Some(Mask(u64::MAX));
    }
    Some(Mask(number_text::cores_of(text)?))
}
