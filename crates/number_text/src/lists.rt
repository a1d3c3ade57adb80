//! Lists of numbers.
ghost use Rattle.std.specs.Prelude.{◌≡◌, ◌++◌, OnOk, map};
ghost use Rattle.std.specs.Fmt.{signed_decimal};
ghost use Rattle.number_text.specs.Lists.{list_of, list_text, led};

use crate::cut::cut_at;
use crate::numbers::{push_whole, whole};
use mtapi_values::Args;
use std::alloc::{AllocError, Global};

/// The 1 to 16 numbers that a text lists, with commas between them.
///
/// # Errors
///
/// - `None`: an item between two commas is no number of i64 in the one spelling, or there
///   are more than 16.
#[tactic(auto, unfolding(crate::specs::Lists::list_of))]
pub fn list_of(text: &[u8]) -> Option<Args>
    ensures { result ≡ list_of text.now }
{
    let mut args = Args::new();
    let mut left = Some(text);
    'cutting: while let Some(rest) = left {
        let (part, after) = cut_at(rest, b',');
        let Some(value) = whole(part) else {
            return None;
        };
        if !args.push(value) {
            return None;
        }
        left = after;
    }
    Some(args)
}

fn push_more(alloc: Global, out: &mut Vec<u8>, numbers: &[i64]) -> Result<(), AllocError>
    ensures { OnOk result (out.new.items ≡ out.old.items ++ led 44 (map signed_decimal numbers.now)) }
{
    match numbers {
        [] => Ok(()),
        [z, rest @ ..] => {
            out.push(b',')?;
            push_whole(alloc, out, *z)?;
            push_more(alloc, out, rest)
        }
    }
}

/// Appends numbers, with commas between them.
///
/// # Errors
///
/// - `AllocError`: memory ran out. A front of the list may have been appended.
#[tactic(auto, using(crate::proofs::Pieces::joined))]
pub fn push_list(alloc: Global, out: &mut Vec<u8>, numbers: &[i64]) -> Result<(), AllocError>
    ensures { OnOk result (out.new.items ≡ out.old.items ++ list_text numbers.now) }
{
    match numbers {
        [] => Ok(()),
        [z, rest @ ..] => {
            push_whole(alloc, out, *z)?;
            push_more(alloc, out, rest)
        }
    }
}
