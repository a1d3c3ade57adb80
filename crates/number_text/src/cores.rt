//! Sets of cores.
ghost use Rattle.std.specs.Prelude.{◌≡◌, ◌<◌, ◌++◌, OnOk, map};
ghost use Rattle.std.specs.Fmt.{decimal};
ghost use Rattle.mtapi_values.specs.Masks.{in_mask};
ghost use Rattle.number_text.specs.Lists.{led, with_commas};
ghost use Rattle.number_text.specs.Cores.{cores_in_text, cores_below, cores_text};

use crate::cut::cut_at;
use crate::numbers::{number_within, push_number};
use arrayvec::ArrayVec;
use std::alloc::{AllocError, Global};

/// The mask of the cores that a text lists: ascending numbers from 0 to 63 with commas.
///
/// # Errors
///
/// - `None`: an item between two commas is no number from 0 to 63 in the one spelling,
///   or isn't greater than the one before.
pub fn cores_of(text: &[u8]) -> Option<u64>
    ensures { result ≡ cores_in_text text.now }
{
    let mut mask = 0u64;
    let mut low = 0u64;
    let mut left = Some(text);
    'cutting: while let Some(rest) = left {
        let (part, after) = cut_at(rest, b',');
        let Some(core) = number_within(low, 63, part) else {
            return None;
        };
        mask += 1u64 << core;
        low = core + 1;
        left = after;
    }
    Some(mask)
}

fn has_core(mask: u64, core: u64) -> bool
    requires { core < 64 }
    ensures { result ≡ in_mask core mask }
{
    mask >> core & 1 == 1
}

/// The cores of a mask, ascending.
fn listed_cores(mask: u64) -> ArrayVec<u64, 64>
    ensures { result.items ≡ cores_below mask 64 }
{
    let mut cores = ArrayVec::new();
    for core in 0..64u64 {
        if has_core(mask, core) {
            cores.push(core);
        }
    }
    cores
}

fn push_more(alloc: Global, out: &mut Vec<u8>, numbers: &[u64]) -> Result<(), AllocError>
    ensures { OnOk result (out.new.items ≡ out.old.items ++ led 44 (map decimal numbers.now)) }
{
    match numbers {
        [] => Ok(()),
        [n, rest @ ..] => {
            out.push(b',')?;
            push_number(alloc, out, *n)?;
            push_more(alloc, out, rest)
        }
    }
}

#[tactic(auto, using(crate::proofs::Pieces::joined))]
fn push_numbers(alloc: Global, out: &mut Vec<u8>, numbers: &[u64]) -> Result<(), AllocError>
    ensures { OnOk result (out.new.items ≡ out.old.items ++ with_commas (map decimal numbers.now)) }
{
    match numbers {
        [] => Ok(()),
        [n, rest @ ..] => {
            push_number(alloc, out, *n)?;
            push_more(alloc, out, rest)
        }
    }
}

/// Appends the cores of a mask, ascending, with commas between them.
///
/// # Errors
///
/// - `AllocError`: memory ran out. A front of the list may have been appended.
pub fn push_cores(alloc: Global, out: &mut Vec<u8>, mask: u64) -> Result<(), AllocError>
    ensures { OnOk result (out.new.items ≡ out.old.items ++ cores_text mask) }
{
    push_numbers(alloc, out, listed_cores(mask).as_slice())
}
