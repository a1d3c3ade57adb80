//! The faulty lines of a text.
ghost use Rattle.std.specs.Prelude.{◌≡◌, ◌≤◌, ◌↔◌, [], true, false, length, IfOk, OnOk};
ghost use Rattle.workload_mistakes.specs.Mending.{mended_text};
ghost use Rattle.workload_mistakes.specs.Told.{AreFaulty, IsCut, IsTextWorkload, ends};

use crate::guesses::{NOTHING, mend_of};
use crate::hints::hint_of;
use crate::mending::mended;
use crate::mistakes::{Mend, Mistake, Mistakes};
use crate::reading::{Verdict, verdict_on};
use std::alloc::{AllocError, Global};
use workload_file::Cause;

/// The most mistakes that are told.
const MOST: usize = 50;

/// Whether something was read in place of this whole line, and so was the last that did.
fn is_replaced(told: &[Mistake], line: u64) -> bool {
    match told {
        [] => false,
        [.., last] => last.line == line && matches!(last.mend, Mend::Line(..)),
    }
}

/// What is told of a line, and how it is mended, where those told before are.
fn mistake_at(
    alloc: Global,
    bytes: &[u8],
    text: &[u8],
    line: u64,
    cause: Cause,
    told: &[Mistake],
) -> Result<Mistake, AllocError>
    ensures line { IfOk result (λ m. m.line ≡ line) }
    ensures cause { IfOk result (λ m. m.cause ≡ cause) }
{
    let hint = hint_of(alloc, bytes, text, line, cause)?;
    let mend = if is_replaced(told, line) {
        NOTHING
    } else {
        mend_of(alloc, bytes, text, line, cause, hint.at)?
    };
    Ok(Mistake {
        line,
        cause,
        column: (hint.at as u64).saturating_add(1),
        hint: hint.text,
        mend,
    })
}

/// Whether nothing is looked at behind a line that has this cause.
fn is_last(cause: Cause) -> bool
    ensures { result ≡ ends cause }
{
    matches!(cause, Cause::TooManyStatements | Cause::TooManyCallers)
}

/// The mistakes of a text, 50 at most, each as the text stands when those before it are mended.
///
/// # Errors
///
/// - `AllocError`: memory ran out.
pub fn mistakes_of(alloc: Global, bytes: &[u8]) -> Result<Mistakes, AllocError>
    requires { length bytes.now ≤ 1048576 }
    ensures few { IfOk result (λ m. length m.told.items ≤ 50) }
    // There is none exactly where the text is a workload.
    ensures none { IfOk result (λ m. (m.told.items ≡ []) ↔ IsTextWorkload bytes.now) }
    // The first is the reader's, and each other one is the reader's too when those before it are mended.
    ensures each { IfOk result (λ m. AreFaulty m.told.items bytes.now) }
    // If the text was looked at to its end, mending them makes it a workload.
    ensures all { IfOk result (λ m. m.more ≡ false → IsTextWorkload (mended_text m.told.items bytes.now)) }
    // It wasn't for one of three causes.
    ensures cut { IfOk result (λ m. m.more ≡ true → IsCut m.told.items bytes.now) }
{
    let mut told = Vec::new(alloc);
    let mut text = bytes.to_vec(alloc)?;
    'reading: while told.len() < MOST {
        match verdict_on(alloc, &text) {
            Verdict::Workload => return Ok(Mistakes { told, more: false }),
            Verdict::TooLong => return Ok(Mistakes { told, more: true }),
            Verdict::Memory => return Err(AllocError),
            Verdict::Faulty(line, cause) => {
                let mistake = mistake_at(alloc, bytes, &text, line, cause, &told)?;
                text = mended(alloc, &text, &mistake)?;
                told.push(mistake)?;
                if is_last(cause) {
                    return Ok(Mistakes { told, more: true });
                }
            }
        }
    }
    Ok(Mistakes { told, more: true })
}
