//! Whether a list of entries is a legal history.

ghost use Rattle.std.specs.Prelude.{◌<◌, [], length, map, IfOk};
ghost use Rattle.mtapi_machine.specs.State.{terms_with};
ghost use Rattle.mtapi_machine.specs.Legal.{Legal};
ghost use Rattle.node_journals.specs.Shorts.{entry_of};
ghost use Rattle.journal_check.specs.Follow.{HasFollowed};
ghost use Rattle.journal_check.specs.Judged.{IsLegalOr};

use crate::following::Following;
use mtapi_values::{Layout, NodeAttr};
use node_journals::ShortEntry;
use std::alloc::{AllocError, Global};

// The number, from 1, of the first of these entries that isn't legal; none where they are a legal history. The follower stands before them.
fn first_refused(follower: &mut Following, shorts: &[ShortEntry]) -> Result<Option<u64>, AllocError>
    requires few { length shorts.now < 4294967295 }
    requires legal { Legal follower.old.terms [] }
    requires begins { HasFollowed follower.old [] }
    ensures { IfOk result (IsLegalOr follower.old.terms (map entry_of shorts.now)) }
{
    let mut judged = 0;
    for short in shorts {
        judged += 1;
        if !follower.judge(&short.full())? {
            return Ok(Some(judged));
        }
    }
    Ok(None)
}

/// The number, from 1, of the first entry that isn't legal by these terms; none where the list is a
/// legal history. It fails for want of memory alone; 2^32 - 1 entries or more need more than there is.
pub(crate) fn first_illegal(
    alloc: Global,
    layout: Layout,
    settings: NodeAttr,
    callers: u32,
    shorts: &[ShortEntry],
) -> Result<Option<u64>, AllocError>
    ensures { IfOk result (IsLegalOr (terms_with layout settings callers) (map entry_of shorts.now)) }
{
    settings.is_kept();
    if shorts.len() >= 4_294_967_295 {
        return Err(AllocError);
    }
    if callers < 1 || callers > 9 {
        return Ok(Some(1));
    }
    let mut follower = Following::new(alloc, layout, settings, callers)?;
    first_refused(&mut follower, shorts)
}
