//! Whether a run has begun so.

ghost use Rattle.std.specs.Prelude.{◌≡◌, true, IfOk, OnOk, length};
ghost use Rattle.workload_runs.specs.Whole.{HasSeats};
ghost use Rattle.begun_runs.specs.Begun.{Begun, EntriesGoOn};

use crate::completing::{Added, completion_of};
use node_journals::{EntryList, ShortList};
use run_check::is_run;
use std::alloc::{AllocError, Global};
use workload_file::Workload;

/// Puts entries behind others.
#[tactic(auto, using(crate::proofs::GoesOn::goes_on_here, crate::proofs::GoesOn::goes_on_one))]
fn add_all(list: &mut EntryList, rest: Vec<Added>) -> Result<(), AllocError>
    ensures { OnOk result (EntriesGoOn list.old list.new) }
{
    for added in rest {
        list.push(added.entry, added.skipped)?;
    }
    Ok(())
}

/// Whether these entries are the front of a run of the workload, whatever the machine would reply further on: true only where they are. It
/// fails for want of memory alone.
#[tactic(auto, using(crate::proofs::GoesOn::begun_by))]
pub fn is_begun(alloc: Global, load: &Workload, entries: &ShortList) -> Result<bool, AllocError>
    requires seats { HasSeats load.now }
    ensures { IfOk result (λ b. b ≡ true → Begun load.now entries.now.entries entries.now.skipped) }
{
    let _ = entries.skipped();
    let mut list = entries.in_full(alloc)?;
    let rest = completion_of(alloc, load, &list)?;
    add_all(&mut list, rest)?;
    is_run(alloc, load, list.as_slice(), list.skipped())
}
