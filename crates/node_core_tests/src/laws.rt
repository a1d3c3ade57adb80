//! All laws of one list.

ghost use Rattle.mtapi_machine.specs.Legal.{Legal};
ghost use Rattle.mtapi_machine.specs.State.{terms_with};
ghost use Rattle.node_core_tests.specs.Journals.{HasLegalEntries};

use crate::tests::asking::{GROUP, QUEUE, SHMEM, TASK};
use history_law::{
    law_affinity, law_drop, law_end_after_close, law_end_has_its_cause, law_exclusion,
    law_group_order, law_kind, law_no_reuse, law_one_end, law_ordered, law_tally,
};
use mtapi_machine::Entry;
use mtapi_values::{
    GroupHandle, Layout, NodeAttr, ObjectKind, QueueHandle, ShmemHandle, TaskHandle,
};
use node_core::Journal;
use std::alloc::{AllocError, Global};

/// Each law of the entries of a journal: of the first object of its kind, and of the entry at place 4.
pub(crate) fn each_law(alloc: Global, journal: &Journal) -> Result<(), AllocError>
    requires { HasLegalEntries journal.now }
{
    let list = journal.entries.in_full(alloc)?;
    each_law_of(
        journal.layout,
        &journal.settings,
        journal.callers,
        list.as_slice(),
    );
    Ok(())
}

// The same of entries.
fn each_law_of(layout: Layout, settings: &NodeAttr, callers: u32, entries: &[Entry])
    requires { Legal (terms_with layout settings.now callers) entries.now }
{
    let task = TaskHandle(TASK);
    law_one_end(layout, settings, callers, entries, task);
    law_end_after_close(layout, settings, callers, entries, task);
    law_end_has_its_cause(layout, settings, callers, entries, task);
    law_ordered(layout, settings, callers, entries, QueueHandle(QUEUE));
    law_affinity(layout, settings, callers, entries, 4);
    law_no_reuse(layout, settings, callers, entries, ObjectKind::Shmem, SHMEM);
    law_group_order(layout, settings, callers, entries, GroupHandle(GROUP));
    law_exclusion(layout, settings, callers, entries);
    law_drop(layout, settings, callers, entries);
    law_kind(
        layout,
        settings,
        callers,
        entries,
        ObjectKind::Action,
        ObjectKind::Task,
        TASK,
    );
    law_tally(layout, settings, callers, entries, ShmemHandle(SHMEM), 0);
}
