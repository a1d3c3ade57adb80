//! Making a node, and giving it up.

ghost use Rattle.std.specs.Prelude.{◌≡◌, Some, None};
ghost use Rattle.node_handle.specs.declared.held.Held.{Held};
ghost use Rattle.mtapi_c.specs.Settings.{wrong_of, TellsWrong, IfCreated};

use crate::settings::{Settings, attributes_of, wrong_of};
use mtapi_values::MtapiStatus;
use node_handle::{NodeHandle, create, discard};
use std::alloc::Global;

// Memory was short.
const MEMORY: u32 = 99;

/// Makes a node for so many callers, with a journal or without. Where a setting is out of its range, its number is told.
#[unsafe(no_mangle)]
pub extern "C" fn mtapi_c_create(
    alloc: Global,
    node: &mut NodeHandle,
    settings: &Settings,
    callers: u32,
    journal: bool,
    wrong: &mut u32,
) -> u32
    ensures created { IfCreated node.old settings.now callers journal result node.new }
    ensures wrong { wrong.new ≡ wrong_of settings.now callers }
    ensures status { TellsWrong wrong.new result }
{
    let first = wrong_of(settings, callers);
    *wrong = first;
    if first > 0 {
        return MtapiStatus::ErrParameter.number();
    }
    if create(node, alloc, attributes_of(settings), callers, journal) {
        0
    } else {
        MEMORY
    }
}

/// Gives up the node, or the text of its journal.
#[unsafe(no_mangle)]
pub extern "C" fn mtapi_c_discard(alloc: Global, node: &mut NodeHandle)
    requires held { (held : Held) × (node.old.held ≡ Some held) }
    ensures empty { node.new.held ≡ None }
{
    discard(node, alloc);
}
