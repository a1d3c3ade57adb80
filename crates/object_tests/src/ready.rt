//! Marks are found, least priority first, and gone when they are taken away.

ghost use Rattle.std.specs.Prelude.{◌≡◌, ◌+◌, ◌<◌, ◌≤◌};

use mtapi_values::Mask;
use ready_index::index::ReadyIndex;
use ready_index::steps::Steps;
use std::marker::Brand;
use std::sync::ledger::{Blank, Ledger};
use std::test::Fail;

/// With 8 priorities, at most 24 words are read.
fn reads_24_words<L: Ledger>(
    index: &ReadyIndex,
    worker: u32,
    steps: &mut Steps<L>,
) -> Option<(u32, u32)>
    requires worker { worker < index.now.workers }
    requires priorities { index.now.priorities ≤ 8 }
    ensures { steps.new ≤ steps.old + 24 }
{
    index.first(worker, steps)
}

/// What `first` answers with a new counter, which stays within 24 steps.
fn counted<L: Ledger>(index: &ReadyIndex, worker: u32, blank: Blank) -> Option<(u32, u32)>
    requires name { blank.name ≡ L.name }
    requires parts { blank.parts ≡ L.parts }
    requires some { 0 < L.parts }
    requires worker { worker < index.now.workers }
    requires priorities { index.now.priorities ≤ 8 }
{
    let mut steps = Steps::<L>::new(blank);
    reads_24_words(index, worker, &mut steps)
}

/// The same with a ledger of its own.
fn first_within_24(index: &ReadyIndex, worker: u32) -> Option<(u32, u32)>
    requires worker { worker < index.now.workers }
    requires priorities { index.now.priorities ≤ 8 }
{
    counted::<Brand>(index, worker, Blank::new(1))
}

/// The workers of these numbers.
fn mask_of(cores: &[u32]) -> Mask {
    let mut mask = Mask::init(false);
    for core in cores {
        let _ = mask.set(*core, true);
    }
    mask
}

#[test]
fn the_least_priority_is_found(rt: HostRuntime) -> Result<(), Fail> {
    let mut index = ReadyIndex::new(rt.alloc(), 8, 2, 4)?;
    index.mark(5, 2, mask_of(&[0, 1]));
    index.mark(3, 1, mask_of(&[1]));
    assert!(rt; index.first_for(0) == Some((2, 5)));
    assert!(rt; index.first_for(1) == Some((1, 3)));
    index.unmark(3);
    assert!(rt; index.first_for(1) == Some((2, 5)));
    assert!(rt; index.is_marked(5) && !index.is_marked(3));
    index.unmark(5);
    assert!(rt; index.first_for(0) == None);
    assert!(rt; index.first_for(1) == None);
    Ok(())
}

#[test]
fn the_last_slot_of_a_full_index_is_found(rt: HostRuntime) -> Result<(), Fail> {
    let mut index = ReadyIndex::new(rt.alloc(), 65536, 16, 8)?;
    index.mark(65535, 7, mask_of(&[15]));
    assert!(rt; first_within_24(&index, 15) == Some((7, 65535)));
    assert!(rt; first_within_24(&index, 14) == None);
    index.mark(64, 7, mask_of(&[15]));
    index.mark(4096, 6, mask_of(&[14, 15]));
    assert!(rt; index.first_for(15) == Some((6, 4096)));
    index.unmark(4096);
    assert!(rt; index.first_for(15) == Some((7, 64)));
    assert!(rt; index.first_for(14) == None);
    Ok(())
}
