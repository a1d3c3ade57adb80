//! Lists through their calls.

use linked_places::*;
use std::test::Fail;

// The first handle of the slot 2.
const HANDLE: u64 = (1 << 32) + 2;

#[test]
fn a_new_list_is_empty(rt: HostRuntime) -> Result<(), Fail> {
    let mut lists = LinkedLists::new(rt.alloc(), 2, 3)?;
    assert!(rt; lists.first(0) == None);
    lists.push(0, HANDLE);
    assert!(rt; lists.first(0) == Some(HANDLE));
    assert!(rt; lists.len(0) == 1);
    assert!(rt; lists.len(1) == 0);
    lists.remove(0, HANDLE);
    assert!(rt; lists.len(0) == 0);
    lists.clear(1);
    assert!(rt; lists.first(1) == None);
    Ok(())
}
