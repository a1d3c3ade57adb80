//! Groups through their calls: the order of ends, and the counts.

use group_core::*;
use handle_pool::SPAN;
use mtapi_values::{GroupHandle, TaskHandle};
use std::alloc::Global;
use std::test::Fail;

const FIRST: TaskHandle = TaskHandle(SPAN);

const SECOND: TaskHandle = TaskHandle(SPAN + 1);

#[test]
fn worked_rows(_rt: HostRuntime) {
    worked_members();
}

// What is asked of a group, and what it answers.
enum Asked {
    // So many members weren't handed out, and so many of these have ended.
    Left(u32, u32),
    Takes(Option<TaskHandle>),
    Leaves(Option<TaskHandle>),
}

// How many of two members have ended, the second one first, and what the group answers then, one question after the other.
const ROWS: [(u32, &[Asked]); 3] = [
    (
        0,
        &[
            Asked::Left(2, 0),
            Asked::Takes(None),
            Asked::Leaves(Some(FIRST)),
            Asked::Leaves(Some(SECOND)),
            Asked::Leaves(None),
            Asked::Left(0, 0),
        ],
    ),
    (
        1,
        &[
            Asked::Left(2, 1),
            Asked::Takes(Some(SECOND)),
            Asked::Takes(None),
            Asked::Leaves(Some(FIRST)),
            Asked::Left(0, 0),
        ],
    ),
    (
        2,
        &[
            Asked::Left(2, 2),
            Asked::Takes(Some(SECOND)),
            Asked::Left(1, 1),
            Asked::Leaves(None),
            Asked::Takes(Some(FIRST)),
            Asked::Left(0, 0),
        ],
    ),
];

// A group with two members of which so many have ended.
fn with_two(alloc: Global, ended: u32) -> Result<(Groups, GroupHandle), Fail> {
    let mut groups = Groups::new(alloc, 1, 5, 2)?;
    let Ok(g) = groups.create() else {
        return Err("no group")?;
    };
    groups.enter(g, FIRST);
    groups.enter(g, SECOND);
    if ended == 0 {
        return Ok((groups, g));
    }
    groups.ended(g, SECOND);
    if ended == 1 {
        return Ok((groups, g));
    }
    groups.ended(g, FIRST);
    Ok((groups, g))
}

fn answers(groups: &mut Groups, g: GroupHandle, asked: &Asked) -> bool {
    match asked {
        Asked::Left(all, ended) => groups.left(g) == Some((*all, *ended)),
        Asked::Takes(task) => groups.take(g) == *task,
        Asked::Leaves(task) => groups.leave(g) == *task,
    }
}

#[test]
fn two_members(rt: HostRuntime) -> Result<(), Fail> {
    for (ended, asked) in ROWS {
        let (mut groups, g) = with_two(rt.alloc(), ended)?;
        for question in asked {
            assert!(rt; answers(&mut groups, g, question));
        }
        groups.is_kept();
    }
    Ok(())
}
